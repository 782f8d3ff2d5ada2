// Tokens as a text, `m` for `myname`, and behind `~` what they are: numbers, `n..m` for a range, a
// last `*`; `!` where they are nothing.

use crate::rows::{Reader, check_rows};
use ac_text::Page;
use ac_types::{Atom, Constraint, Many, Name, Range, Version};
use ac_version::{
    VToken, VersionFault, constraint_text, meets, read_constraint, read_version, version_text,
};
use std::alloc::Global;
use std::process::Abort;

const VERSIONS: &str = "\
1 ~ 1
1.2.3.4.5.6.7.8 ~ 1 2 3 4 5 6 7 8
1.2.3.4.5.6.7.8.9 ~ !
m ~ m
1.m.3 ~ 1 m 3
m.m.m.m.m.m.m.m.m ~ !
4294967295 ~ 4294967295
4294967296 ~ !
1.4294967296 ~ !
~ !
.1 ~ !
1. ~ !
1..2 ~ !
1 2 ~ !
1-2 ~ !
* ~ !
1.* ~ !";

const CONSTRAINTS: &str = "\
1 ~ 1
1.2 ~ 1 2
1.--2 ~ !
1.2- ~ 1 2..
1.-3 ~ 1 ..3
-3 ~ ..3
2- ~ 2..
2-4 ~ 2..4
4-2 ~ 4..2
2-4.* ~ 2..4 *
-3.* ~ ..3 *
2-.* ~ 2.. *
1.* ~ 1 *
* ~ *
1.*.2 ~ !
1-.2 ~ 1.. 2
1-.-2 ~ 1.. ..2
1-2.3-4.-5.6- ~ 1..2 3..4 ..5 6..
1.2.3.4.5.6.7.8 ~ 1 2 3 4 5 6 7 8
1.2.3.4.5.6.7.8.* ~ 1 2 3 4 5 6 7 8 *
1.2.3.4.5.6.7.8.9 ~ !
1.2.3.4.5.6.7.8.9.* ~ !
4294967295-4294967295 ~ 4294967295..4294967295
4294967296 ~ !
1-4294967296 ~ !
-4294967296 ~ !
4294967296- ~ !
~ !
- ~ !
--2 ~ !
1-- ~ !
1--2 ~ !
1-2-3 ~ !
1-2 3 ~ !
1-2- ~ !
.1 ~ !
1. ~ !
1..2 ~ !
1* ~ !
1.** ~ !
*.1 ~ !
m ~ !";

fn symbol(c: u8) -> Option<VToken> {
    match c {
        b'.' => Some(VToken::Dot),
        b'-' => Some(VToken::Minus),
        b'*' => Some(VToken::Star),
        b'm' => Some(VToken::MyName),
        _ => None,
    }
}

fn tokens(rt: &impl Abort, alloc: Global, text: &[u8]) -> Many<VToken> {
    let mut found = Many::new(alloc);
    let mut number = None;
    for c in text {
        if c.is_ascii_digit() {
            let before: u64 = number.unwrap_or(0);
            let digit = u64::from(c.wrapping_sub(b'0'));
            number = Some(before.saturating_mul(10).saturating_add(digit));
            continue;
        }
        if let Some(n) = number {
            found.push(VToken::Number(n)).expect(rt, "memory");
            number = None;
        }
        if let Some(token) = symbol(*c) {
            found.push(token).expect(rt, "memory");
        }
    }
    if let Some(n) = number {
        found.push(VToken::Number(n)).expect(rt, "memory");
    }
    found
}

fn write_fault(page: &mut Page, fault: VersionFault) {
    match fault {
        VersionFault::Bad => page.put(b" !"),
        VersionFault::Memory => page.lose(),
    }
}

fn write_atom(page: &mut Page, atom: Atom) {
    page.put(b" ");
    match atom {
        Atom::Number(n) => page.number(u64::from(n)),
        Atom::MyName => page.put(b"m"),
    }
}

fn write_version(page: &mut Page, version: &Version) {
    for atom in version.atoms.as_slice() {
        write_atom(page, *atom);
    }
}

struct VersionReader;

impl Reader for VersionReader {
    fn read(rt: &impl Abort, alloc: Global, text: &str) -> Page {
        let mut page = Page::new(alloc);
        let tokens = tokens(rt, alloc, text.as_bytes());
        match read_version(alloc, tokens.as_slice()) {
            Ok(version) => write_version(&mut page, &version),
            Err(fault) => write_fault(&mut page, fault),
        }
        page
    }
}

#[test]
fn versions(rt: HostRuntime) {
    check_rows::<VersionReader>(&rt, rt.alloc(), VERSIONS);
}

fn write_range(page: &mut Page, range: Range) {
    page.put(b" ");
    match range {
        Range::One(n) => page.number(u64::from(n)),
        Range::Between(n, m) => {
            page.number(u64::from(n));
            page.put(b"..");
            page.number(u64::from(m));
        }
        Range::UpTo(m) => {
            page.put(b"..");
            page.number(u64::from(m));
        }
        Range::From(n) => {
            page.number(u64::from(n));
            page.put(b"..");
        }
    }
}

fn write_constraint(page: &mut Page, constraint: &Constraint) {
    match constraint {
        Constraint::Ranges { atoms, star } => {
            for atom in atoms.as_slice() {
                write_range(page, *atom);
            }
            if *star {
                page.put(b" *");
            }
        }
        Constraint::Exact(_) => page.put(b"by name"),
    }
}

struct ConstraintReader;

impl Reader for ConstraintReader {
    fn read(rt: &impl Abort, alloc: Global, text: &str) -> Page {
        let mut page = Page::new(alloc);
        let tokens = tokens(rt, alloc, text.as_bytes());
        match read_constraint(alloc, tokens.as_slice()) {
            Ok(constraint) => write_constraint(&mut page, &constraint),
            Err(fault) => write_fault(&mut page, fault),
        }
        page
    }
}

#[test]
fn constraints(rt: HostRuntime) {
    check_rows::<ConstraintReader>(&rt, rt.alloc(), CONSTRAINTS);
}

// A constraint, a version, and whether the version meets it.
const MEETINGS: [(&[u8], &[u8], bool); 7] = [
    (b"1.2-4.*", b"1.2", true),
    (b"1.2-4.*", b"1.4.9", true),
    (b"1.2-4.*", b"1.5", false),
    (b"1.2-4.*", b"2.3", false),
    (b"*", b"m", true),
    (b"1", b"m", false),
    (b"1", b"1.2", false),
];

// Constraints, and how they are printed.
const PRINTED: &str = "\
1.2-4.*~1.2-4.*
-3.4-~-3.4-
*~*";

fn read(rt: &impl Abort, alloc: Global, text: &[u8]) -> Constraint {
    read_constraint(alloc, tokens(rt, alloc, text).as_slice()).expect(rt, "a constraint")
}

fn read_had(rt: &impl Abort, alloc: Global, text: &[u8]) -> Version {
    read_version(alloc, tokens(rt, alloc, text).as_slice()).expect(rt, "a version")
}

fn is_met(rt: &impl Abort, alloc: Global, wanted: &[u8], had: &[u8]) -> bool {
    let had = read_had(rt, alloc, had);
    let wanted = read(rt, alloc, wanted);
    let met = meets(&had, &wanted, &Name([0; 32]));
    drop(wanted);
    met
}

#[test]
fn versions_meet_constraints(rt: HostRuntime) {
    for (wanted, had, holds) in &MEETINGS {
        assert_eq!(rt; is_met(&rt, rt.alloc(), wanted, had), *holds);
    }
}

struct PrintedReader;

impl Reader for PrintedReader {
    fn read(rt: &impl Abort, alloc: Global, text: &str) -> Page {
        let mut page = Page::new(alloc);
        let constraint = read(rt, alloc, text.as_bytes());
        let printed = constraint_text(alloc, &constraint).expect(rt, "memory");
        drop(constraint);
        page.put(printed.as_slice());
        page
    }
}

#[test]
fn prints_constraints(rt: HostRuntime) {
    check_rows::<PrintedReader>(&rt, rt.alloc(), PRINTED);
}

#[test]
fn prints_a_version(rt: HostRuntime) {
    let version = read_had(&rt, rt.alloc(), b"1.m.20");
    let found = version_text(rt.alloc(), &version).expect(&rt, "memory");
    assert_eq!(rt; found.as_slice(), b"1.myname.20".as_slice());
}

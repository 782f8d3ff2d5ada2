// What a resolvespec gives, as a program is loaded and in a packet.

use crate::make::{ANY, Asked, EMPTY, Shape, entry, import, module, text};
use ac_link::{When, resolve};
use ac_terms::{Def, Env, Import, Seen};
use ac_types::{Atom, Range};
use std::alloc::Global;
use std::process::Abort;

// Entries of four letters, a resolvespec, and what it gives at load and in a packet. Of an entry
// the letters are where it comes from (`o` own, `a` arrived, else the URI on the shelf), its
// external name, the last number of its version, which its name has throughout, and the type of
// its value `k`, or `!` for a mark and `>` for an import.
type Case = (&'static [u8], &'static [u8], Given, Given);

type Given = Option<u32>;

const NONE: Given = None;

const K: Shape = b":ki";

fn seen(rt: &impl Abort, alloc: Global, letter: u8) -> Seen {
    match letter {
        b'o' => Seen::Own,
        b'a' => Seen::Arrived,
        uri => Seen::Shelf(text(rt, alloc, uri)),
    }
}

fn def(rt: &impl Abort, alloc: Global, name: u8, version: u8, ty: u8) -> Def {
    match ty {
        b'!' => Def::Mark(text(rt, alloc, name)),
        b'>' => Def::Import(import(rt, alloc, EMPTY, Asked::Exact(version), b"H")),
        b'b' => module_of(rt, alloc, name, version, b":kb"),
        _ => module_of(rt, alloc, name, version, K),
    }
}

fn module_of(rt: &impl Abort, alloc: Global, name: u8, version: u8, shape: Shape) -> Def {
    let last = u32::from(version.wrapping_sub(b'0'));
    let version = [Atom::Number(1), Atom::Number(last)];
    Def::Module(module(rt, alloc, name, &version, shape))
}

fn env(rt: &impl Abort, alloc: Global, letters: &[u8]) -> Env {
    let mut env = Env::new(alloc);
    for item in letters.chunks(4) {
        if let [from, name, version, ty] = item {
            let def = def(rt, alloc, *name, *version, *ty);
            let entry = entry(def, *version, seen(rt, alloc, *from));
            env.push(entry).expect(rt, "memory");
        }
    }
    env
}

// What is given at load and in a packet.
fn given(rt: &impl Abort, env: &Env, import: &Import) -> (Given, Given) {
    assert!(rt; import.sig.types.len() < 10 && import.sig.vals.len() < 10);
    assert!(rt; env.len() < 10);
    (
        resolve(env, import, When::Load),
        resolve(env, import, When::Packet),
    )
}

fn check(rt: &impl Abort, alloc: Global, (entries, by, at_load, in_packet): Case, asked: Asked) {
    let env = env(rt, alloc, entries);
    let import = import(rt, alloc, K, asked, by);
    let given = given(rt, &env, &import);
    drop(import);
    drop(env);
    assert!(rt; given == (at_load, in_packet));
}

fn check_all(rt: &impl Abort, alloc: Global, cases: &[Case], asked: Asked) {
    for case in cases {
        check(rt, alloc, *case, asked);
    }
}

// The latest own module that passes; in a packet nothing by `Static_Link`.
const OWN_MODULES: [Case; 12] = [
    (b"", b"SH", NONE, NONE),
    (b"oM1i", b"S", Some(0), NONE),
    (b"oM1i", b"H", Some(0), Some(0)),
    (b"oM1ioM2i", b"S", Some(1), NONE),
    (b"oM1ioM2i", b"H", Some(1), Some(1)),
    (b"oM1ioM2b", b"S", Some(0), NONE),
    (b"oM1ioM2b", b"H", Some(0), Some(0)),
    (b"oM1ioN2ioM1!oM2>", b"H", Some(0), Some(0)),
    (b"oN1ioM2b", b"SH", NONE, NONE),
    (b"oM1iaM2i", b"H", Some(0), Some(0)),
    (b"aM2i", b"SH", NONE, NONE),
    (b"xM1i", b"SH", NONE, NONE),
];

#[test]
fn own_modules(rt: HostRuntime) {
    check_all(&rt, rt.alloc(), &OWN_MODULES, ANY);
}

const SHELF_MODULES: [Case; 5] = [
    (b"xM1iyM2i", b"x", Some(0), Some(0)),
    (b"xM1iyM2i", b"y", Some(1), Some(1)),
    (b"xM1iyM2i", b"z", NONE, NONE),
    (b"xM1byN2i", b"xy", NONE, NONE),
    (b"oM1iaM1i", b"x", NONE, NONE),
];

#[test]
fn shelf_modules(rt: HostRuntime) {
    check_all(&rt, rt.alloc(), &SHELF_MODULES, ANY);
}

// The first atom that gives an entry decides.
const ATOMS_IN_ORDER: [Case; 9] = [
    (b"xM1iyM2ioM3i", b"xyH", Some(0), Some(0)),
    (b"xM1iyM2ioM3i", b"yxH", Some(1), Some(1)),
    (b"xM1iyM2ioM3i", b"Hxy", Some(2), Some(2)),
    (b"xM1iyM2ioM3i", b"Sy", Some(2), Some(1)),
    (b"xM1iyM2ioM3i", b"SH", Some(2), Some(2)),
    (b"xM1iyM2ioM3i", b"zyH", Some(1), Some(1)),
    (b"xM1byM2ioM3i", b"xyH", Some(1), Some(1)),
    (b"xM1iyM2ioM3b", b"SHx", Some(0), Some(0)),
    (b"xM1byM2boM3b", b"SHxyz", NONE, NONE),
];

#[test]
fn atoms_in_order(rt: HostRuntime) {
    check_all(&rt, rt.alloc(), &ATOMS_IN_ORDER, ANY);
}

// By exact name; what has arrived serves in a packet where no own module does.
const EXACT_NAMES: [Case; 12] = [
    (b"oM1ioM2i", b"S", Some(0), NONE),
    (b"oM1ioM2i", b"H", Some(0), Some(0)),
    (b"oM1ioM1i", b"H", Some(1), Some(1)),
    (b"oM1iaM1i", b"H", Some(0), Some(0)),
    (b"oM2iaM1i", b"H", NONE, Some(1)),
    (b"oM2iaM1i", b"S", NONE, NONE),
    (b"aM1iaM1iaM2i", b"H", NONE, Some(1)),
    (b"aM1iaM1>", b"H", NONE, Some(0)),
    (b"aN1iaM1b", b"H", NONE, NONE),
    (b"xM1iaM1i", b"Hx", Some(0), Some(1)),
    (b"xM1iaM1i", b"xH", Some(0), Some(0)),
    (b"xM2i", b"Hx", NONE, NONE),
];

#[test]
fn exact_names(rt: HostRuntime) {
    check_all(&rt, rt.alloc(), &EXACT_NAMES, Asked::Exact(b'1'));
}

// Of two own modules of versions 1.1 and 1.4 the latest that meets the ranges.
const LATEST: [(&[Range], Given); 5] = [
    (&[Range::One(1), Range::From(2)], Some(1)),
    (&[Range::One(1), Range::UpTo(3)], Some(0)),
    (&[Range::One(1), Range::From(1)], Some(1)),
    (&[Range::One(1), Range::One(1)], Some(0)),
    (&[Range::One(1), Range::Between(2, 3)], NONE),
];

#[test]
fn latest_that_meets(rt: HostRuntime) {
    for (ranges, want) in &LATEST {
        let case: Case = (b"oM1ioM4i", b"H", *want, *want);
        check(&rt, rt.alloc(), case, Asked::Ranges(ranges, false));
    }
}

// Journals of sessions.

use crate::make::{program, text};
use ac_outside::SureWorld;
use ac_run::{Crossing, RunEnd, Session};
use ac_types::{Exn, Many, Text, TextExn};
use std::alloc::Global;
use std::process::Abort;

// It refuses its string.
const UNMARSHALS: &[u8] = b"unmarshal \"x\" as int";

// The string of a crossing that was read.
fn read(crossing: &Crossing) -> Option<&[u8]> {
    match crossing {
        Crossing::Read(text) => Some(text.as_slice()),
        Crossing::Made(_) => None,
    }
}

fn check_refused(rt: &impl Abort, alloc: Global, session: &mut Session) {
    let mut world = SureWorld::new(alloc, Text::new(alloc));
    let end = session.run(&mut world);
    let refused = matches!(
        &end,
        RunEnd::Uncaught(Exn::Text(TextExn::UnmarshalFailure, _))
    );
    drop(end);
    assert!(rt; refused);
}

// Whether a journal has this string alone, which was read.
fn has_read(journal: &Many<Crossing>, text: &[u8]) -> bool {
    match journal.get(0) {
        Some(crossing) => journal.len() == 1 && read(crossing) == Some(text),
        None => false,
    }
}

#[test]
fn a_refused_string_was_read(rt: HostRuntime) {
    let program = program(&rt, rt.alloc(), UNMARSHALS);
    let mut session = Session::journalled(rt.alloc(), program, 0, false).expect(&rt, "memory");
    assert!(rt; session.journal().len() == 0);
    check_refused(&rt, rt.alloc(), &mut session);
    assert!(rt; has_read(session.journal(), b"x"));
    drop(session);
}

#[test]
fn a_session_without_a_journal_keeps_none(rt: HostRuntime) {
    let program = program(&rt, rt.alloc(), UNMARSHALS);
    let mut session = Session::new(rt.alloc(), program, 0, false).expect(&rt, "memory");
    check_refused(&rt, rt.alloc(), &mut session);
    assert!(rt; session.journal().len() == 0);
    drop(session);
}

fn check_copy(rt: &impl Abort, alloc: Global, crossing: Crossing, want: Option<&[u8]>) {
    let copy = crossing.copy(alloc).expect(rt, "memory");
    drop(crossing);
    let same = read(&copy) == want;
    drop(copy);
    assert!(rt; same);
}

#[test]
fn crossings_are_copied(rt: HostRuntime) {
    let alloc = rt.alloc();
    check_copy(
        &rt,
        alloc,
        Crossing::Read(text(&rt, alloc, b"x")),
        Some(b"x"),
    );
    check_copy(&rt, alloc, Crossing::Made(Text::new(alloc)), None);
}

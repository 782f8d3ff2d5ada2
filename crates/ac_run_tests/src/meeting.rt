// Two pieces that wait for one another.

use crate::make::{program, text};
use ac_audit::{AuditVerdict, audit_all};
use ac_batch::{Verdict, check_all};
use ac_load::Shelf;
use ac_make::make;
use ac_outside::Gate;
use ac_types::{Many, Ty};
use std::sync::atomic::{AtomicBool, Ordering};

const MOST_TURNS: u64 = 1_000_000_000;

// A gate of two pieces, each of which turns until the other has entered.
#[derive(Drop)]
struct Meeting {
    first: AtomicBool,
    second: AtomicBool,
    missed: AtomicBool,
}

impl Meeting {
    fn new() -> Meeting {
        Meeting {
            first: AtomicBool::new(false),
            second: AtomicBool::new(false),
            missed: AtomicBool::new(false),
        }
    }

    // Whether a piece has turned to the end without the other.
    fn is_missed(&self) -> bool {
        self.missed.load(Ordering::SeqCst)
    }
}

impl Gate for Meeting {
    fn enter(&self, piece: usize) {
        let (own, other) = if piece == 0 {
            (&self.first, &self.second)
        } else {
            (&self.second, &self.first)
        };
        own.store(true, Ordering::SeqCst);
        for _ in 0..MOST_TURNS {
            if other.load(Ordering::SeqCst) {
                return;
            }
        }
        self.missed.store(true, Ordering::SeqCst);
    }

    fn leave(&self, _piece: usize) {}
}

#[test]
fn pieces_run_side_by_side(rt: HostRuntime) {
    let alloc = rt.alloc();
    let mut texts = Many::new(alloc);
    for seed in 1..3 {
        let text = make(alloc, seed, 200).expect(&rt, "memory");
        texts.push(text).expect(&rt, "memory");
    }
    let gate = Meeting::new();
    let verdicts = check_all(&rt, alloc, &texts, &Shelf::empty(alloc), &gate);
    let verdicts = verdicts.expect(&rt, "memory");
    assert!(rt; !gate.is_missed());
    assert!(rt; verdicts.as_slice() == [Verdict::Accepted, Verdict::Accepted].as_slice());
}

// A packet of the int 5, and of nothing else.
const FIVE: [u8; 17] = [
    0x41, 0x43, 0x55, 0x50, 1, 0, 0, 1, 1, 0, 0, 0, 0, 0, 0, 0, 5,
];

#[test]
fn frames_are_audited_side_by_side(rt: HostRuntime) {
    let alloc = rt.alloc();
    let loaded = program(&rt, alloc, b"()");
    let mut frames = Many::new(alloc);
    for _ in 0..2 {
        frames.push(text(&rt, alloc, &FIVE)).expect(&rt, "memory");
    }
    let gate = Meeting::new();
    let verdicts = audit_all(&rt, alloc, &loaded.env, &frames, &Ty::Int, &gate);
    let verdicts = verdicts.expect(&rt, "memory");
    assert!(rt; !gate.is_missed());
    assert!(rt; verdicts.len() == 2);
    for verdict in verdicts.as_slice() {
        assert!(rt; matches!(verdict, AuditVerdict::Accepted));
    }
}

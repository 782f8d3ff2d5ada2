// The verdicts of a list, and where each of its pieces enters and leaves.

use crate::make::text;
use ac_batch::{Verdict, check_all};
use ac_load::{Kind, Refusal, Shelf};
use ac_outside::{Gate, OpenGate};
use ac_types::{Many, Text};
use std::alloc::Global;
use std::process::Abort;
use std::sync::atomic::{AtomicU64, Ordering};

// A gate that counts the calls of each number: 1 for `enter`, and behind one `enter` 256 for
// `leave`.
#[derive(Drop)]
struct Counts(Vec<AtomicU64>);

impl Gate for Counts {
    fn enter(&self, piece: usize) {
        if let Some(count) = self.0.get(piece) {
            count.fetch_add(1, Ordering::SeqCst);
        }
    }

    fn leave(&self, piece: usize) {
        if let Some(count) = self.0.get(piece)
            && count.load(Ordering::SeqCst) == 1
        {
            count.fetch_add(256, Ordering::SeqCst);
        }
    }
}

// Eight times a program and an empty text.
fn texts(rt: &impl Abort, alloc: Global) -> Many<Text> {
    let mut texts = Many::new(alloc);
    for _ in 0..8 {
        texts
            .push(text(rt, alloc, b"IO.print_int 42"))
            .expect(rt, "memory");
        texts.push(Text::new(alloc)).expect(rt, "memory");
    }
    texts
}

const ITS_VERDICTS: [Verdict; 2] = [
    Verdict::Accepted,
    Verdict::Refused(Refusal {
        part: 0,
        kind: Kind::Syntax { at: 0 },
    }),
];

fn counting(rt: &impl Abort, alloc: Global) -> Counts {
    let mut counts = Vec::new(alloc);
    for _ in 0..16 {
        counts.push(AtomicU64::new(0)).expect(rt, "memory");
    }
    Counts(counts)
}

#[test]
fn verdicts_stand_in_order(rt: HostRuntime) {
    let alloc = rt.alloc();
    let texts = texts(&rt, alloc);
    let gate = counting(&rt, alloc);
    let verdicts = check_all(&rt, alloc, &texts, &Shelf::empty(alloc), &gate);
    let verdicts = verdicts.expect(&rt, "memory");
    assert!(rt; verdicts.len() == 16);
    for pair in verdicts.as_slice().chunks(2) {
        assert!(rt; pair == ITS_VERDICTS.as_slice());
    }
    for count in &gate.0 {
        assert!(rt; count.load(Ordering::SeqCst) == 257);
    }
}

#[test]
fn no_texts_have_no_verdicts(rt: HostRuntime) {
    let alloc = rt.alloc();
    let none = Many::new(alloc);
    let verdicts = check_all(&rt, alloc, &none, &Shelf::empty(alloc), &OpenGate);
    let verdicts = verdicts.expect(&rt, "memory");
    assert!(rt; verdicts.as_slice().is_empty());
}

// Frames of a source: whole, broken off, too long, and after a read that fails.

use crate::make::{one, text};
use ac_outside::{FrameGot, Frames, MemoryWorld, Source, SureWorld};
use ac_types::Many;
use std::alloc::Global;
use std::process::Abort;

// What a reader of frames is to answer.
#[derive(Clone, Copy)]
enum Want {
    Frame(&'static [u8]),
    End,
    Bad(u32, u32),
    Failed,
}

fn is_wanted(answer: &FrameGot, want: Want) -> bool {
    match (answer, want) {
        (FrameGot::Frame(text), Want::Frame(bytes)) => text.as_slice() == bytes,
        (FrameGot::Bad { length, got }, Want::Bad(size, taken)) => *length == size && *got == taken,
        (FrameGot::End, Want::End) => true,
        (FrameGot::Failed, Want::Failed) => true,
        _ => false,
    }
}

// Checks the first answers over a source.
fn check<S: Source>(rt: &impl Abort, alloc: Global, source: &mut S, wants: &[Want]) {
    let mut frames = Frames::new(alloc);
    for want in wants {
        let answer = frames.next(source);
        assert!(rt; is_wanted(&answer, *want));
        drop(answer);
    }
    drop(frames);
}

fn check_bytes(rt: &impl Abort, alloc: Global, bytes: &[u8], wants: &[Want]) {
    let mut source = SureWorld::new(alloc, text(rt, alloc, bytes));
    check(rt, alloc, &mut source, wants);
    drop(source);
}

const IN_ORDER: [Want; 5] = [
    Want::Frame(&[7, 8]),
    Want::Frame(&[]),
    Want::Frame(&[9]),
    Want::End,
    Want::End,
];

#[test]
fn frames_come_in_order_and_then_the_end(rt: HostRuntime) {
    let bytes = [0, 0, 0, 2, 7, 8, 0, 0, 0, 0, 0, 0, 0, 1, 9];
    check_bytes(&rt, rt.alloc(), &bytes, &IN_ORDER);
}

#[test]
fn a_frame_that_breaks_off_is_none(rt: HostRuntime) {
    let wants = [Want::Bad(3, 5), Want::Bad(3, 5)];
    check_bytes(&rt, rt.alloc(), &[0, 0, 0, 3, 7], &wants);
    check_bytes(&rt, rt.alloc(), &[0, 0], &[Want::Bad(0, 2)]);
}

#[test]
fn a_length_above_the_limit_is_no_frame(rt: HostRuntime) {
    let wants = [Want::Bad(1_048_577, 4)];
    check_bytes(&rt, rt.alloc(), &[0, 16, 0, 1, 7, 8], &wants);
}

const AFTER_A_FAULT: [Want; 3] = [Want::Failed, Want::Frame(&[7]), Want::End];

#[test]
fn what_was_taken_is_kept_over_a_failed_read(rt: HostRuntime) {
    let alloc = rt.alloc();
    let input = text(&rt, alloc, &[0, 0, 0, 1, 7]);
    let mut source = MemoryWorld::new(alloc, input, one(&rt, alloc, 1u64), Many::new(alloc));
    check(&rt, alloc, &mut source, &AFTER_A_FAULT);
    drop(source);
}

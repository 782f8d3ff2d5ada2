// A reader of frames.
ghost use Rattle.std.specs.Prelude.{◌≡◌, ◌≢◌, ◌<◌, ◌≤◌, ◌++◌, [], IsTrue, length};
ghost use Rattle.std.specs.Int.{from_be_bytes, w32};
ghost use Rattle.ac_types.specs.Types.{Bytes};
ghost use Rattle.ac_outside.specs.Outside.{Rose};
ghost use Rattle.ac_outside.specs.FrameReaders.{Keeps, Follows, Receives, ReaderGoesOn, AnswersFrame};
ghost use Rattle.ac_outside.specs.inner.FrameParts.{IsFramePart, taken_bytes, reader, left_by};

use crate::filling::{Fill, fill_to};
use crate::traits::Source;
use ac_types::Text;
use ac_types::limits::LONGEST_FRAME;
use std::alloc::Global;
use std::marker::Model;
use std::mem;

/// What a reader of frames answers.
#[derive(Drop)]
pub enum FrameGot {
    /// The bytes of the next frame, without its length. No byte behind them was taken.
    Frame(Text),
    /// No byte was left, and none of a frame was kept.
    End,
    /// There is no frame: its length is above `LONGEST_FRAME`, or the bytes end early.
    Bad {
        /// The length, 0 where its four bytes aren't whole.
        length: u32,
        /// How many bytes were taken, the length's own among them.
        got: u32,
    },
    /// A read failed. What was taken is kept for the next call.
    Failed,
    /// Memory ran out.
    Memory,
}

/// A reader of frames. After `Bad` it answers the same `Bad`, after `Memory` `Memory`, and takes
/// nothing.
pub struct Frames {
    alloc: Global,
    part: Part,
    stop: Option<Stop>,
}

impl Drop for Frames {
    fn drop(self) {
        let Frames {
            alloc: _,
            part: _,
            stop: _,
        } = self;
    }
}

impl Model for Frames {
    ghost use Rattle.ac_outside.specs.FrameReaders.{Reader};
    ghost use Rattle.ac_outside.specs.inner.FrameParts.{IsFramePart, taken_bytes, reader};

    ghost Value = { Reader };

    ghost view = { λ s. reader s.stop (taken_bytes s.part) };

    ghost invariant = { λ s. IsFramePart s.part.head.0 s.part.body.0 };
}

// What is kept of a frame.
#[derive(Drop)]
struct Part {
    // The bytes of its length.
    head: Text,
    // Those behind it.
    body: Text,
}

// Why a reader takes nothing more.
#[derive(Clone, Copy)]
enum Stop {
    Bad { length: u32, got: u32 },
    Memory,
}

impl Frames {
    /// A reader that has taken nothing. It takes no memory.
    pub fn new(alloc: Global) -> Frames
        ensures { result ≡ Keeps [] }
    {
        Frames {
            alloc,
            part: Part {
                head: Text::new(alloc),
                body: Text::new(alloc),
            },
            stop: None,
        }
    }

    /// Takes the next frame. `Failed` comes only where a read failed.
    pub fn next<S: Source>(&mut self, source: &mut S) -> FrameGot
        ensures state { Follows result self.old self.new }
        ensures bytes { IsTrue S.told →
            Receives result self.old (S.left source.old) self.new (S.left source.new) }
        ensures cause { result ≡ FrameGot.Failed →
            Rose (S.read_faults source.old) (S.read_faults source.new) }
        ensures later { S.read_faults source.old ≤ S.read_faults source.new }
        ensures passes { S.passes source.old source.new }
    {
        match self.stop {
            Some(Stop::Bad { length, got }) => FrameGot::Bad { length, got },
            Some(Stop::Memory) => FrameGot::Memory,
            None => {
                let answer = read_frame(self.alloc, &mut self.part, source);
                self.stop = stop_after(&answer);
                answer
            }
        }
    }
}

fn stop_after(answer: &FrameGot) -> Option<Stop>
    ensures { (bytes : Bytes) → reader result bytes ≡ left_by answer.now bytes }
{
    match answer {
        FrameGot::Bad { length, got } => Some(Stop::Bad {
            length: *length,
            got: *got,
        }),
        FrameGot::Memory => Some(Stop::Memory),
        FrameGot::Frame(_) | FrameGot::End | FrameGot::Failed => None,
    }
}

// Goes on with a frame.
fn read_frame<S: Source>(alloc: Global, part: &mut Part, source: &mut S) -> FrameGot
    requires { IsFramePart part.old.head.0 part.old.body.0 }
    ensures part { IsFramePart part.new.head.0 part.new.body.0 }
    ensures goes { ReaderGoesOn result (taken_bytes part.old)
        (left_by result (taken_bytes part.new)) }
    ensures gives { IsTrue S.told →
        AnswersFrame result (taken_bytes part.old ++ S.left source.old)
        (left_by result (taken_bytes part.new))
        (S.left source.new) }
    ensures cause { result ≡ FrameGot.Failed →
        Rose (S.read_faults source.old) (S.read_faults source.new) }
    ensures later { S.read_faults source.old ≤ S.read_faults source.new }
    ensures passes { S.passes source.old source.new }
{
    if part.head.0.len() == 4 {
        return read_body(alloc, part, source);
    }
    match fill_to(&mut part.head, source, 4) {
        Fill::Done => read_body(alloc, part, source),
        Fill::End => ended(part.head.as_slice()),
        Fill::Failed => FrameGot::Failed,
        Fill::Memory => FrameGot::Memory,
    }
}

// What is answered where the bytes end with these of a length.
fn ended(head: &[u8]) -> FrameGot
    requires { length head.now < 4 }
    ensures goes { ReaderGoesOn result head.now (left_by result head.now) }
    ensures gives { AnswersFrame result head.now (left_by result head.now) [] }
    ensures read { result ≢ FrameGot.Failed }
{
    if head.is_empty() {
        return FrameGot::End;
    }
    FrameGot::Bad {
        length: 0,
        got: head.len() as u32,
    }
}

// Goes on behind a length.
fn read_body<S: Source>(alloc: Global, part: &mut Part, source: &mut S) -> FrameGot
    requires part { IsFramePart part.old.head.0 part.old.body.0 }
    requires head { length part.old.head.0 ≡ 4 }
    ensures part { IsFramePart part.new.head.0 part.new.body.0 }
    ensures goes { ReaderGoesOn result (taken_bytes part.old)
        (left_by result (taken_bytes part.new)) }
    ensures gives { IsTrue S.told →
        AnswersFrame result (taken_bytes part.old ++ S.left source.old)
        (left_by result (taken_bytes part.new))
        (S.left source.new) }
    ensures cause { result ≡ FrameGot.Failed →
        Rose (S.read_faults source.old) (S.read_faults source.new) }
    ensures later { S.read_faults source.old ≤ S.read_faults source.new }
    ensures passes { S.passes source.old source.new }
{
    let length = length_in(part.head.as_slice());
    if length > LONGEST_FRAME {
        return FrameGot::Bad { length, got: 4 };
    }
    match fill_to(&mut part.body, source, length as usize) {
        Fill::Done => FrameGot::Frame(taken(alloc, part)),
        Fill::End => FrameGot::Bad {
            length,
            got: 4 + part.body.0.len() as u32,
        },
        Fill::Failed => FrameGot::Failed,
        Fill::Memory => FrameGot::Memory,
    }
}

// The bytes behind the length. Nothing is kept then.
fn taken(alloc: Global, part: &mut Part) -> Text
    ensures bytes { result.0 ≡ part.old.body.0 }
    ensures head { part.new.head.0 ≡ [] }
    ensures body { part.new.body.0 ≡ [] }
{
    part.head = Text::new(alloc);
    mem::replace(&mut part.body, Text::new(alloc))
}

fn length_in(head: &[u8]) -> u32
    requires { length head.now ≡ 4 }
    ensures { result ≡ from_be_bytes w32 head.now }
{
    u32::from_be_bytes([head[0], head[1], head[2], head[3]])
}

// Bytes of a source, added at the end of a text.
ghost use Rattle.std.specs.Prelude.{◌≡◌, ◌<◌, ◌≤◌, IsTrue, length};
ghost use Rattle.ac_outside.specs.Outside.{Rose};
ghost use Rattle.ac_outside.specs.inner.Filling.{Added, Filled, Moves};

use crate::traits::{Got, Source};
use ac_types::Text;

/// How an attempt to add bytes ended.
#[derive(Clone, Copy)]
pub enum Fill {
    /// They were added.
    Done,
    /// The source has no byte left.
    End,
    /// A read failed.
    Failed,
    /// Memory ran out: bytes that were taken may be lost.
    Memory,
}

// How many bytes one read takes at most.
const PIECE: usize = 4096;

/// Adds bytes until the text has so many.
pub fn fill_to<S: Source>(text: &mut Text, source: &mut S, want: usize) -> Fill
    requires { length text.old.0 ≤ want }
    ensures filled { Filled result want text.old.0 text.new.0 }
    ensures moves { IsTrue S.told →
        Moves result text.old.0 (S.left source.old) text.new.0 (S.left source.new) }
    ensures cause { result ≡ Fill.Failed →
        Rose (S.read_faults source.old) (S.read_faults source.new) }
    ensures later { S.read_faults source.old ≤ S.read_faults source.new }
    ensures passes { S.passes source.old source.new }
{
    for _i in text.0.len()..want {
        let has = text.0.len();
        if has == want {
            return Fill::Done;
        }
        match add_some(text, source, want - has) {
            Fill::Done => {}
            Fill::End => return Fill::End,
            Fill::Failed => return Fill::Failed,
            Fill::Memory => return Fill::Memory,
        }
    }
    Fill::Done
}

// Adds what one read takes, at most so many bytes.
fn add_some<S: Source>(text: &mut Text, source: &mut S, most: usize) -> Fill
    requires { 0 < most }
    ensures added { Added result most text.old.0 text.new.0 }
    ensures moves { IsTrue S.told →
        Moves result text.old.0 (S.left source.old) text.new.0 (S.left source.new) }
    ensures cause { result ≡ Fill.Failed →
        Rose (S.read_faults source.old) (S.read_faults source.new) }
    ensures later { S.read_faults source.old ≤ S.read_faults source.new }
    ensures passes { S.passes source.old source.new }
{
    let mut buf = [0; PIECE];
    let room = most.min(PIECE);
    match source.read(&mut buf[..room]) {
        Got::Bytes(count) => match text.extend(&buf[..count]) {
            Ok(()) => Fill::Done,
            Err(_) => Fill::Memory,
        },
        Got::End => Fill::End,
        Got::Failed => Fill::Failed,
    }
}

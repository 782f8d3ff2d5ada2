// The frames of a channel, read to its end or to the first that is refused.

ghost use Rattle.std.specs.Prelude.{◌≡◌, ◌≤◌, ◌+◌, ℕ, IsErrOf, IsTrue, IfOk, IfSome, MatchOption, length, map};
ghost use Rattle.ac_types.specs.Limits.{longest_frame};
ghost use Rattle.ac_outside.specs.Frames.{AtEnd, Bad, Whole, next_frame};
ghost use Rattle.ac_outside.specs.Outside.{Rose};
ghost use Rattle.ac_channels.specs.ChannelFrames.{AllFrames, BadFrame, channel_frames, most_frames};

use ac_outside::{FrameGot, Frames, Source};
use ac_types::{Many, Memory, Text};
use std::alloc::Global;

/// A channel that is read whole has at most so many frames.
pub const MOST_FRAMES: usize = 4096;

/// A channel that is read whole has at most so many bytes.
pub const LONGEST_CHANNEL: usize = 67_108_864;

// The bytes of a frame's length.
const LENGTH: usize = 4;

/// Why a channel isn't read whole.
#[derive(Clone, Copy, Debug, PartialEq, Eq)]
pub enum ChannelFault {
    /// The number of the first frame that is refused, from 1.
    BadFrame(u32),
    /// A read failed.
    Failed,
    /// Memory ran out.
    Memory,
}

impl From<Memory> for ChannelFault {
    ghost use Rattle.std.specs.Prelude.{◌≡◌};
    ghost use Rattle.ac_channels.specs.declared.reading.ChannelFault.TheVariants as fault;

    ghost from_gives = { λ _ e. e ≡ fault.Memory };

    fn from(_e: Memory) -> ChannelFault {
        ChannelFault::Memory
    }
}

/// The strings of all frames that a source has left. `BadFrame` exactly at the first frame that is
/// none, ends past `LONGEST_CHANNEL` bytes, or comes behind `MOST_FRAMES` others; nothing is taken
/// behind it.
#[tactic(auto, unfolding(crate::specs::ChannelFrames::most_frames, crate::specs::ChannelFrames::longest_channel))]
pub fn read_channel<S: Source>(alloc: Global, source: &mut S) -> Result<Many<Text>, ChannelFault>
    ensures whole { IsTrue S.told → IfOk result (λ texts. channel_frames (S.left source.old)
        ≡ AllFrames (map (λ text. text.0) texts)) }
    ensures refused { IsTrue S.told → (k : ℕ) → IsErrOf result (ChannelFault.BadFrame k) →
        channel_frames (S.left source.old) ≡ BadFrame k }
    ensures cause { IsErrOf result ChannelFault.Failed →
        Rose (S.read_faults source.old) (S.read_faults source.new) }
    ensures later { S.read_faults source.old ≤ S.read_faults source.new }
    ensures passes { S.passes source.old source.new }
{
    let mut texts = Many::new(alloc);
    let mut room = LONGEST_CHANNEL;
    while let Some(text) = next(alloc, source, texts.len())? {
        let size = LENGTH + text.as_slice().len();
        if texts.len() == MOST_FRAMES || size > room {
            return Err(ChannelFault::BadFrame(texts.len() as u32 + 1));
        }
        room -= size;
        texts.push(text)?;
    }
    Ok(texts)
}

// The next string, behind so many, and none at the end of the source.
#[tactic(auto, unfolding(crate::specs::ChannelFrames::most_frames))]
fn next<S: Source>(
    alloc: Global,
    source: &mut S,
    before: usize,
) -> Result<Option<Text>, ChannelFault>
    requires { before ≤ most_frames }
    ensures string { IsTrue S.told → IfOk result (λ o. MatchOption o
        (next_frame (S.left source.old) ≡ AtEnd)
        (λ text. next_frame (S.left source.old) ≡ Whole text.0 (S.left source.new))) }
    ensures short { IfOk result (λ o. IfSome o (λ text. length text.0 ≤ longest_frame)) }
    ensures number { (k : ℕ) → IsErrOf result (ChannelFault.BadFrame k) → k ≡ before + 1 }
    ensures bad { IsTrue S.told → (k : ℕ) → IsErrOf result (ChannelFault.BadFrame k) →
        (n : ℕ) × (g : ℕ) × (next_frame (S.left source.old) ≡ Bad n g) }
    ensures cause { IsErrOf result ChannelFault.Failed →
        Rose (S.read_faults source.old) (S.read_faults source.new) }
    ensures later { S.read_faults source.old ≤ S.read_faults source.new }
    ensures passes { S.passes source.old source.new }
{
    match Frames::new(alloc).next(source) {
        FrameGot::Frame(text) => Ok(Some(text)),
        FrameGot::End => Ok(None),
        FrameGot::Bad { .. } => Err(ChannelFault::BadFrame(before as u32 + 1)),
        FrameGot::Failed => Err(ChannelFault::Failed),
        FrameGot::Memory => Err(ChannelFault::Memory),
    }
}

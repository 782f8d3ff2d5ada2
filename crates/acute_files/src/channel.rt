// The frames of a channel's file.
ghost use Rattle.std.specs.Prelude.{◌≡◌, ◌≤◌, ℕ, ◌++◌, IsErrOf, IsTrue, IfOk, map};
ghost use Rattle.ac_outside.specs.Outside.{NeverFall, Rose};
ghost use Rattle.ac_channels.specs.ChannelFrames.{AllFrames, BadFrame};
ghost use Rattle.acute_files.specs.ChannelFiles.{HasFrames};
ghost use Rattle.acute_files.specs.Files.{Since, reading, seen};
ghost use Rattle.acute_files.specs.inner.FileFronts.{BeginsWith, byte_held, front_left, longest_front};

use ac_channels::{ChannelFault, LONGEST_CHANNEL, read_channel};
use ac_outside::{Files, Got, Source};
use ac_types::{Many, Text};
use std::alloc::Global;

// As many bytes of a file as tell its frames.
const LONGEST_FRONT: usize = LONGEST_CHANNEL + 1;

// What is left of the front of a file: a byte that was read before, and the file from a place on.
#[derive(Drop)]
struct FileFront<'a, 'b, F: Files> {
    files: &'a mut F,
    name: &'b str,
    held: Option<u8>,
    place: usize,
    ghost within: { place ≤ longest_front },
}

impl<F: Files> Source for FileFront<'_, '_, F> {
    ghost use Rattle.std.proofs.Common.{refl, subst, ◌∙◌, arith};

    ghost told = { F.told };

    ghost left = { λ s. byte_held s.held ++ front_left (F.contents s.files.now s.name.now) s.place };

    ghost read_faults = { λ s. F.read_faults s.files.now s.name.now };

    ghost passes = { λ a b. (b.files.ghost_name ≡ a.files.ghost_name) × (b.name.now ≡ a.name.now) ×
        Since F.told (seen F.Files a.files.now) (seen F.Files b.files.now) ×
        F.reads a.name.now a.files.now b.files.now };

    #[tactic(auto, unfolding(crate::specs::inner::FileFronts::longest_front))]
    fn read(&mut self, buf: &mut [u8]) -> Got {
        if let Some(byte) = self.held.take() {
            buf[0] = byte;
            return Got::Bytes(1);
        }
        let most = buf.len().min(LONGEST_FRONT - self.place);
        if most == 0 {
            return Got::End;
        }
        let got = self
            .files
            .read(self.name, self.place as u64, &mut buf[..most]);
        if let Got::Bytes(count) = got {
            self.place += count;
        }
        got
    }

    ghost passes_none = { λ a. (
      refl,
      refl,
      record { same = λ t. refl; reads = λ n. omega arith; writes = λ n. omega arith },
      F.reads_none a.name.now a.files.now,
    ) };

    ghost passes_on = { λ a b c h k. (
      k.0 ∙ h.0,
      k.1 ∙ h.1,
      record {
        same = λ t. k.2.same t ∙ h.2.same t;
        reads = λ n. omega (arith, h.2.reads n, k.2.reads n);
        writes = λ n. omega (arith, h.2.writes n, k.2.writes n);
      },
      F.reads_on a.name.now a.files.now b.files.now c.files.now h.3
          (subst (λ n. F.reads n b.files.now c.files.now) h.1 k.3),
    ) };
}

/// The strings of all frames of a channel's file, or why it isn't read whole. Nothing is read behind
/// the first frame that is refused, and no byte twice.
pub fn read_frames<F: Files>(
    alloc: Global,
    files: &mut F,
    name: &str,
) -> Result<Many<Text>, ChannelFault>
    ensures frames { IfOk result (λ texts. HasFrames
        (reading F.Files files.old files.new name.now) (AllFrames (map (λ text. text.0) texts))) }
    ensures refused { (k : ℕ) → IsErrOf result (ChannelFault.BadFrame k) → HasFrames
        (reading F.Files files.old files.new name.now) (BadFrame k) }
    ensures failed { IsErrOf result ChannelFault.Failed →
        Rose (F.read_faults files.old name.now) (F.read_faults files.new name.now) }
    ensures same { IsTrue F.told → F.contents files.new ≡ F.contents files.old }
    ensures later { NeverFall (F.read_faults files.old) (F.read_faults files.new) }
    ensures later_writes { NeverFall (F.write_faults files.old) (F.write_faults files.new) }
    ensures only { F.reads name.now files.old files.new }
{
    // a file that is missing is told by its first read
    let mut first = [0u8; 1];
    match files.read(name, 0, &mut first) {
        Got::Failed => Err(ChannelFault::Failed),
        Got::End => Ok(Many::new(alloc)),
        Got::Bytes(_) => frames_behind(alloc, files, name, first[0]),
    }
}

// The same of a file whose first byte was read.
#[tactic(auto, unfolding(crate::specs::inner::FileFronts::longest_front))]
fn frames_behind<F: Files>(
    alloc: Global,
    files: &mut F,
    name: &str,
    first: u8,
) -> Result<Many<Text>, ChannelFault>
    requires { IsTrue F.told → BeginsWith (F.contents files.old name.now) first }
    ensures frames { IfOk result (λ texts. HasFrames
        (reading F.Files files.old files.new name.now) (AllFrames (map (λ text. text.0) texts))) }
    ensures refused { (k : ℕ) → IsErrOf result (ChannelFault.BadFrame k) → HasFrames
        (reading F.Files files.old files.new name.now) (BadFrame k) }
    ensures failed { IsErrOf result ChannelFault.Failed →
        Rose (F.read_faults files.old name.now) (F.read_faults files.new name.now) }
    ensures since { Since F.told (seen F.Files files.old) (seen F.Files files.new) }
    ensures only { F.reads name.now files.old files.new }
{
    let mut front = FileFront {
        files,
        name,
        held: Some(first),
        place: 1,
    };
    read_channel(alloc, &mut front)
}

// Reads a file, up to one byte past the limit of a text.
ghost use Rattle.std.specs.Prelude.{◌≡◌, ◌<◌, IsTrue, IfOk, IsErrOf};
ghost use Rattle.ac_outside.specs.Outside.{Rose, NeverFall};
ghost use Rattle.acute_files.specs.inner.Fronts.{IsFrontOf};

use ac_outside::{Files, Got};
use ac_types::limits::LONGEST_READ;
use ac_types::{Memory, Text};
use std::alloc::Global;

/// Why a file isn't read.
#[derive(Clone, Copy, Debug, PartialEq, Eq)]
pub enum ReadFault {
    /// A read failed.
    Failed,
    /// Memory ran out.
    Memory,
}

// How many bytes one read takes at most.
const PIECE: usize = 4096;

/// The bytes of a file, the first `LONGEST_READ` at most.
pub fn read_text<F: Files>(alloc: Global, files: &mut F, name: &str) -> Result<Text, ReadFault>
    ensures text { IsTrue F.told → IfOk result
        (λ text. IsFrontOf (F.contents files.old name.now) text.0) }
    ensures same { IsTrue F.told → F.contents files.new ≡ F.contents files.old }
    ensures cause { IsErrOf result ReadFault.Failed →
        Rose (F.read_faults files.old name.now) (F.read_faults files.new name.now) }
    ensures later { NeverFall (F.read_faults files.old) (F.read_faults files.new) }
    ensures later_writes { NeverFall (F.write_faults files.old) (F.write_faults files.new) }
    ensures only { F.reads name.now files.old files.new }
{
    let mut text = Text::new(alloc);
    let mut len = 0usize;
    while len < LONGEST_READ {
        let mut piece = [0u8; PIECE];
        let room = (LONGEST_READ - len).min(PIECE);
        let part = &mut piece[..room];
        match files.read(name, len as u64, part) {
            Got::Bytes(count) => match text.extend(&part[..count]) {
                Ok(()) => len += count,
                Err(_) => return Err(ReadFault::Memory),
            },
            Got::End => return Ok(text),
            Got::Failed => return Err(ReadFault::Failed),
        }
    }
    Ok(text)
}

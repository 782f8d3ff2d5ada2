// How runs end.

ghost use Rattle.std.specs.Prelude.{◌≡◌, IfOk};

use ac_types::{Exn, Memory};
use std::alloc::Global;

/// How a run ends.
#[derive(Drop)]
pub enum RunEnd {
    /// The program has come to its end, and all that it prints and sends is written.
    Finished,
    /// It has raised an exception that nothing handles, and all that it printed and sent before is
    /// written.
    Uncaught(Exn),
    /// It has made as many applications as it may, these, and would make another; all that it
    /// printed and sent before is written.
    Spent { steps: u64 },
    /// A read failed, and nothing was written after it.
    ReadFault,
    /// A print or a send failed, and nothing was written after it.
    WriteFault,
    /// Memory ran out, and nothing was written after that.
    Memory,
}

impl RunEnd {
    /// A copy that equals this one.
    pub fn copy(&self, alloc: Global) -> Result<RunEnd, Memory>
        ensures { IfOk result (λ c. c ≡ self.now) }
    {
        match self {
            RunEnd::Finished => Ok(RunEnd::Finished),
            RunEnd::Uncaught(exn) => Ok(RunEnd::Uncaught(exn.copy(alloc)?)),
            RunEnd::Spent { steps } => Ok(RunEnd::Spent { steps: *steps }),
            RunEnd::ReadFault => Ok(RunEnd::ReadFault),
            RunEnd::WriteFault => Ok(RunEnd::WriteFault),
            RunEnd::Memory => Ok(RunEnd::Memory),
        }
    }
}

// How pipes end.

use ac_run::RunEnd;
use ac_spawn::Ended;

/// How a pipe ends.
#[derive(Drop)]
pub enum PipeEnd {
    /// Memory ran out before a child ran.
    Memory,
    /// The start failed.
    StartFault,
    /// The receiver and the child have run.
    Ran {
        /// How the receiver's run has ended.
        end: RunEnd,
        /// Whether a read of what the child gave behind that failed.
        rest_failed: bool,
        /// How the child has ended.
        sender: Ended,
    },
}

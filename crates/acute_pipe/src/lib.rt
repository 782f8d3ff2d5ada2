//! What the request for a pipe starts and runs, and what it says of its sender.
#![tactic(auto)]

mod line;
mod running;
mod words;

pub use line::with_sender;
pub use running::run_pipe;

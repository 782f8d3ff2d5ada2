//! The top call in a process: its words, and the files, streams and children of the system.
#![tactic(auto)]

mod call;
mod words;

pub use acute_top::Status;
pub use call::call_really;
pub use words::words_given;

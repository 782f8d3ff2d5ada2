//! The top call: what the words of a command line ask for, over files and streams.
#![tactic(auto)]

mod answering;
mod auditing;
mod chaining;
mod delivery;
mod laws;
mod no_files;
mod no_input;
mod piping;
mod run;
mod saying;
mod top;
mod world;

pub use acute_answers::Status;
pub use laws::{
    bad_line_refused, good_shelf, nothing_failed, nothing_failed_piping, nothing_failed_printing,
    one_answer, one_meaning, some_meaning, taken_exactly,
};
pub use top::acute;

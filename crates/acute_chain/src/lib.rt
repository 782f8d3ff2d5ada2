//! What a chain of programs gives: what they print as they run, and their lines behind it.
#![tactic(auto)]

mod chaining;
mod line;

pub use chaining::{Halt, run_chain};

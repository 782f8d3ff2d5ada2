//! What the words of a command line of `lens` ask for. The library clap reads them, and makes help,
//! usage, version and what is said of words that it doesn't take.
#![tactic(auto)]

mod commands;
mod reader;

pub use reader::{Asked, Explain, asked_by};

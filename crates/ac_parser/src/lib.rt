//! The parser of whole programs: from the bytes of a text to its tree.
#![tactic(auto)]

mod defs;
mod front;
mod imports;
pub mod laws;
mod modules;
mod programs;
mod texts;
mod versions;

pub use texts::{parse_module, parse_program};

//! From trees to entries and core terms: programs, and modules by themselves, whose names and counts
//! have no fault.
#![tactic(auto)]

mod defs;
pub mod laws;
mod patterns;
mod program;
mod structs;
mod term;
mod types;

pub use program::{RawProgram, build};

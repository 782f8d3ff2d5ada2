//! Generated programs: the text of as many modules as are asked for, from a seed.
#![tactic(auto)]

mod draws;
mod lines;
mod program;

pub use program::make;

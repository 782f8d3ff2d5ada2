//! The values of a walk over what is marshalled, and the whole walk: its bytes, and the definitions
//! that it speaks of, or the first fault.
#![tactic(auto)]

mod functions;
mod held;
mod lists;
mod packed;
mod travels;
mod visit;
mod written;

pub use written::{Written, write};

//! The state of the stack machine over a store of nodes, and what single instructions do to it.
#![tactic(auto)]

mod calls;
mod constants;
pub mod engine;
pub mod fields;
mod giving;
mod handlers;
mod make;
mod pause;
mod variables;

pub use pause::{Pause, Stand, Wait};

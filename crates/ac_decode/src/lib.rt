//! Packets: read from bytes exactly where the bytes spell one, and spelled.
//!
//! A packet's trees are read by recursion, whose depth is their nesting and is bounded; the parts
//! of a list by a loop. How types are read is a parameter, `Types`, as is how they are spelled.
#![tactic(auto)]

mod defs;
mod heads;
mod makes;
mod packets;
mod patterns;
mod shapes;
mod spelling;
mod terms;

pub use packets::{DecodeFault, decode};
pub use spelling::encode;

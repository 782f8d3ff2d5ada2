//! The definitions of a packet: the forms in which entries travel, whether they nest little, the
//! numbers that they have there, and their bytes.
//!
//! A term is gone through by recursion, whose depth is at most the greatest nesting; the parts of a
//! list by a loop.
#![tactic(auto)]

mod definitions;
mod forms;
mod nesting;
mod numbers;

pub use definitions::{forms_nest, packet_front, put};
pub use numbers::places;

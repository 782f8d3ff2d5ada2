//! Which entries the definitions of a packet take.
//!
//! Names with their texts, and definitions with their links, are looked up in ordered maps: neither
//! goes through all entries for each definition.
#![tactic(auto)]

mod finding;
mod keys;
mod link;
mod names;
mod places;
mod placing;

pub use places::Place;
pub use placing::{Placing, placed};

//! What crosses: the string that marshalling gives for a machine's value, or the first fault; the
//! string or the exception of why there is none; the definitions that a string brings, with their
//! code and the block of its value, or the exception of why it brings nothing.
#![tactic(auto)]

mod arrival;
mod fault;
mod packet;
mod packing;
mod raising;
mod strings;

pub use arrival::unmarshal;
pub use fault::CrossFault;
pub use packing::{PackFault, pack};
pub use strings::marshal;

//! A whole program, or a module by itself: its entries and its term, or the first fault of its names
//! and counts.
#![tactic(auto)]

mod fault;
mod whole;

pub use fault::ScopeFault;
pub use whole::elaborate;

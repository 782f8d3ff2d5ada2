//! Why a surface is refused for its names and counts: the scan that finds it, which makes no entries
//! and no types.
#![tactic(auto)]

mod atoms;
mod defs;
mod exprs;
mod fault;
mod joining;
mod lists;
mod patterns;
mod scope;
mod surface;

pub use fault::FirstFault;
pub use surface::scope_fault;

//! The stack machine: it runs the code of blocks over a store of nodes, from pause to pause.
#![tactic(auto)]

mod alone;
mod jumps;
mod machine;
mod operate;
mod packing;
pub mod step;
mod together;

pub use machine::Machine;

//! Chains of programs: each reads what the one before it sent, and of each string that is read it
//! is told whether the chain made it.
#![tactic(auto)]

mod chained;
mod chains;
mod clash;
mod known;
mod loads;
mod made;
mod printing;
mod program;
mod world;

pub use chained::{ChainFault, ChainPart, Chained};
pub use chains::chain;
pub use printing::lines;

//! Child programs of the system, as what a program starts.
//!
//! Nothing is told of them: contracts see whether one runs, and the counts of faults. That its bytes
//! and its status are those of the system's child is trusted.
#![tactic(auto)]

mod spawner;

pub use spawner::RealSpawner;

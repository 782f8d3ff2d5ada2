//! Child programs: what starts one, reads what it writes on its output, and waits for its end.
//!
//! As in the traits of files and streams, a call that answers `Failed` shows in a count that never
//! falls.
#![tactic(auto)]

mod memory;
mod spawner;

pub use memory::MemorySpawner;
pub use spawner::{Ended, Spawner};

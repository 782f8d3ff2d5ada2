//! What a program meets outside: files to read and write, sinks for its output, and the world in
//! which it runs.
//!
//! Each trait has counts of faults that never fall, and a call that answers `Failed` shows in its
//! count. So code that is generic over a trait can't claim a fault that didn't happen. Some
//! implementations tell what they contain, and some don't: a clause that begins with `IsTrue told`
//! speaks of the former alone.
#![tactic(auto)]

mod calls;
mod files;
mod filling;
mod frames;
mod gate;
mod laws;
mod sink;
mod source;
mod taking;
mod traits;
mod world;

pub use calls::Calls;
pub use files::{MemoryFile, MemoryFiles};
pub use frames::{FrameGot, Frames};
pub use gate::{Gate, OpenGate};
pub use laws::{frame_back, whole_is_frame};
pub use sink::{MemorySink, SureSink};
pub use source::{MemorySource, SureSource};
pub use traits::{Files, Got, Put, Sink, Source, World};
pub use world::{MemoryWorld, SureWorld};

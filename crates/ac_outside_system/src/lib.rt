//! The files and streams of the system, as what a program meets outside.
//!
//! None of them tells what it has: contracts see their counts of faults alone. That they pass on the
//! system's bytes is trusted.
#![tactic(auto)]

mod ahead;
mod files;
mod node;
mod readers;
mod streams;
mod writers;

pub use files::RealFiles;
pub use streams::{RealSink, RealSource};

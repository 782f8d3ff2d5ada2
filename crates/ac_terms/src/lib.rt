//! Core terms, patterns, definitions and packed values: the trees that every later layer speaks of.
#![tactic(auto)]

mod copy;
mod def;
mod env;
mod lambda;
pub mod laws;
mod look_ups;
mod pat;
mod renumber;
pub mod tags;
mod term;

pub use def::{Def, Entry, Field, Import, Module, PDef, Packet, Seen};
pub use env::Env;
pub use pat::Pat;
pub use renumber::{Copier, Numbering};
pub use term::{Arm, Home, PVal, Term};

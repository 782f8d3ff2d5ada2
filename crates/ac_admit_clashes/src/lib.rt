//! Which names of a packet's definitions are known with another text.
//!
//! Names are looked up in an ordered map, and a text is made only where its name is known.
#![tactic(auto)]

mod known;

pub use known::clash;

//! Types, patterns, terms and packed values that a line writes, each form in front of its parts: the
//! forms are taken from the end of the line on, each with its parts on a pile.
#![tactic(auto)]

mod patterns;
mod pile;
mod terms;
mod types;
mod values;

pub use pile::{Pile, several};

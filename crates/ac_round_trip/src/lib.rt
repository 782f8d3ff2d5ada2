//! There and back: what is read of a string that marshal gave is a copy of the value that was
//! marshalled, and no spelling begins another. The definitions stand in `specs/`; this crate has
//! their laws.
#![tactic(auto)]

pub mod laws;

//! What the values of the machine stand for. The definitions stand in `specs/`; this crate has their
//! laws.
#![tactic(auto)]

pub mod laws;

//! Scopes of whole programs: what each name of a text means, and what its definitions and its
//! expression elaborate to. The definitions stand in `specs/`; this crate has their laws.
#![tactic(auto)]

pub mod laws;
mod standard;

pub use standard::is_standard;

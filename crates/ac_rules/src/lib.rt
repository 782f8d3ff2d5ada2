//! The rules: what a type stands for, typing, links, well-formed definitions, coherent
//! environments, plain values, needed definitions and accepted packets. They stand in `specs/`.
#![tactic(auto)]

pub mod laws;
mod loaded;
mod reps;
mod under;

pub use loaded::Loaded;
pub use reps::rep;
pub use under::eq_under;

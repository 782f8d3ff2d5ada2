//! The reduction of the whole language, which says what each program does. It stands in `specs/`;
//! this crate has its laws.
#![tactic(auto)]

pub mod laws;

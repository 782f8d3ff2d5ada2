//! The machine, running the code of the generation scheme, ends as the reduction without brackets
//! does. The definitions stand in `specs/`; this crate has its laws.
#![tactic(auto)]

pub mod laws;

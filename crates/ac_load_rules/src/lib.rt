//! Acceptance of whole programs: which texts are refused beside a shelf, and what the others are. The definitions stand in
//! `specs/`; this crate has their laws.
#![tactic(auto)]

pub mod laws;

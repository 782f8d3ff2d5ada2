//! What primitives answer of constants, and which values patterns fit.
#![tactic(auto)]

pub mod fits;
pub mod primitive;

//! The pieces of packets: numbers, identifiers, strings, types and signatures, read exactly where
//! they are spelled.
//!
//! How types are read is a parameter, `Types`, and `InFull` reads those that are spelled in full.
#![tactic(auto)]

mod fault;
mod numbers;
mod sigs;
mod texts;
mod types;
mod versions;

pub use fault::{PieceFault, joined};
pub use numbers::{
    take_byte, take_count, take_eight, take_four, take_long_count, take_name, take_truth, take_two,
    width,
};
pub use sigs::{all_typed, take_sig};
pub use texts::{take_lower, take_text, take_upper};
pub use types::{InFull, Types};
pub use versions::{take_constraint, take_resolves, take_version};

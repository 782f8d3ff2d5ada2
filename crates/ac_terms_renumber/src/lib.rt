//! What terms, packed values and definitions speak of: a test of each part of them, and copies with
//! other numbers for the definitions that they speak of.
//!
//! A term is gone through by recursion, whose depth is its height; the parts of a list by a loop.
#![tactic(auto)]

mod defs;
mod moved;
mod patterns;
mod renumber;
mod terms;
mod test;

pub use defs::{import_passes, module_passes};
pub use moved::module_renumbered;
pub use renumber::{term_renumbered, value_renumbered};
pub use terms::{term_passes, value_passes};
pub use test::Test;

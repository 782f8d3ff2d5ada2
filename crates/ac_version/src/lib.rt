//! Versions and constraints: how they are read, and when one meets the other.
#![tactic(auto)]

pub mod laws;
mod meeting;
mod print;
mod read;

pub use meeting::{fit, meets};
pub use print::{constraint_text, version_text};
pub use read::{VToken, VersionFault, read_constraint, read_version};

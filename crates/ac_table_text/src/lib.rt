//! Core terms, packed values and definitions as nodes: a leaf as it is, any other node in
//! parentheses, its form in front of its parts.
#![tactic(auto)]

mod definitions;
mod patterns;
mod sheet;
mod terms;
mod types;

pub use definitions::{write_import, write_module};
pub use sheet::{Leaves, Sheet};
pub use terms::{write_term, write_value};
pub use types::write_type;

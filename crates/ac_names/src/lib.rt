//! The names of definitions, and a table of names with their texts.
#![tactic(auto)]

mod names;
mod table;

pub use names::{has_name, name_hex, name_of};
pub use table::{AddFault, NameTable};

//! Generation of stack code from core terms: for a term, a packed value or the fields of an entry
//! the blocks of its lambdas, inner ones first, and a block of its own.
#![tactic(auto)]

mod entries;
mod generating;
mod scope;
mod terms;
mod writer;

pub use entries::generate_entries;
pub use generating::{generate, generate_entry, generate_value};

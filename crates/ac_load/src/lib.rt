//! From the texts of a program and of a shelf to entries and a term that are ready to run, or why
//! there are none.
#![tactic(auto)]

mod kind;
pub mod laws;
mod loading;
mod part;
mod shelf;

pub use kind::{Kind, Refusal};
pub use loading::load;
pub use shelf::{Shelf, ShelfEntry};

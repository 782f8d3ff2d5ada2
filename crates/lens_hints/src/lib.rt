//! What is said of a text without tokens or without a tree: what may stand at the place, and what to
//! write in place of a habit from another language.
#![tactic(auto)]

mod binders;
mod expected;
mod forms;
mod groups;
mod lexical;
mod missing;
mod spot;
mod syntax;

pub use lexical::why_lexical;
pub use syntax::{Grammar, why_syntax};

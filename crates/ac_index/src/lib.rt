//! Which number was noted first under each key.
#![tactic(auto)]

mod bytes;
mod firsts;
mod named_word;
mod names;

pub use firsts::{Firsts, Key};
pub use named_word::NamedWord;

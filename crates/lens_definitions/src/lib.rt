//! What is said of a definition that is refused as a whole: a struct that doesn't cover its signature,
//! a field that computes, an import without a likespec or without a link, and a count.
#![tactic(auto)]

mod candidates;
mod covering;
mod crowded;
mod faults;
mod likespecs;
mod trees;
mod valuable;

pub use candidates::why_unresolved;
pub use covering::why_uncovered;
pub use crowded::why_too_many;
pub use likespecs::why_like_missing;
pub use trees::{ExplainedPart, name_of_tree};
pub use valuable::why_not_valuable;

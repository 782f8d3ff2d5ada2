//! A walk over what is marshalled, which writes its bytes and finds the definitions that it speaks
//! of, up to the first part that fails: types, patterns and terms. What is still to be visited
//! stands in a list, so that nothing recurses along a value.
#![tactic(auto)]

mod around;
mod patterns;
mod piece;
mod shapes;
mod terms;
mod types;
mod walk;

pub use around::{Slot, later, newest_type};
pub use piece::{Around, PackContext, Piece};
pub use shapes::sum;
pub use walk::Walk;

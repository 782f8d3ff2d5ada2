//! Why a definition or an expression has no type: the part that is meant, what is wanted of it, and
//! what stands there.
#![tactic(auto)]

mod agreeing;
mod arms;
mod fields;
mod parts;
mod unlike;
mod untyped;
mod whole;

pub use parts::{InnerExpression, parts_of};
pub use untyped::Standing;
pub use whole::why_ill_typed;

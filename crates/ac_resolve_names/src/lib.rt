//! The scope of a place in a text, and what each name and each type means there.
#![tactic(auto)]

mod entries;
mod front;
mod latest;
mod naming;
mod outer;
mod primitive;
mod sealed;
mod types;
mod variables;

pub use front::Front;
pub use outer::{Outer, Scope};
pub use primitive::{NamedPrimitive, named};
pub use types::{fun_ty, ty};

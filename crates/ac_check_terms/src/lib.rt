//! The type of a term, exactly where the rules of typing give one, each captured value counting as
//! of the type beside it.
#![tactic(auto)]

mod arms;
mod data;
mod exceptions;
mod functions;
mod patterns;
mod primitives;
mod scope;
mod typing;
mod written;

pub use typing::declared_type;

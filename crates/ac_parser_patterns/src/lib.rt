//! The parser of patterns, and the readers and makers of which the parser of expressions is made.
#![tactic(auto)]

mod binders;
pub mod build;
mod front;
mod patterns;

pub use binders::{Binder, FunctionHead, argument, ascribed, function_head, type_behind, typed};
pub use front::{
    Prefix, begins_atom, constant, expect, followed, lone_number, lower_name, next_prefix,
};
pub use patterns::{arm_pattern, pattern};

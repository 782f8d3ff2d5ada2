//! The parser of expressions.
#![tactic(auto)]

mod expressions;
mod keywords;
mod leaves;
mod operators;
mod whole;

pub use whole::expression;

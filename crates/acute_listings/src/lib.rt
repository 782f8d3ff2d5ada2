//! What is shown of a program that is ready to run: the names of its definitions, and its code as
//! the listing of its blocks.
#![tactic(auto)]

mod blocks;
mod code;
mod digits;
mod instructions;
mod names;
mod patterns;
mod types;

pub use blocks::listing;
pub use code::code_text;
pub use names::names_text;

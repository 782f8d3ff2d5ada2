//! Lists of answers, written as the places where each of them stands.
#![tactic(auto)]

mod ranges;

pub use ranges::{Places, put_answers, put_hex, put_lines};

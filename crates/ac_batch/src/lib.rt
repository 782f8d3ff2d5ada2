//! The verdicts of many texts, in parallel.
#![tactic(auto)]

mod apart;
mod batch;
mod verdict;

pub use batch::check_all;
pub use verdict::Verdict;

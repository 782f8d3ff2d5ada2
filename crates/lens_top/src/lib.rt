//! A call of `lens`: its words, over files, output and errors.
#![tactic(auto)]

mod call;
mod faults;
mod files;
mod list;
mod status;

pub use call::lens;
pub use status::LensStatus;

//! Needed definitions: what a packet holds beside its value.
#![tactic(auto)]

mod closing;
mod fault;
mod forms;
mod names;
mod patterns;
mod set;
mod terms;
mod types;

pub use closing::{mark_at, needed};
pub use fault::NeedFault;

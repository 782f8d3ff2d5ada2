//! Packets accepted into an environment, or the first cause of refusal.
#![tactic(auto)]

mod admitting;
mod commit;
mod fault;
mod judging;
mod spoken;

pub use admitting::{Admitted, admit};
pub use fault::AdmitFault;

//! Whether the definitions of a packet are well formed by themselves.
//!
//! The definitions of a packet alone are an environment, each under its name; what is asked of a
//! definition is asked there. Types are gone through by recursion, the lists of a definition by
//! loops.
#![tactic(auto)]

mod back;
mod closed;
mod distinct;
mod fields;
mod formed;
mod known;
mod own;

pub use formed::ill_formed;
pub use known::are_known_among;
pub use own::alone;

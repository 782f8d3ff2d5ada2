//! Links: what an import may link to, and what its resolvespec gives. Nothing here takes memory.
#![tactic(auto)]

mod arrived;
mod fault;
mod link;
mod resolving;
mod signature;

pub use arrived::front;
pub use fault::{LinkFault, When};
pub use link::link_ok;
pub use resolving::{is_exact, resolve, resolve_with_front};

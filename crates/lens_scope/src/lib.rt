//! The names in sight at a place of a text, what stands behind a module's name and a dot, and what
//! is said of a name that isn't in scope: whose it is, and which names are nearest.
#![tactic(auto)]

mod aliases;
mod ground;
mod habits;
mod members;
mod near;
mod unbound;
mod variables;

pub use ground::Ground;
pub use members::Members;
pub use near::nearest;
pub use unbound::why_unbound;

//! Machine values: an append-only store of nodes, and lists that share their tails.
#![tactic(auto)]

mod chain;
mod node;
pub mod read;
mod store;

pub use chain::SharedLists;
pub use node::{Node, Value};
pub use store::Store;

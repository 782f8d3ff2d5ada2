//! How messages are written: what is said of a refused text, its line with a caret, and types, told
//! apart by the definitions that they are of.
#![tactic(auto)]

mod excerpt;
mod facts;
mod message;
mod owners;
mod types;

pub use excerpt::{name_at, write_excerpt, write_place};
pub use facts::{write_fact, write_name, write_two};
pub use message::Message;
pub use owners::{Owners, external, write_definition};
pub use types::write_type_with_owner;

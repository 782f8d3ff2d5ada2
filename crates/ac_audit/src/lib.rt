//! What a program, before anything has arrived, says of strings: whether it takes each at a type that
//! a text writes.
#![tactic(auto)]

mod apart;
mod audit;
pub mod laws;
mod pieces;
mod scope;
mod texts;
mod tree;
mod verdict;

pub use audit::audit_all;
pub use scope::elaborate_type;
pub use texts::load_type;
pub use verdict::{AuditVerdict, frame_verdict, packet_verdict};

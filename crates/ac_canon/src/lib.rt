//! The spellings of types, terms and definitions.
//!
//! What is put is the same whatever spells types and references: how they are spelled is a
//! parameter, `Spelling`. `ByName` is that of canonical texts, and `ByNumber` that of packets. A
//! term, a type and a pattern are gone through by recursion, whose depth is their height; the parts
//! of a list by a loop.
#![tactic(auto)]

mod counts;
mod defs;
mod packets;
mod patterns;
mod sigs;
mod spelling;
mod terms;
mod types;
mod values;

pub use counts::{put_count_u8, put_count_u16, put_count_u32};
pub use defs::{def_text, has_text, put_import, put_module, told_name};
pub use packets::{ByNumber, put_resolves};
pub use spelling::{ByName, Spelling};
pub use terms::{put_term, put_value, term_bytes};
pub use types::{put_type, type_bytes};

//! What is asked of modules and imports: fields that compute nothing, signatures that their
//! structs cover, and likespecs.
#![tactic(auto)]

mod cover;
mod fields;
mod likes;
mod lookups;

pub use cover::covers;
pub use fields::valuable;
pub use likes::like_missing;

//! Numbers in bytes, the highest byte first: taken from the front of bytes, and put at the end of a
//! text.
#![tactic(auto)]

mod cursor;
pub mod laws;
mod numbers;
mod out;

pub use cursor::Cursor;
pub use out::Out;

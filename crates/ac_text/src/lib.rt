//! Texts that are written: string literals, numbers, a page that grows, and the line and the column
//! of a byte.
#![tactic(auto)]

mod literal;
mod number;
mod page;
mod place;

pub use literal::put_literal;
pub use number::{put_integer, put_number};
pub use page::Page;
pub use place::{LineColumn, place_behind};

//! Why the entries of a part are refused, once their names are in scope: they are linked, and then
//! looked at for the first cause that applies.
#![tactic(auto)]

mod asked;
mod clashes;
mod fault;
mod links;
mod names;
mod part;
mod typed;

pub use fault::PartFault;
pub use links::linked;
pub use part::part_type;

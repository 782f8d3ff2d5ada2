//! The type of a term, exactly where the rules of typing give one, and whether a packed value is of
//! a type.
#![tactic(auto)]

mod checking;
mod fault;
mod functions;
mod heads;
mod holding;

pub use checking::{check_value, type_of};
pub use fault::CheckFault;
pub use functions::{may_travel, travels_with};

//! Types as a home sees them: what is known of their names, what they look like from there, what an
//! own field and a reference have as type, and what a type is at the top.
#![tactic(auto)]

mod fields;
mod heads;
mod known;
mod opened;
mod outside;
mod seen;
mod site;
mod sizes;
mod types;

pub use fields::{field_at, field_type, ref_type, type_shown};
pub use heads::head;
pub use known::are_known;
pub use seen::{is_seen_as, is_view_of, seen_type};
pub use site::Site;
pub use types::{Base, ends, is_base, kept, list_item, option_item, small_copy, tuple_parts};

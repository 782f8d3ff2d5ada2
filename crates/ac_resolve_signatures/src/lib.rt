//! What is wrong with types and signatures for their names and counts, and what is known of a scope
//! where they stand: of the types in it their sizes alone.
#![tactic(auto)]

mod abbrevs;
mod calls;
mod flaws;
mod front;
mod known;
mod least;
mod lists;
mod named;
mod outside;
mod pick;
mod sigs;
mod size;
mod standard;
mod types;

pub use abbrevs::walk_abbrev;
pub use calls::{dotted_flaws, name_flaws};
pub use flaws::Flaws;
pub use front::entries_in_front;
pub use known::Scan;
pub use lists::list_flaws;
pub use named::{Named, repeated_name};
pub use outside::{Externals, Outside, outside_of, put_outside};
pub use pick::{Pick, picked_names};
pub use sigs::{Shown, shown_sig};
pub use types::type_flaws;

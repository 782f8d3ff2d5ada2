//! The heads of parts, written one after the other: the bytes of what is marshalled, up to the
//! first part that fails.
#![tactic(auto)]

mod heads;
mod stop;
mod stops;

pub use heads::{
    count_head, few_head, int_head, long_head, named_head, short_head, string_head, truth_head,
    write_head,
};
pub use stop::Stop;
pub use stops::{deeper, lost, stays};

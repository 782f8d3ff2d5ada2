//! A pipe: a child is started as a sender, and a program is run on the frames that it gives.
#![tactic(auto)]

mod draining;
mod end;
mod piping;
mod receiving;

pub use end::PipeEnd;
pub use piping::pipe;

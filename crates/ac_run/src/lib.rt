//! The run of a program: its code on the machine, in a world.
#![tactic(auto)]

mod crossing;
mod driver;
mod end;
mod inbox;
mod journal;
mod session;

pub use crossing::Crossing;
pub use end::RunEnd;
pub use session::Session;

//! Channels that are read whole: the strings of all their frames, or the first frame that is refused.
#![tactic(auto)]

mod laws;
mod reading;

pub use laws::{channel_is, front_tells};
pub use reading::{ChannelFault, LONGEST_CHANNEL, MOST_FRAMES, read_channel};

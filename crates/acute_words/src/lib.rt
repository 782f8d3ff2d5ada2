//! The command that the words of a command line give, by the rules on words.
#![tactic(auto)]

mod arguments;
mod command;
mod from_values;
mod kinds;
mod matching;
mod reader;
mod values;
mod words;

pub use command::{Audit, Chain, Channel, Check, Command, Make, Pipe, Program, Run};
pub use reader::read_words;

// Which calls of what a command is handed are to fail.

use ac_types::{Many, Memory};
use std::alloc::Global;

/// What the calls that are to fail are calls of.
#[derive(Clone, Copy, Debug, PartialEq, Eq)]
pub enum Place {
    /// Reads of standard input.
    Input,
    /// Reads of files.
    Reads,
    /// Creates and appends of files.
    Writes,
    /// Writes on output.
    Output,
    /// Writes on errors.
    Errors,
    /// Starts of children.
    Starts,
    /// Reads of what a child gives, and waits for its end.
    Child,
}

/// The place of that word.
pub fn place_of(word: &str) -> Option<Place> {
    match word {
        "input" => Some(Place::Input),
        "reads" => Some(Place::Reads),
        "writes" => Some(Place::Writes),
        "output" => Some(Place::Output),
        "errors" => Some(Place::Errors),
        "starts" => Some(Place::Starts),
        "child" => Some(Place::Child),
        _ => None,
    }
}

/// A call that is to fail: the one of this number, from 0, at this place.
#[derive(Clone, Copy)]
pub struct Fault {
    pub place: Place,
    pub number: u64,
}

/// The numbers of the faults at this place.
pub fn numbers_at(alloc: Global, faults: &[Fault], place: Place) -> Result<Many<u64>, Memory> {
    let mut numbers = Many::new(alloc);
    for fault in faults {
        if fault.place == place {
            numbers.push(fault.number)?;
        }
    }
    Ok(numbers)
}

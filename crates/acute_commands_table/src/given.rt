// What a call is given beside its files.

ghost use Rattle.std.specs.Prelude.{◌≡◌, IfOk, false};

use crate::faults::{Fault, Place, numbers_at};
use ac_outside::MemorySource;
use ac_spawn::MemorySpawner;
use ac_types::{Memory, Text, both};
use std::alloc::Global;

/// What a call gets on standard input, what a child would give it and with which status that would
/// end, and which of its calls are to fail.
#[derive(Drop)]
pub struct Given {
    pub input: Text,
    pub child: Text,
    pub child_status: i32,
    pub faults: Vec<Fault>,
}

impl Given {
    /// No input, a child that gives nothing and ends with 0, and no faults.
    pub fn nothing(alloc: Global) -> Given {
        Given {
            input: Text::new(alloc),
            child: Text::new(alloc),
            child_status: 0,
            faults: Vec::new(alloc),
        }
    }

    /// The bytes on standard input, with their faults among these.
    pub fn source(&self, alloc: Global, faults: &[Fault]) -> Result<MemorySource, Memory> {
        let numbers = numbers_at(alloc, faults, Place::Input);
        let (bytes, numbers) = both(self.input.copy(alloc), numbers)?;
        Ok(MemorySource::new(bytes, numbers))
    }

    /// What starts the child, with its faults among these.
    pub fn spawner(&self, alloc: Global, faults: &[Fault]) -> Result<MemorySpawner, Memory>
        ensures { IfOk result (λ s. s.running ≡ false) }
    {
        let numbers = both(
            numbers_at(alloc, faults, Place::Starts),
            numbers_at(alloc, faults, Place::Child),
        );
        let (bytes, (starts, reads)) = both(self.child.copy(alloc), numbers)?;
        Ok(MemorySpawner::new(alloc, bytes, self.child_status, starts, reads))
    }
}

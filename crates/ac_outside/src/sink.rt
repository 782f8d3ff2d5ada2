// Sinks in memory.
ghost use Rattle.std.specs.Prelude.{◌≡◌, ◌≤◌, ◌↔◌, [], true, Contains};
ghost use Rattle.ac_outside.specs.Outside.{Rose, Wrote, risen};
ghost use Rattle.ac_outside.specs.Calls.{unused};

use crate::calls::Calls;
use crate::traits::{Put, Sink};
use ac_types::{Many, Text};
use std::alloc::Global;
use std::marker::Model;

/// A sink in memory, some of whose writes fail.
pub struct MemorySink {
    bytes: Text,
    writes: Calls,
}

impl Drop for MemorySink {
    fn drop(self) {
        let MemorySink {
            bytes: _,
            writes: _,
        } = self;
    }
}

impl Model for MemorySink {
    ghost use Rattle.ac_outside.specs.Kept.{Sunk};

    ghost Value = { Sunk };

    ghost view = { λ s. record { bytes = s.bytes.0; writes = s.writes } };
}

impl MemorySink {
    /// An empty sink whose writes of these numbers, from 0, fail. It takes no memory.
    pub fn new(alloc: Global, fail: Many<u64>) -> MemorySink
        ensures { result ≡ record { bytes = []; writes = unused fail } }
    {
        MemorySink {
            bytes: Text::new(alloc),
            writes: Calls::new(fail),
        }
    }

    /// The bytes written.
    pub fn bytes(&self) -> &Text
        ensures { result.now.0 ≡ self.now.bytes }
    {
        &self.bytes
    }
}

impl Sink for MemorySink {
    ghost told = { true };

    ghost written = { λ s. s.bytes };

    ghost faults = { λ s. s.writes.failed };

    /// `Failed` comes exactly for the writes that are to fail, which write nothing.
    fn write(&mut self, bytes: &[u8]) -> Put
        ensures bytes { Wrote result self.old.bytes self.new.bytes bytes.now }
        ensures cause { result ≡ Put.Failed → Rose self.old.writes.failed self.new.writes.failed }
        ensures later { self.old.writes.failed ≤ self.new.writes.failed }
        ensures fails { (result ≡ Put.Failed) ↔ Contains self.old.writes.fail self.old.writes.made }
        ensures made { self.new.writes.made ≡ risen self.old.writes.made }
        ensures planned { self.new.writes.fail ≡ self.old.writes.fail }
        ensures unchanged { result ≡ Put.Failed → self.new.bytes ≡ self.old.bytes }
    {
        if self.writes.next_fails() {
            self.writes.count_failed();
            return Put::Failed;
        }
        match self.bytes.extend(bytes) {
            Ok(()) => Put::Done,
            Err(_) => Put::Memory,
        }
    }
}

/// A sink in memory that never fails. Contracts see it as the bytes written.
#[derive(Drop)]
pub struct SureSink {
    bytes: Text,
}

impl Model for SureSink {
    ghost use Rattle.std.specs.Prelude.{List, ℕ};

    ghost Value = { List ℕ };

    ghost view = { λ s. s.bytes.0 };
}

impl SureSink {
    /// An empty sink. It takes no memory.
    pub fn new(alloc: Global) -> SureSink
        ensures { result ≡ [] }
    {
        SureSink {
            bytes: Text::new(alloc),
        }
    }

    /// The bytes written.
    pub fn bytes(&self) -> &Text
        ensures { result.now.0 ≡ self.now }
    {
        &self.bytes
    }
}

impl Sink for SureSink {
    ghost told = { true };

    ghost written = { λ s. s };

    ghost faults = { λ _. 0 };

    /// `Failed` never comes.
    fn write(&mut self, bytes: &[u8]) -> Put
        ensures bytes { Wrote result self.old self.new bytes.now }
        ensures cause { result ≡ Put.Failed → Rose 0 0 }
        ensures later { 0 ≤ 0 }
    {
        match self.bytes.extend(bytes) {
            Ok(()) => Put::Done,
            Err(_) => Put::Memory,
        }
    }
}

// Sources in memory.
ghost use Rattle.std.specs.Prelude.{◌≡◌, ◌≢◌, ◌≤◌, ◌<◌, ◌↔◌, ⊤, true, Contains, length};
ghost use Rattle.ac_outside.specs.Outside.{Rose, IsWithin, Takes, rest, risen};
ghost use Rattle.ac_outside.specs.Calls.{unused};

use crate::calls::Calls;
use crate::taking::take_from;
use crate::traits::{Got, Source};
use ac_types::{Many, Text};
use std::marker::Model;

/// A source in memory that never fails. Contracts see it as the bytes that are left.
#[derive(Drop)]
pub struct SureSource {
    bytes: Text,
    taken: u64,
}

impl Model for SureSource {
    ghost use Rattle.std.specs.Prelude.{List, ℕ, drop};

    ghost Value = { List ℕ };

    ghost view = { λ s. drop s.taken s.bytes.0 };
}

impl SureSource {
    /// A source of these bytes. It takes no memory.
    pub fn new(bytes: Text) -> SureSource
        ensures { result ≡ bytes.0 }
    {
        SureSource { bytes, taken: 0 }
    }
}

impl Source for SureSource {
    ghost told = { true };

    ghost left = { λ s. s };

    ghost read_faults = { λ _. 0 };

    ghost passes = { λ _ _. ⊤ };

    /// `Failed` never comes.
    fn read(&mut self, buf: &mut [u8]) -> Got
        requires { 0 < length buf.old }
        ensures bound { IsWithin result (length buf.new) }
        ensures bytes { Takes result self.old buf.new }
        ensures rest { self.new ≡ rest result self.old }
        ensures cause { result ≡ Got.Failed → Rose 0 0 }
        ensures later { 0 ≤ 0 }
        ensures sure { result ≢ Got.Failed }
    {
        let got = take_from(self.bytes.as_slice(), self.taken, buf);
        if let Got::Bytes(count) = got {
            self.taken += count as u64;
        }
        got
    }

    ghost passes_none = { λ _. tt };

    ghost passes_on = { λ _ _ _ _ _. tt };
}

/// A source in memory, some of whose reads fail.
pub struct MemorySource {
    source: SureSource,
    reads: Calls,
}

impl Drop for MemorySource {
    fn drop(self) {
        let MemorySource {
            source: _,
            reads: _,
        } = self;
    }
}

impl Model for MemorySource {
    ghost use Rattle.ac_outside.specs.Kept.{Fed};

    ghost Value = { Fed };

    ghost view = { λ s. record { left = s.source; reads = s.reads } };
}

impl MemorySource {
    /// A source of these bytes, whose reads of these numbers, from 0, fail. It takes no memory.
    pub fn new(bytes: Text, fail: Many<u64>) -> MemorySource
        ensures { result ≡ record { left = bytes.0; reads = unused fail } }
    {
        MemorySource {
            source: SureSource::new(bytes),
            reads: Calls::new(fail),
        }
    }
}

impl Source for MemorySource {
    ghost told = { true };

    ghost left = { λ s. s.left };

    ghost read_faults = { λ s. s.reads.failed };

    ghost passes = { λ _ _. ⊤ };

    /// `Failed` comes exactly for the reads that are to fail, which take nothing.
    fn read(&mut self, buf: &mut [u8]) -> Got
        requires { 0 < length buf.old }
        ensures bound { IsWithin result (length buf.new) }
        ensures bytes { Takes result self.old.left buf.new }
        ensures rest { self.new.left ≡ rest result self.old.left }
        ensures cause { result ≡ Got.Failed → Rose self.old.reads.failed self.new.reads.failed }
        ensures later { self.old.reads.failed ≤ self.new.reads.failed }
        ensures fails { (result ≡ Got.Failed) ↔ Contains self.old.reads.fail self.old.reads.made }
        ensures made { self.new.reads.made ≡ risen self.old.reads.made }
        ensures planned { self.new.reads.fail ≡ self.old.reads.fail }
        ensures unchanged { result ≡ Got.Failed → (self.new.left ≡ self.old.left) ×
            (buf.new ≡ buf.old) }
    {
        if self.reads.next_fails() {
            self.reads.count_failed();
            return Got::Failed;
        }
        self.source.read(buf)
    }

    ghost passes_none = { λ _. tt };

    ghost passes_on = { λ _ _ _ _ _. tt };
}

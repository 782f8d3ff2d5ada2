// Worlds in memory.
ghost use Rattle.std.specs.Prelude.{◌≡◌, ◌≢◌, ◌≤◌, ◌<◌, ◌↔◌, [], true, Contains, length, refl};
ghost use Rattle.std.proofs.Common.{◌∙◌};
ghost use native.Mathlib.Omega.{arith};
ghost use Rattle.ac_outside.specs.Outside.{Rose, IsWithin, Takes, rest, risen, Wrote};
ghost use Rattle.ac_outside.specs.Calls.{unused};
ghost use Rattle.ac_outside.specs.Frames.{IsFrame};

use crate::calls::Calls;
use crate::taking::take_from;
use crate::traits::{Got, Put, Source, World};
use ac_types::{Many, Text};
use std::alloc::Global;
use std::marker::Model;

/// A world in memory that never fails.
pub struct SureWorld {
    input: Text,
    taken: u64,
    console: Text,
    channel: Text,
}

impl Drop for SureWorld {
    fn drop(self) {
        let SureWorld {
            input: _,
            taken: _,
            console: _,
            channel: _,
        } = self;
    }
}

impl Model for SureWorld {
    ghost use Rattle.std.specs.Prelude.{drop};
    ghost use Rattle.ac_outside.specs.Kept.{Around};

    ghost Value = { Around };

    ghost view = { λ s. record {
      left = drop s.taken s.input.0;
      console = s.console.0;
      channel = s.channel.0;
    } };
}

impl SureWorld {
    /// A world with this input, in which nothing was printed or sent. It takes no memory.
    pub fn new(alloc: Global, input: Text) -> SureWorld
        ensures { result ≡ record { left = input.0; console = []; channel = [] } }
    {
        SureWorld {
            input,
            taken: 0,
            console: Text::new(alloc),
            channel: Text::new(alloc),
        }
    }

    /// The bytes printed.
    pub fn console(&self) -> &Text
        ensures { result.now.0 ≡ self.now.console }
    {
        &self.console
    }

    /// The bytes sent.
    pub fn channel(&self) -> &Text
        ensures { result.now.0 ≡ self.now.channel }
    {
        &self.channel
    }
}

impl Source for SureWorld {
    ghost told = { true };

    ghost left = { λ s. s.left };

    ghost read_faults = { λ _. 0 };

    ghost passes = { λ a b. (b.console ≡ a.console) × (b.channel ≡ a.channel) };

    /// `Failed` never comes.
    fn read(&mut self, buf: &mut [u8]) -> Got
        requires { 0 < length buf.old }
        ensures bound { IsWithin result (length buf.new) }
        ensures bytes { Takes result self.old.left buf.new }
        ensures rest { self.new.left ≡ rest result self.old.left }
        ensures cause { result ≡ Got.Failed → Rose 0 0 }
        ensures later { 0 ≤ 0 }
        ensures passes { (self.new.console ≡ self.old.console) ×
            (self.new.channel ≡ self.old.channel) }
        ensures sure { result ≢ Got.Failed }
    {
        let got = take_from(self.input.as_slice(), self.taken, buf);
        if let Got::Bytes(count) = got {
            self.taken += count as u64;
        }
        got
    }

    ghost passes_none = { λ _. (refl, refl) };

    ghost passes_on = { λ _ _ _ h k. (k.0 ∙ h.0, k.1 ∙ h.1) };
}

impl World for SureWorld {
    ghost console = { λ s. s.console };

    ghost channel = { λ s. s.channel };

    ghost write_faults = { λ _. 0 };

    ghost read_leaves = { λ _ _ same _. same };

    ghost read_keeps = { λ _ _ _. omega arith };

    /// `Failed` never comes.
    fn print(&mut self, bytes: &[u8]) -> Put
        ensures bytes { Wrote result self.old.console self.new.console bytes.now }
        ensures others { (self.new.left ≡ self.old.left) × (self.new.channel ≡ self.old.channel) }
        ensures cause { result ≡ Put.Failed → Rose 0 0 }
        ensures later { 0 ≤ 0 }
        ensures later_reads { 0 ≤ 0 }
        ensures sure { result ≢ Put.Failed }
    {
        added(&mut self.console, bytes)
    }

    /// `Failed` never comes.
    fn send(&mut self, bytes: &[u8]) -> Put
        requires { IsFrame bytes.now }
        ensures bytes { Wrote result self.old.channel self.new.channel bytes.now }
        ensures others { (self.new.left ≡ self.old.left) × (self.new.console ≡ self.old.console) }
        ensures cause { result ≡ Put.Failed → Rose 0 0 }
        ensures later { 0 ≤ 0 }
        ensures later_reads { 0 ≤ 0 }
        ensures sure { result ≢ Put.Failed }
    {
        added(&mut self.channel, bytes)
    }
}

// Adds bytes at the end of a text.
fn added(text: &mut Text, bytes: &[u8]) -> Put
    ensures bytes { Wrote result text.old.0 text.new.0 bytes.now }
    ensures sure { result ≢ Put.Failed }
{
    match text.extend(bytes) {
        Ok(()) => Put::Done,
        Err(_) => Put::Memory,
    }
}

/// A world in memory, some of whose calls fail.
pub struct MemoryWorld {
    world: SureWorld,
    reads: Calls,
    writes: Calls,
}

impl Drop for MemoryWorld {
    fn drop(self) {
        let MemoryWorld {
            world: _,
            reads: _,
            writes: _,
        } = self;
    }
}

impl Model for MemoryWorld {
    ghost use Rattle.ac_outside.specs.Kept.{Faulty};

    ghost Value = { Faulty };

    ghost view = { λ s. record { world = s.world; reads = s.reads; writes = s.writes } };
}

impl MemoryWorld {
    /// A world with this input, whose reads of these numbers, from 0, fail, and whose prints and
    /// sends of those, counted together. It takes no memory.
    pub fn new(
        alloc: Global,
        input: Text,
        fail_reads: Many<u64>,
        fail_writes: Many<u64>,
    ) -> MemoryWorld
        ensures { result ≡ record {
          world = record { left = input.0; console = []; channel = [] };
          reads = unused fail_reads;
          writes = unused fail_writes;
        } }
    {
        MemoryWorld {
            world: SureWorld::new(alloc, input),
            reads: Calls::new(fail_reads),
            writes: Calls::new(fail_writes),
        }
    }

    /// The bytes printed.
    pub fn console(&self) -> &Text
        ensures { result.now.0 ≡ self.now.world.console }
    {
        self.world.console()
    }

    /// The bytes sent.
    pub fn channel(&self) -> &Text
        ensures { result.now.0 ≡ self.now.world.channel }
    {
        self.world.channel()
    }
}

impl Source for MemoryWorld {
    ghost told = { true };

    ghost left = { λ s. s.world.left };

    ghost read_faults = { λ s. s.reads.failed };

    ghost passes = { λ a b. (b.world.console ≡ a.world.console) ×
        (b.world.channel ≡ a.world.channel) × (b.writes ≡ a.writes) };

    /// `Failed` comes exactly for the reads that are to fail, which take nothing.
    fn read(&mut self, buf: &mut [u8]) -> Got
        requires { 0 < length buf.old }
        ensures bound { IsWithin result (length buf.new) }
        ensures bytes { Takes result self.old.world.left buf.new }
        ensures rest { self.new.world.left ≡ rest result self.old.world.left }
        ensures cause { result ≡ Got.Failed → Rose self.old.reads.failed self.new.reads.failed }
        ensures later { self.old.reads.failed ≤ self.new.reads.failed }
        ensures passes { (self.new.world.console ≡ self.old.world.console) ×
            (self.new.world.channel ≡ self.old.world.channel) ×
            (self.new.writes ≡ self.old.writes) }
        ensures fails { (result ≡ Got.Failed) ↔ Contains self.old.reads.fail self.old.reads.made }
        ensures made { self.new.reads.made ≡ risen self.old.reads.made }
        ensures planned { self.new.reads.fail ≡ self.old.reads.fail }
        ensures unchanged { result ≡ Got.Failed →
            (self.new.world ≡ self.old.world) × (buf.new ≡ buf.old) }
    {
        if self.reads.next_fails() {
            self.reads.count_failed();
            return Got::Failed;
        }
        self.world.read(buf)
    }

    ghost passes_none = { λ _. (refl, refl, refl) };

    ghost passes_on = { λ _ _ _ h k. (k.0 ∙ h.0, k.1 ∙ h.1, k.2 ∙ h.2) };
}

impl World for MemoryWorld {
    ghost console = { λ s. s.world.console };

    ghost channel = { λ s. s.world.channel };

    ghost write_faults = { λ s. s.writes.failed };

    ghost read_leaves = { λ _ _ same _. (same.0, same.1) };

    ghost read_keeps = { λ a _ same. let h : a.writes.failed ≤ a.writes.failed = omega arith in rw
        same.2 h };

    /// `Failed` comes exactly for the prints that are to fail, which print nothing.
    fn print(&mut self, bytes: &[u8]) -> Put
        ensures bytes { Wrote result self.old.world.console self.new.world.console bytes.now }
        ensures others { (self.new.world.left ≡ self.old.world.left) ×
            (self.new.world.channel ≡ self.old.world.channel) }
        ensures cause { result ≡ Put.Failed → Rose self.old.writes.failed self.new.writes.failed }
        ensures later { self.old.writes.failed ≤ self.new.writes.failed }
        ensures later_reads { self.old.reads.failed ≤ self.new.reads.failed }
        ensures fails { (result ≡ Put.Failed) ↔ Contains self.old.writes.fail self.old.writes.made }
        ensures made { self.new.writes.made ≡ risen self.old.writes.made }
        ensures planned { self.new.writes.fail ≡ self.old.writes.fail }
        ensures reads { self.new.reads ≡ self.old.reads }
        ensures unchanged { result ≡ Put.Failed → self.new.world ≡ self.old.world }
    {
        if self.writes.next_fails() {
            self.writes.count_failed();
            return Put::Failed;
        }
        self.world.print(bytes)
    }

    /// `Failed` comes exactly for the sends that are to fail, which send nothing.
    fn send(&mut self, bytes: &[u8]) -> Put
        requires { IsFrame bytes.now }
        ensures bytes { Wrote result self.old.world.channel self.new.world.channel bytes.now }
        ensures others { (self.new.world.left ≡ self.old.world.left) ×
            (self.new.world.console ≡ self.old.world.console) }
        ensures cause { result ≡ Put.Failed → Rose self.old.writes.failed self.new.writes.failed }
        ensures later { self.old.writes.failed ≤ self.new.writes.failed }
        ensures later_reads { self.old.reads.failed ≤ self.new.reads.failed }
        ensures fails { (result ≡ Put.Failed) ↔ Contains self.old.writes.fail self.old.writes.made }
        ensures made { self.new.writes.made ≡ risen self.old.writes.made }
        ensures planned { self.new.writes.fail ≡ self.old.writes.fail }
        ensures reads { self.new.reads ≡ self.old.reads }
        ensures unchanged { result ≡ Put.Failed → self.new.world ≡ self.old.world }
    {
        if self.writes.next_fails() {
            self.writes.count_failed();
            return Put::Failed;
        }
        self.world.send(bytes)
    }
}

// A child in memory.
ghost use Rattle.std.specs.Prelude.{◌≡◌, ◌≤◌, ◌<◌, ◌↔◌, [], true, false, Contains, IfOk, length, map, string_bytes};
ghost use Rattle.ac_outside.specs.Calls.{unused};
ghost use Rattle.ac_outside.specs.Outside.{Rose, IsWithin, Takes, rest, risen};
ghost use Rattle.ac_spawn.specs.Children.{is_done, with_start, EndsWith};

use crate::spawner::{Ended, Spawner};
use ac_outside::{Calls, Got, Put, Source, SureSource};
use ac_types::{Many, Memory, Text};
use std::alloc::Global;
use std::marker::Model;

/// What starts a child in memory, some of whose calls fail.
pub struct MemorySpawner {
    alloc: Global,
    output: SureSource,
    status: i32,
    running: bool,
    started: Many<Many<String>>,
    starts: Calls,
    reads: Calls,
}

impl Drop for MemorySpawner {
    fn drop(self) {
        let MemorySpawner {
            alloc: _,
            output: _,
            status: _,
            running: _,
            started: _,
            starts: _,
            reads: _,
        } = self;
    }
}

impl Model for MemorySpawner {
    ghost use Rattle.std.specs.Prelude.{map, string_bytes};
    ghost use Rattle.ac_spawn.specs.Kept.{Spawned};

    ghost Value = { Spawned };

    ghost view = { λ s. record {
      running = s.running;
      started = map (map string_bytes) s.started;
      left = s.output;
      status = s.status;
      starts = s.starts;
      reads = s.reads;
    } };
}

impl MemorySpawner {
    /// Nothing was started. The child gives these bytes and ends with this status; the starts of
    /// these numbers, from 0, fail, and the reads and waits of those, counted together. It takes no
    /// memory.
    pub fn new(
        alloc: Global,
        child: Text,
        status: i32,
        fail_starts: Many<u64>,
        fail_reads: Many<u64>,
    ) -> MemorySpawner
        ensures { result ≡ record {
          running = false;
          started = [];
          left = child.0;
          status = status;
          starts = unused fail_starts;
          reads = unused fail_reads;
        } }
    {
        MemorySpawner {
            alloc,
            output: SureSource::new(child),
            status,
            running: false,
            started: Many::new(alloc),
            starts: Calls::new(fail_starts),
            reads: Calls::new(fail_reads),
        }
    }

    /// The words of each start that was done or failed, in their order.
    pub fn started(&self) -> &Many<Many<String>>
        ensures { map (map string_bytes) result.now ≡ self.now.started }
    {
        &self.started
    }
}

// Copies of words.
fn copies(alloc: Global, words: &[String]) -> Result<Many<String>, Memory>
    ensures { IfOk result (λ ws. map string_bytes ws ≡ map string_bytes words.now) }
{
    let mut all = Many::new(alloc);
    for word in words {
        all.push(word.clone()?)?;
    }
    Ok(all)
}

impl Spawner for MemorySpawner {
    ghost told = { true };

    ghost child = { λ s. record {
      running = s.running;
      started = s.started;
      left = s.left;
      status = s.status;
      start_faults = s.starts.failed;
      read_faults = s.reads.failed;
    } };

    /// `Failed` comes for the starts that are to fail alone.
    fn start(&mut self, words: &[String]) -> Put
        requires { self.old.running ≡ false }
        ensures running { self.new.running ≡ is_done result }
        ensures started { self.new.started ≡ with_start result (map string_bytes words.now)
            self.old.started }
        ensures left { self.new.left ≡ self.old.left }
        ensures status { self.new.status ≡ self.old.status }
        ensures cause { result ≡ Put.Failed → Rose self.old.starts.failed self.new.starts.failed }
        ensures later { self.old.starts.failed ≤ self.new.starts.failed }
        ensures later_reads { self.old.reads.failed ≤ self.new.reads.failed }
        ensures fails { result ≡ Put.Failed → Contains self.old.starts.fail self.old.starts.made }
        ensures done { result ≡ Put.Done → Contains self.old.starts.fail self.old.starts.made → ⊥ }
        ensures planned { self.new.starts.fail ≡ self.old.starts.fail }
        ensures reads { self.new.reads ≡ self.old.reads }
    {
        let Ok(copy) = copies(self.alloc, words) else {
            return Put::Memory;
        };
        if self.started.push(copy).is_err() {
            return Put::Memory;
        }
        if self.starts.next_fails() {
            self.starts.count_failed();
            return Put::Failed;
        }
        self.running = true;
        Put::Done
    }

    /// `Failed` comes exactly for the reads that are to fail, which take nothing.
    fn read(&mut self, buf: &mut [u8]) -> Got
        requires running { self.old.running ≡ true }
        requires room { 0 < length buf.old }
        ensures running { self.new.running ≡ true }
        ensures bound { IsWithin result (length buf.new) }
        ensures bytes { Takes result self.old.left buf.new }
        ensures rest { self.new.left ≡ rest result self.old.left }
        ensures started { self.new.started ≡ self.old.started }
        ensures status { self.new.status ≡ self.old.status }
        ensures cause { result ≡ Got.Failed → Rose self.old.reads.failed self.new.reads.failed }
        ensures later { self.old.starts.failed ≤ self.new.starts.failed }
        ensures later_reads { self.old.reads.failed ≤ self.new.reads.failed }
        ensures fails { (result ≡ Got.Failed) ↔ Contains self.old.reads.fail self.old.reads.made }
        ensures made { self.new.reads.made ≡ risen self.old.reads.made }
        ensures planned { self.new.reads.fail ≡ self.old.reads.fail }
        ensures starts { self.new.starts ≡ self.old.starts }
    {
        if self.reads.next_fails() {
            self.reads.count_failed();
            return Got::Failed;
        }
        self.output.read(buf)
    }

    /// `Failed` comes exactly for the waits that are to fail.
    fn finish(&mut self) -> Ended
        requires { self.old.running ≡ true }
        ensures running { self.new.running ≡ false }
        ensures ends { EndsWith result self.old.status }
        ensures left { self.new.left ≡ self.old.left }
        ensures started { self.new.started ≡ self.old.started }
        ensures status { self.new.status ≡ self.old.status }
        ensures cause { result ≡ Ended.Failed → Rose self.old.reads.failed self.new.reads.failed }
        ensures later { self.old.starts.failed ≤ self.new.starts.failed }
        ensures later_reads { self.old.reads.failed ≤ self.new.reads.failed }
        ensures fails { (result ≡ Ended.Failed) ↔ Contains self.old.reads.fail self.old.reads.made }
        ensures made { self.new.reads.made ≡ risen self.old.reads.made }
        ensures planned { self.new.reads.fail ≡ self.old.reads.fail }
        ensures starts { self.new.starts ≡ self.old.starts }
    {
        self.running = false;
        if self.reads.next_fails() {
            self.reads.count_failed();
            return Ended::Failed;
        }
        Ended::Status(self.status)
    }
}

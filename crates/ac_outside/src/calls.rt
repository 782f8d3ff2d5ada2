// Calls that are to fail.
ghost use Rattle.std.specs.Prelude.{◌≡◌, ◌≤◌, ◌↔◌, IsTrue, Contains};
ghost use Rattle.ac_outside.specs.Outside.{risen};
ghost use Rattle.ac_outside.specs.Calls.{unused};

use ac_types::Many;

/// Calls of one kind on an object in memory. Both counts stop at 2^64 - 1.
#[derive(Drop)]
pub struct Calls {
    /// The numbers of the calls that are to fail, from 0.
    pub fail: Many<u64>,
    /// How many calls were made.
    pub made: u64,
    /// How many calls failed.
    pub failed: u64,
}

impl Calls {
    /// No call was made.
    pub fn new(fail: Many<u64>) -> Calls
        ensures { result ≡ unused fail }
    {
        Calls {
            fail,
            made: 0,
            failed: 0,
        }
    }

    /// Counts a call, and says whether it is one that is to fail.
    pub fn next_fails(&mut self) -> bool
        ensures fails { IsTrue result ↔ Contains self.old.fail self.old.made }
        ensures fail { self.new.fail ≡ self.old.fail }
        ensures made { self.new.made ≡ risen self.old.made }
        ensures failed { self.new.failed ≡ self.old.failed }
    {
        let fails = self.fail.as_slice().contains(&self.made);
        self.made = self.made.saturating_add(1);
        fails
    }

    /// Counts a call that failed.
    pub fn count_failed(&mut self)
        ensures fail { self.new.fail ≡ self.old.fail }
        ensures made { self.new.made ≡ self.old.made }
        ensures failed { self.new.failed ≡ risen self.old.failed }
        ensures later { self.old.failed ≤ self.new.failed }
    {
        self.failed = self.failed.saturating_add(1);
    }
}

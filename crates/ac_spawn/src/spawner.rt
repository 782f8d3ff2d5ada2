// The trait of what starts child programs.
ghost use Rattle.std.specs.Prelude.{◌≡◌, ◌<◌, ◌≤◌, Bool, true, false, IsTrue, length, map, string_bytes};
ghost use Rattle.ac_outside.specs.Outside.{Rose, IsWithin, Takes, rest};
ghost use Rattle.ac_spawn.specs.Children.{Child, is_done, with_start, EndsWith};

use ac_outside::{Got, Put};

/// What the wait for a child answers.
#[derive(Clone, Copy, PartialEq, Eq)]
pub enum Ended {
    /// It has ended with this status.
    Status(i32),
    /// It has ended, and no status of it is known.
    Failed,
}

/// What starts child programs, one after another, reads what the child writes on its output, and
/// waits for its end. Whether a child runs is always told.
pub trait Spawner {
    /// Whether what was started, what the child gives and its status are told.
    ghost told: { Bool };

    /// The child, what was started, and the counts of faults. A count that stands at 2^64 - 1 stays
    /// there.
    ghost child: { Self → Child };

    /// Starts the program that the first word names, with the other words, where no child runs.
    fn start(&mut self, words: &[String]) -> Put
        requires { (child self.old).running ≡ false }
        ensures running { (child self.new).running ≡ is_done result }
        ensures started { IsTrue told → (child self.new).started ≡
            with_start result (map string_bytes words.now) (child self.old).started }
        ensures left { IsTrue told → (child self.new).left ≡ (child self.old).left }
        ensures status { IsTrue told → (child self.new).status ≡ (child self.old).status }
        ensures cause { result ≡ Put.Failed →
            Rose (child self.old).start_faults (child self.new).start_faults }
        ensures later { (child self.old).start_faults ≤ (child self.new).start_faults }
        ensures later_reads { (child self.old).read_faults ≤ (child self.new).read_faults };

    /// Takes bytes from what the child that runs gives. A read that answers `End` or `Failed` takes
    /// none.
    fn read(&mut self, buf: &mut [u8]) -> Got
        requires running { (child self.old).running ≡ true }
        requires room { 0 < length buf.old }
        ensures running { (child self.new).running ≡ true }
        ensures bound { IsWithin result (length buf.new) }
        ensures bytes { IsTrue told → Takes result (child self.old).left buf.new }
        ensures rest { IsTrue told → (child self.new).left ≡ rest result (child self.old).left }
        ensures started { IsTrue told → (child self.new).started ≡ (child self.old).started }
        ensures status { IsTrue told → (child self.new).status ≡ (child self.old).status }
        ensures cause { result ≡ Got.Failed →
            Rose (child self.old).read_faults (child self.new).read_faults }
        ensures later { (child self.old).start_faults ≤ (child self.new).start_faults }
        ensures later_reads { (child self.old).read_faults ≤ (child self.new).read_faults };

    /// Takes no more of what the child that runs gives, and waits for its end. Behind it no child
    /// runs, whatever it answers.
    fn finish(&mut self) -> Ended
        requires { (child self.old).running ≡ true }
        ensures running { (child self.new).running ≡ false }
        ensures ends { IsTrue told → EndsWith result (child self.old).status }
        ensures left { IsTrue told → (child self.new).left ≡ (child self.old).left }
        ensures started { IsTrue told → (child self.new).started ≡ (child self.old).started }
        ensures status { IsTrue told → (child self.new).status ≡ (child self.old).status }
        ensures cause { result ≡ Ended.Failed →
            Rose (child self.old).read_faults (child self.new).read_faults }
        ensures later { (child self.old).start_faults ≤ (child self.new).start_faults }
        ensures later_reads { (child self.old).read_faults ≤ (child self.new).read_faults };
}

// The traits of the outside, and what their calls answer.
ghost use Rattle.std.specs.Prelude.{◌≡◌, ◌<◌, ◌≤◌, ◌^◌, ℕ, List, Bool, IsTrue, length};
ghost use Rattle.ac_outside.specs.Outside.{Rose, Contents, NeverFall, IsWithin, Takes, rest, ReadsFrom, IsShort, Wrote, Created, Appended, OthersSame};
ghost use Rattle.ac_outside.specs.Frames.{IsFrame};

/// What a read answers.
#[derive(Clone, Copy, PartialEq, Eq)]
pub enum Got {
    /// So many bytes stand at the front of the buffer, at least one.
    Bytes(usize),
    /// No byte is left.
    End,
    /// The read failed, and took nothing.
    Failed,
}

/// What a write answers.
#[derive(Clone, Copy, PartialEq, Eq)]
pub enum Put {
    /// All of it was written.
    Done,
    /// The write failed: some front of the piece was written.
    Failed,
    /// Memory ran out: some front of the piece was written.
    Memory,
}

/// A place to write to.
pub trait Sink {
    /// Whether what is written is told.
    ghost told: { Bool };

    /// The bytes written so far.
    ghost written: { Self → List ℕ };

    /// How often a write has failed. A count that stands at 2^64 - 1 stays there.
    ghost faults: { Self → ℕ };

    /// Adds a piece at the end.
    fn write(&mut self, bytes: &[u8]) -> Put
        ensures bytes { IsTrue told → Wrote result (written self.old) (written self.new) bytes.now }
        ensures cause { result ≡ Put.Failed → Rose (faults self.old) (faults self.new) }
        ensures later { faults self.old ≤ faults self.new };
}

/// A place to read from.
pub trait Source {
    /// Whether what is left is told.
    ghost told: { Bool };

    /// The bytes that are left.
    ghost left: { Self → List ℕ };

    /// How often a read has failed. A count that stands at 2^64 - 1 stays there.
    ghost read_faults: { Self → ℕ };

    /// What holds of the object before a read and after it.
    ghost passes: { Self → Self → Type 0 };

    /// Takes bytes from the front. A read that answers `End` or `Failed` takes none.
    fn read(&mut self, buf: &mut [u8]) -> Got
        requires { 0 < length buf.old }
        ensures bound { IsWithin result (length buf.new) }
        ensures bytes { IsTrue told → Takes result (left self.old) buf.new }
        ensures rest { IsTrue told → left self.new ≡ rest result (left self.old) }
        ensures cause { result ≡ Got.Failed → Rose (read_faults self.old) (read_faults self.new) }
        ensures later { read_faults self.old ≤ read_faults self.new }
        ensures passes { passes self.old self.new };

    /// It holds where nothing is read.
    ghost passes_none: { (a : Self) → passes a a };

    /// It holds over several reads.
    ghost passes_on: { (a b c : Self) → passes a b → passes b c → passes a c };
}

/// What a program meets while it runs: its input, a console and a channel. It tells what they have,
/// or nothing.
pub trait World: Source {
    /// The bytes printed so far.
    ghost console: { Self → List ℕ };

    /// The bytes sent so far.
    ghost channel: { Self → List ℕ };

    /// How often a print or a send has failed. A count that stands at 2^64 - 1 stays there.
    ghost write_faults: { Self → ℕ };

    /// Adds the bytes of one print to the console.
    fn print(&mut self, bytes: &[u8]) -> Put
        ensures bytes { IsTrue Self.told → Wrote result (console self.old) (console self.new)
            bytes.now }
        ensures others { IsTrue Self.told → (Self.left self.new ≡ Self.left self.old) ×
            (channel self.new ≡ channel self.old) }
        ensures cause { result ≡ Put.Failed → Rose (write_faults self.old) (write_faults self.new) }
        ensures later { write_faults self.old ≤ write_faults self.new }
        ensures later_reads { Self.read_faults self.old ≤ Self.read_faults self.new };

    /// Adds one whole frame to the channel, its length among the bytes.
    fn send(&mut self, bytes: &[u8]) -> Put
        requires { IsFrame bytes.now }
        ensures bytes { IsTrue Self.told → Wrote result (channel self.old) (channel self.new)
            bytes.now }
        ensures others { IsTrue Self.told → (Self.left self.new ≡ Self.left self.old) ×
            (console self.new ≡ console self.old) }
        ensures cause { result ≡ Put.Failed → Rose (write_faults self.old) (write_faults self.new) }
        ensures later { write_faults self.old ≤ write_faults self.new }
        ensures later_reads { Self.read_faults self.old ≤ Self.read_faults self.new };

    /// A read leaves console and channel as they were.
    ghost read_leaves: { (a b : Self) → Self.Source.passes a b → IsTrue Self.Source.told →
        (console b ≡ console a) × (channel b ≡ channel a) };

    /// In a read no count of failed writes falls.
    ghost read_keeps: { (a b : Self) → Self.Source.passes a b → write_faults a ≤ write_faults b };
}

/// Files by name.
pub trait Files {
    /// Whether what the files have is told.
    ghost told: { Bool };

    /// The bytes of each name, `None` where there is no such file.
    ghost contents: { Self → Contents };

    /// How often a read of a name has failed.
    ghost read_faults: { Self → List ℕ → ℕ };

    /// How often a write of a name has failed.
    ghost write_faults: { Self → List ℕ → ℕ };

    /// What holds of the files before a read of a name and after it.
    ghost reads: { List ℕ → Self → Self → Type 0 };

    /// Reads from a place on, in bytes from 0. Each file keeps its bytes, fewer than 2^64, and the
    /// read of a missing one fails. A system has places below 2^63 alone, and fails at others.
    fn read(&mut self, name: &str, from: u64, buf: &mut [u8]) -> Got
        requires { 0 < length buf.old }
        ensures bound { IsWithin result (length buf.new) }
        ensures bytes { IsTrue told → ReadsFrom result (contents self.old name.now) from buf.new }
        ensures same { IsTrue told → contents self.new ≡ contents self.old }
        ensures short { IsTrue told → IsShort (contents self.old name.now) }
        ensures cause { result ≡ Got.Failed →
            Rose (read_faults self.old name.now) (read_faults self.new name.now) }
        ensures later { NeverFall (read_faults self.old) (read_faults self.new) }
        ensures later_writes { NeverFall (write_faults self.old) (write_faults self.new) }
        ensures reads { from < 2 ^ 63 → reads name.now self.old self.new };

    /// It holds where nothing is read.
    ghost reads_none: { (name : List ℕ) (a : Self) → reads name a a };

    /// It holds over several reads.
    ghost reads_on: { (name : List ℕ) (a b c : Self) → reads name a b → reads name b c →
        reads name a c };

    /// What holds of the files before a create or an append of a name and after it.
    ghost writes: { List ℕ → Self → Self → Type 0 };

    /// Makes a file empty.
    fn create(&mut self, name: &str) -> Put
        ensures bytes { IsTrue told → Created result (contents self.old name.now)
            (contents self.new name.now) }
        ensures others { IsTrue told → OthersSame name.now (contents self.old) (contents self.new) }
        ensures cause { result ≡ Put.Failed →
            Rose (write_faults self.old name.now) (write_faults self.new name.now) }
        ensures later { NeverFall (read_faults self.old) (read_faults self.new) }
        ensures later_writes { NeverFall (write_faults self.old) (write_faults self.new) }
        ensures writes { writes name.now self.old self.new };

    /// Adds bytes at the end of a file, which it makes first where it is missing.
    fn append(&mut self, name: &str, bytes: &[u8]) -> Put
        ensures bytes { IsTrue told → Appended result (contents self.old name.now)
            (contents self.new name.now) bytes.now }
        ensures others { IsTrue told → OthersSame name.now (contents self.old) (contents self.new) }
        ensures cause { result ≡ Put.Failed →
            Rose (write_faults self.old name.now) (write_faults self.new name.now) }
        ensures later { NeverFall (read_faults self.old) (read_faults self.new) }
        ensures later_writes { NeverFall (write_faults self.old) (write_faults self.new) }
        ensures writes { writes name.now self.old self.new };
}

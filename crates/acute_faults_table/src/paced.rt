// Devices in memory that give less in a read than is asked for.

ghost use Rattle.std.specs.Prelude.{◌≡◌, ◌<◌, ◌≤◌, ⊤, false, [], None, refl};
ghost use Rattle.std.proofs.Common.{◌∙◌};
ghost use native.Mathlib.Omega.{arith};

use ac_outside::{Files, Got, MemoryFiles, MemorySource, MemoryWorld, Put, Source, World};

/// How much a read gives.
#[derive(Clone, Copy)]
pub enum Pace {
    /// All that is asked for, as far as it is there.
    Whole,
    /// A byte.
    Byte,
    /// 1 to 7 bytes by turns.
    Turns,
}

impl Pace {
    /// Its word.
    pub fn word(self) -> &'static [u8] {
        match self {
            Pace::Whole => b"whole",
            Pace::Byte => b"a byte",
            Pace::Turns => b"by turns",
        }
    }

    // How many bytes the read of this number, from 0, gives at most.
    fn most(self, number: u64, asked: usize) -> usize
        requires { 0 < asked }
        ensures within { result ≤ asked }
        ensures some { 0 < result }
    {
        match self {
            Pace::Whole => asked,
            Pace::Byte => 1,
            Pace::Turns => asked.min((number % 7) as usize + 1),
        }
    }
}

/// A source with a pace.
pub struct PacedSource {
    pub source: MemorySource,
    pub pace: Pace,
    /// How many reads were made.
    pub made: u64,
}

impl Drop for PacedSource {
    fn drop(self) {
        let PacedSource {
            source: _,
            pace: _,
            made: _,
        } = self;
    }
}

impl Source for PacedSource {
    ghost told = { false };

    ghost left = { λ _. [] };

    ghost read_faults = { λ s. s.source.reads.failed };

    ghost passes = { λ _ _. ⊤ };

    fn read(&mut self, buf: &mut [u8]) -> Got {
        let most = self.pace.most(self.made, buf.len());
        self.made = self.made.saturating_add(1);
        self.source.read(&mut buf[..most])
    }

    ghost passes_none = { λ _. tt };

    ghost passes_on = { λ _ _ _ _ _. tt };
}

/// Files with a pace.
pub struct PacedFiles {
    pub files: MemoryFiles,
    pub pace: Pace,
    /// How many reads were made.
    pub made: u64,
}

impl Drop for PacedFiles {
    fn drop(self) {
        let PacedFiles {
            files: _,
            pace: _,
            made: _,
        } = self;
    }
}

impl Files for PacedFiles {
    ghost told = { false };

    ghost contents = { λ _ _. None };

    ghost read_faults = { λ s _. s.files.reads.failed };

    ghost write_faults = { λ s _. s.files.writes.failed };

    ghost reads = { λ _ _ _. ⊤ };

    fn read(&mut self, name: &str, from: u64, buf: &mut [u8]) -> Got {
        let most = self.pace.most(self.made, buf.len());
        self.made = self.made.saturating_add(1);
        self.files.read(name, from, &mut buf[..most])
    }

    ghost reads_none = { λ _ _. tt };

    ghost reads_on = { λ _ _ _ _ _ _. tt };

    ghost writes = { λ _ _ _. ⊤ };

    fn create(&mut self, name: &str) -> Put {
        self.files.create(name)
    }

    fn append(&mut self, name: &str, bytes: &[u8]) -> Put {
        self.files.append(name, bytes)
    }
}

/// A world with a pace.
pub struct PacedWorld {
    pub world: MemoryWorld,
    pub pace: Pace,
    /// How many reads were made.
    pub made: u64,
}

impl Drop for PacedWorld {
    fn drop(self) {
        let PacedWorld {
            world: _,
            pace: _,
            made: _,
        } = self;
    }
}

impl Source for PacedWorld {
    ghost told = { false };

    ghost left = { λ _. [] };

    ghost read_faults = { λ s. s.world.reads.failed };

    ghost passes = { λ a b. b.world.writes ≡ a.world.writes };

    fn read(&mut self, buf: &mut [u8]) -> Got {
        let most = self.pace.most(self.made, buf.len());
        self.made = self.made.saturating_add(1);
        self.world.read(&mut buf[..most])
    }

    ghost passes_none = { λ _. refl };

    ghost passes_on = { λ _ _ _ h k. k ∙ h };
}

impl World for PacedWorld {
    ghost console = { λ _. [] };

    ghost channel = { λ _. [] };

    ghost write_faults = { λ s. s.world.writes.failed };

    ghost read_leaves = { λ _ _ _ _. (refl, refl) };

    ghost read_keeps = { λ a _ same. let h : a.world.writes.failed ≤ a.world.writes.failed = omega
        arith in rw same h };

    fn print(&mut self, bytes: &[u8]) -> Put {
        self.world.print(bytes)
    }

    fn send(&mut self, bytes: &[u8]) -> Put {
        self.world.send(bytes)
    }
}

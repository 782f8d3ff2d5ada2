// The files of the system, which tell nothing of what they have.
ghost use Rattle.std.specs.Prelude.{◌≡◌, ◌≤◌, false, None, IfOk};
ghost use Rattle.ac_outside.specs.Outside.{Rose};

use crate::readers::Readers;
use crate::writers::Writers;
use ac_outside::{Files, Got, Put};
use ac_types::Memory;
use ac_types::limits::{LONGEST_SHELF_LIST, MOST_SHELF_ENTRIES};
use std::alloc::Global;
use std::fs::File;
use std::io;
use std::io::ErrorKind;
use std::marker::Model;

/// The files of the system, for one call of the program. Contracts see them as the numbers of reads,
/// and of creates and appends, that failed, each one count for all names.
///
/// A file is opened once for reading and once for writing. A pipe with a name is opened by the first
/// read or by the first bytes. A create or an append fails, and changes nothing, where the file is one
/// that the call reads, under whatever name, or one that another process writes so.
#[derive(Drop)]
pub struct RealFiles<'a, R> {
    rt: R,
    readers: Readers<'a>,
    writers: Writers,
    read_faults: u64,
    write_faults: u64,
}

impl<'a, R> Model for RealFiles<'a, R> {
    ghost use Rattle.std.specs.Prelude.{ℕ};

    ghost Value = { ℕ × ℕ };

    ghost view = { λ s. (s.read_faults, s.write_faults) };
}

impl<'a, R: std::rt::Files<File = File> + Drop> RealFiles<'a, R> {
    /// Nothing was read, and no call has failed. The words of the call say how much memory its reads
    /// take, which is taken here. `later` is the name of a file that is read after the first write.
    pub fn new(
        alloc: Global,
        rt: R,
        words: &[String],
        later: Option<&'a str>,
    ) -> Result<Self, Memory>
        ensures { IfOk result (λ files. files ≡ (0, 0)) }
    {
        // no word names the files of a shelf's modules: their names stand in its list
        let bytes = words.iter().fold(
            LONGEST_SHELF_LIST,
            |bytes, word| bytes.saturating_add(word.len()),
        );
        let files = words.len().saturating_add(MOST_SHELF_ENTRIES);
        Ok(RealFiles {
            rt,
            readers: Readers::new(alloc, files, bytes, later)?,
            writers: Writers::new(alloc),
            read_faults: 0,
            write_faults: 0,
        })
    }
}

impl<'a, R: std::rt::Files<File = File>> Files for RealFiles<'a, R> {
    ghost use Rattle.std.proofs.Common.{refl, ◌∙◌};

    ghost told = { false };

    ghost contents = { λ _ _. None };

    ghost read_faults = { λ s _. s.0 };

    ghost write_faults = { λ s _. s.1 };

    ghost reads = { λ _ a b. b.1 ≡ a.1 };

    fn read(&mut self, name: &str, from: u64, buf: &mut [u8]) -> Got {
        match self.readers.read(&self.rt, name, from, buf) {
            Ok(0) => Got::End,
            Ok(count) => Got::Bytes(count),
            Err(_) => {
                self.read_faults = self.read_faults.saturating_add(1);
                Got::Failed
            }
        }
    }

    ghost reads_none = { λ _ _. refl };

    ghost reads_on = { λ _ _ _ _ first second. second ∙ first };

    ghost writes = { λ _ a b. b.0 ≡ a.0 };

    fn create(&mut self, name: &str) -> Put {
        let made = self.writers.create(&self.rt, name, &self.readers);
        put(made, &mut self.write_faults)
    }

    fn append(&mut self, name: &str, bytes: &[u8]) -> Put {
        let added = self.writers.append(&self.rt, name, bytes, &self.readers);
        put(added, &mut self.write_faults)
    }
}

// What a write answers that came to this. A failed one is counted.
fn put(written: io::Result<()>, faults: &mut u64) -> Put
    ensures cause { result ≡ Put.Failed → Rose faults.old faults.new }
    ensures later { faults.old ≤ faults.new }
{
    match written {
        Ok(()) => Put::Done,
        Err(fault) if fault.kind() == ErrorKind::OutOfMemory => Put::Memory,
        Err(_) => {
            *faults = faults.saturating_add(1);
            Put::Failed
        }
    }
}

// Files in memory.
ghost use Rattle.std.specs.Prelude.{◌≡◌, ◌⊎◌, ◌<◌, ◌≤◌, ◌^◌, ◌↔◌, ◌++◌, [], true, None, IsTrue, MatchOption, IfSome, OnOk, OnErr, Contains, length};
ghost use Rattle.ac_outside.specs.Calls.{unused};
ghost use Rattle.ac_outside.specs.Kept.{file_contents};
ghost use Rattle.ac_outside.specs.Outside.{Rose, IsWithin, OthersSame, NeverFall, ReadsFrom, IsShort, Created, Appended, or_empty, risen};
ghost use Rattle.ac_outside.specs.inner.FilePlaces.{StandsAt};

use crate::calls::Calls;
use crate::taking::take_from;
use crate::traits::{Files, Got, Put};
use ac_types::{Many, Memory, Text};
use std::alloc::Global;
use std::marker::Model;

/// A file in memory.
pub struct MemoryFile {
    /// Its name.
    pub name: String,
    /// What it has.
    pub bytes: Text,
}

impl Drop for MemoryFile {
    fn drop(self) {
        let MemoryFile { name: _, bytes: _ } = self;
    }
}

/// Files in memory, of which the first of a name counts. They have one count of failed reads for
/// all names, and one of failed creates and appends.
pub struct MemoryFiles {
    alloc: Global,
    files: Vec<MemoryFile>,
    reads: Calls,
    writes: Calls,
}

impl Drop for MemoryFiles {
    fn drop(self) {
        let MemoryFiles {
            alloc: _,
            files: _,
            reads: _,
            writes: _,
        } = self;
    }
}

impl Model for MemoryFiles {
    ghost use Rattle.ac_outside.specs.Kept.{Filed};

    ghost Value = { Filed };

    ghost view = { λ s. record { files = s.files.items; reads = s.reads; writes = s.writes } };
}

impl MemoryFiles {
    /// These files, whose reads and writes of these numbers, from 0, fail. It takes no memory.
    pub fn new(
        alloc: Global,
        files: Many<MemoryFile>,
        fail_reads: Many<u64>,
        fail_writes: Many<u64>,
    ) -> MemoryFiles
        ensures { result ≡ record {
          files = files;
          reads = unused fail_reads;
          writes = unused
              fail_writes;
        } }
    {
        MemoryFiles {
            alloc,
            files: files.into_vec(),
            reads: Calls::new(fail_reads),
            writes: Calls::new(fail_writes),
        }
    }

    /// The bytes of a name, `None` exactly where there is no such file.
    pub fn bytes(&self, name: &str) -> Option<&Text>
        ensures { MatchOption result (file_contents self.now.files name.now ≡ None)
            (λ text. file_contents self.now.files name.now ≡ Some text.now.0) }
    {
        text_of(&self.files, name)
    }
}

fn text_of<'a>(files: &'a [MemoryFile], name: &str) -> Option<&'a Text>
    ensures short { IsShort (file_contents files.now name.now) }
    ensures text { MatchOption result (file_contents files.now name.now ≡ None)
        (λ text. file_contents files.now name.now ≡ Some text.now.0) }
{
    let at = place_of(files, name)?;
    let text = &files[at].bytes;
    // for the proof alone, to which it says that a text has fewer than 2^64 bytes
    let _len = text.as_slice().len();
    Some(text)
}

fn place_of(files: &[MemoryFile], name: &str) -> Option<usize>
    ensures within { IfSome result (λ at. at < length files.now) }
    ensures place { MatchOption result (file_contents files.now name.now ≡ None)
        (λ at. StandsAt files.now name.now at) }
{
    for (i, file) in files.iter().enumerate() {
        if file.name.as_str() == name {
            return Some(i);
        }
    }
    None
}

impl Files for MemoryFiles {
    ghost use Rattle.std.proofs.Common.{refl, ◌∙◌};

    ghost told = { true };

    ghost contents = { λ s. file_contents s.files };

    ghost read_faults = { λ s _. s.reads.failed };

    ghost write_faults = { λ s _. s.writes.failed };

    ghost reads = { λ _ a b. (b.files ≡ a.files) × (b.writes ≡ a.writes) };

    /// `Failed` comes exactly for the reads that are to fail, and for those of a missing file.
    fn read(&mut self, name: &str, from: u64, buf: &mut [u8]) -> Got
        requires { 0 < length buf.old }
        ensures bound { IsWithin result (length buf.new) }
        ensures bytes { ReadsFrom result (file_contents self.old.files name.now) from buf.new }
        ensures same { self.new.files ≡ self.old.files }
        ensures short { IsShort (file_contents self.old.files name.now) }
        ensures cause { result ≡ Got.Failed → Rose self.old.reads.failed self.new.reads.failed }
        ensures later { self.old.reads.failed ≤ self.new.reads.failed }
        ensures later_writes { self.old.writes.failed ≤ self.new.writes.failed }
        ensures fails { (result ≡ Got.Failed) ↔ (Contains self.old.reads.fail self.old.reads.made ⊎
            (file_contents self.old.files name.now ≡ None)) }
        ensures made { self.new.reads.made ≡ risen self.old.reads.made }
        ensures planned { self.new.reads.fail ≡ self.old.reads.fail }
        ensures reads { from < 2 ^ 63 → (self.new.files ≡ self.old.files) ×
            (self.new.writes ≡ self.old.writes) }
        ensures writes { self.new.writes ≡ self.old.writes }
        ensures unchanged { result ≡ Got.Failed → buf.new ≡ buf.old }
    {
        let found = text_of(&self.files, name);
        if !self.reads.next_fails()
            && let Some(text) = found
        {
            return take_from(text.as_slice(), from, buf);
        }
        self.reads.count_failed();
        Got::Failed
    }

    ghost reads_none = { λ _ _. (refl, refl) };

    ghost reads_on = { λ _ _ _ _ h k. (k.0 ∙ h.0, k.1 ∙ h.1) };

    ghost writes = { λ _ a b. b.reads ≡ a.reads };

    /// `Failed` comes exactly for the writes that are to fail, which change nothing.
    fn create(&mut self, name: &str) -> Put
        ensures bytes { Created result (file_contents self.old.files name.now)
            (file_contents self.new.files name.now) }
        ensures others { OthersSame name.now (file_contents self.old.files)
            (file_contents self.new.files) }
        ensures cause { result ≡ Put.Failed → Rose self.old.writes.failed self.new.writes.failed }
        ensures later { self.old.reads.failed ≤ self.new.reads.failed }
        ensures later_writes { self.old.writes.failed ≤ self.new.writes.failed }
        ensures fails { (result ≡ Put.Failed) ↔ Contains self.old.writes.fail self.old.writes.made }
        ensures made { self.new.writes.made ≡ risen self.old.writes.made }
        ensures planned { self.new.writes.fail ≡ self.old.writes.fail }
        ensures writes { self.new.reads ≡ self.old.reads }
        ensures unchanged { result ≡ Put.Failed → self.new.files ≡ self.old.files }
    {
        if self.writes.next_fails() {
            self.writes.count_failed();
            return Put::Failed;
        }
        match set(self.alloc, &mut self.files, name, &[]) {
            Ok(()) => Put::Done,
            Err(_) => Put::Memory,
        }
    }

    /// `Failed` comes exactly for the writes that are to fail, which change nothing.
    fn append(&mut self, name: &str, bytes: &[u8]) -> Put
        ensures bytes { Appended result (file_contents self.old.files name.now)
            (file_contents self.new.files name.now) bytes.now }
        ensures others { OthersSame name.now (file_contents self.old.files)
            (file_contents self.new.files) }
        ensures cause { result ≡ Put.Failed → Rose self.old.writes.failed self.new.writes.failed }
        ensures later { self.old.reads.failed ≤ self.new.reads.failed }
        ensures later_writes { self.old.writes.failed ≤ self.new.writes.failed }
        ensures fails { (result ≡ Put.Failed) ↔ Contains self.old.writes.fail self.old.writes.made }
        ensures made { self.new.writes.made ≡ risen self.old.writes.made }
        ensures planned { self.new.writes.fail ≡ self.old.writes.fail }
        ensures writes { self.new.reads ≡ self.old.reads }
        ensures unchanged { result ≡ Put.Failed → self.new.files ≡ self.old.files }
    {
        if self.writes.next_fails() {
            self.writes.count_failed();
            return Put::Failed;
        }
        match add(self.alloc, &mut self.files, name, bytes) {
            Ok(()) => Put::Done,
            Err(_) => Put::Memory,
        }
    }
}

// Gives a name these bytes, in the place of those that it has.
fn set(alloc: Global, files: &mut Vec<MemoryFile>, name: &str, bytes: &[u8]) -> Result<(), Memory>
    ensures ok { OnOk result (file_contents files.new.items name.now ≡ Some bytes.now) }
    ensures others { OthersSame name.now (file_contents files.old.items)
        (file_contents files.new.items) }
    ensures err { OnErr result (files.new.items ≡ files.old.items) }
{
    let text = Text::from_slice(alloc, bytes)?;
    match place_of(files, name) {
        Some(at) => files[at].bytes = text,
        None => {
            let name = String::from_str(alloc, name)?;
            files.push(MemoryFile { name, bytes: text })?;
        }
    }
    Ok(())
}

// Adds bytes at the end of what a name has.
fn add(alloc: Global, files: &mut Vec<MemoryFile>, name: &str, bytes: &[u8]) -> Result<(), Memory>
    ensures ok { OnOk result (file_contents files.new.items name.now ≡ Some
        (or_empty (file_contents files.old.items name.now) ++ bytes.now)) }
    ensures others { OthersSame name.now (file_contents files.old.items)
        (file_contents files.new.items) }
    ensures err { OnErr result (files.new.items ≡ files.old.items) }
{
    let mut text = Text::new(alloc);
    if let Some(old) = text_of(files, name) {
        text.extend(old.as_slice())?;
    }
    text.extend(bytes)?;
    set(alloc, files, name, text.as_slice())
}

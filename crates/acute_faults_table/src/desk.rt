// Files in memory and an input, with which each run begins.

use crate::faults::{Fault, Place, numbers_at};
use crate::paced::{Pace, PacedFiles, PacedSource};
use ac_outside::{MemoryFile, MemoryFiles, MemorySource};
use ac_types::{Many, Memory, Text, both};
use std::alloc::Global;

/// Files, whose last one may get more, and an input.
pub struct Desk {
    files: Vec<MemoryFile>,
    input: Text,
}

impl Drop for Desk {
    fn drop(self) {
        let Desk { files: _, input: _ } = self;
    }
}

impl Desk {
    /// Without files and without input.
    pub fn new(alloc: Global) -> Desk {
        Desk {
            files: Vec::new(alloc),
            input: Text::new(alloc),
        }
    }

    /// An empty file behind the others.
    pub fn begin(&mut self, alloc: Global, name: &str) -> Result<(), Memory> {
        let name = String::from_str(alloc, name)?;
        let bytes = Text::new(alloc);
        self.files.push(MemoryFile { name, bytes })?;
        Ok(())
    }

    /// Adds a line to the last file.
    pub fn add_line(&mut self, line: &str) -> Result<(), Memory> {
        if let Some(file) = self.files.last_mut() {
            file.bytes.extend(line.as_bytes())?;
            file.bytes.extend(b"\n")?;
        }
        Ok(())
    }

    /// Adds bytes to the last file. Words that are no digits add none.
    pub fn add_digits(&mut self, alloc: Global, digits: &str) -> Result<(), Memory> {
        let bytes = bytes_of(alloc, digits)?;
        if let Some(file) = self.files.last_mut() {
            file.bytes.extend(bytes.as_slice())?;
        }
        Ok(())
    }

    /// Each run behind this gets these bytes as its input.
    pub fn feed(&mut self, alloc: Global, digits: &str) -> Result<(), Memory> {
        self.input = bytes_of(alloc, digits)?;
        Ok(())
    }

    /// The files.
    pub fn files(&self) -> &[MemoryFile] {
        &self.files
    }

    /// The input.
    pub fn input(&self, alloc: Global) -> Result<Text, Memory> {
        self.input.copy(alloc)
    }

    /// A copy of the files with this pace, of which a read or a write may be to fail.
    pub fn paced_files(
        &self,
        alloc: Global,
        pace: Pace,
        fault: Option<Fault>,
    ) -> Result<PacedFiles, Memory> {
        let numbers = both(
            numbers_at(alloc, fault, Place::Reads),
            numbers_at(alloc, fault, Place::Writes),
        );
        let (files, (reads, writes)) = both(self.copies(alloc), numbers)?;
        Ok(PacedFiles {
            files: MemoryFiles::new(alloc, files, reads, writes),
            pace,
            made: 0,
        })
    }

    fn copies(&self, alloc: Global) -> Result<Many<MemoryFile>, Memory> {
        let mut copies = Many::new(alloc);
        for file in &self.files {
            let name = String::from_str(alloc, file.name.as_str())?;
            let bytes = file.bytes.copy(alloc)?;
            copies.push(MemoryFile { name, bytes })?;
        }
        Ok(copies)
    }

    /// The input with this pace, of which a read may be to fail.
    pub fn paced_input(
        &self,
        alloc: Global,
        pace: Pace,
        fault: Option<Fault>,
    ) -> Result<PacedSource, Memory> {
        let numbers = numbers_at(alloc, fault, Place::Input);
        let (input, numbers) = both(self.input(alloc), numbers)?;
        Ok(PacedSource {
            source: MemorySource::new(input, numbers),
            pace,
            made: 0,
        })
    }
}

// The bytes of digits, or none where they are no digits.
fn bytes_of(alloc: Global, digits: &str) -> Result<Text, Memory> {
    match hex::decode(alloc, digits) {
        Ok(bytes) => Text::from_slice(alloc, bytes.as_slice()),
        Err(_) => Ok(Text::new(alloc)),
    }
}

// Files in memory, and the calls over them.

use crate::call::{Left, call, put_status, put_stream, words_in};
use crate::faults::{Fault, Place, numbers_at};
use crate::fronts::{End, are_alike, end_of, has_fronts, is_front_file, is_same_file, put_if_new};
use crate::given::Given;
use ac_outside::{Files, MemoryFile, MemoryFiles, Put};
use ac_text::Page;
use ac_types::{Many, Memory, Text, both};
use std::alloc::Global;
use std::thread::Threads;

// No call makes so many of one kind.
const MOST: u64 = 10_000;

/// Files in memory, their names, the name of the one that is being written, and what the next call
/// is given beside them.
pub struct Desk {
    files: MemoryFiles,
    names: Vec<String>,
    open: String,
    given: Given,
}

impl Drop for Desk {
    fn drop(self) {
        let Desk {
            files: _,
            names: _,
            open: _,
            given: _,
        } = self;
    }
}

// What a call left, and the files behind it.
struct Outcome {
    left: Left,
    files: MemoryFiles,
}

impl Drop for Outcome {
    fn drop(self) {
        let Outcome { left: _, files: _ } = self;
    }
}

fn no_files(alloc: Global) -> MemoryFiles {
    MemoryFiles::new(alloc, Many::new(alloc), Many::new(alloc), Many::new(alloc))
}

impl Desk {
    /// Without files.
    pub fn new(alloc: Global) -> Desk {
        Desk {
            files: no_files(alloc),
            names: Vec::new(alloc),
            open: String::new(alloc),
            given: Given::nothing(alloc),
        }
    }

    /// A file of these bytes, to which lines may be added.
    pub fn begin(&mut self, alloc: Global, page: &mut Page, name: &str, bytes: &[u8]) {
        if self.files.bytes(name).is_none() {
            kept(page, self.add_name(alloc, name).is_ok());
        }
        noted(page, self.files.create(name));
        noted(page, self.files.append(name, bytes));
        match String::from_str(alloc, name) {
            Ok(open) => self.open = open,
            Err(_) => page.lose(),
        }
    }

    fn add_name(&mut self, alloc: Global, name: &str) -> Result<(), Memory> {
        self.names.push(String::from_str(alloc, name)?)?;
        Ok(())
    }

    /// Adds a line to the file that was begun last.
    pub fn add_line(&mut self, page: &mut Page, line: &str) {
        let open = self.open.as_str();
        noted(page, self.files.append(open, line.as_bytes()));
        noted(page, self.files.append(open, b"\n"));
    }

    /// The next call gets this on standard input.
    pub fn feed(&mut self, page: &mut Page, bytes: &[u8]) {
        kept(page, self.given.input.extend(bytes).is_ok());
    }

    /// A child of the next call ends with this status and gives these bytes.
    pub fn give(&mut self, page: &mut Page, status: i32, bytes: &[u8]) {
        self.given.child_status = status;
        kept(page, self.given.child.extend(bytes).is_ok());
    }

    /// In the next call this call fails, too.
    pub fn fail(&mut self, page: &mut Page, fault: Fault) {
        kept(page, self.given.faults.push(fault).is_ok());
    }

    /// A file's bytes.
    pub fn bytes(&self, name: &str) -> Option<&[u8]> {
        match self.files.bytes(name) {
            Some(text) => Some(text.as_slice()),
            None => None,
        }
    }

    /// Prints a file's bytes.
    pub fn show(&self, alloc: Global, page: &mut Page, name: &str) {
        let Some(bytes) = self.bytes(name) else {
            page.put(b"no such file\n");
            return;
        };
        match hex::encode(alloc, bytes) {
            Ok(digits) => {
                page.put(digits.as_bytes());
                page.put(b"\n");
            }
            Err(_) => page.lose(),
        }
    }

    /// Prints how many bytes a file has.
    pub fn measure(&self, page: &mut Page, name: &str) {
        let Some(bytes) = self.bytes(name) else {
            page.put(b"no such file\n");
            return;
        };
        page.number(bytes.len() as u64);
        page.put(b"\n");
    }

    /// Calls `acute`, and prints how it ended and what it wrote.
    pub fn call<R: Threads + Sync>(&mut self, rt: &R, alloc: Global, page: &mut Page, line: &str) {
        match self.answer(rt, alloc, line) {
            Ok(left) => {
                put_status(page, left.status);
                put_stream(page, b"output", left.output.as_slice());
                put_stream(page, b"errors", left.errors.as_slice());
                put_stream(page, b"started", left.started.as_slice());
            }
            Err(_) => page.lose(),
        }
        self.given = Given::nothing(alloc);
    }

    // What a call leaves.
    fn answer<R: Threads + Sync>(
        &mut self,
        rt: &R,
        alloc: Global,
        line: &str,
    ) -> Result<Left, Memory> {
        let words = words_in(alloc, line)?;
        let given = &self.given;
        call(rt, alloc, &words, &mut self.files, given, &given.faults)
    }

    /// Calls `acute` over copies of the files, with the first call of this place failing, then with
    /// the second, and so on, up to the end without a fault. Prints each way in which it ended, and
    /// where something stands that isn't a front of what it writes without a fault.
    pub fn try_each<R: Threads + Sync>(
        &mut self,
        rt: &R,
        alloc: Global,
        page: &mut Page,
        place: Place,
        line: &str,
    ) {
        if self.each(rt, alloc, page, place, line).is_err() {
            page.lose();
        }
        self.given = Given::nothing(alloc);
    }

    fn each<R: Threads + Sync>(
        &self,
        rt: &R,
        alloc: Global,
        page: &mut Page,
        place: Place,
        line: &str,
    ) -> Result<(), Memory> {
        let words = words_in(alloc, line)?;
        let whole = self.outcome(rt, alloc, &words, &self.given.faults)?;
        let mut last: Option<End> = None;
        for number in 0..MOST {
            let fault = Fault { place, number };
            let Some(end) = self.end(rt, alloc, page, &words, &whole, fault)? else {
                break;
            };
            put_if_new(page, last, end);
            last = Some(end);
        }
        Ok(())
    }

    // How a call with one fault more ends, `None` where it does all that the whole call does.
    fn end<R: Threads + Sync>(
        &self,
        rt: &R,
        alloc: Global,
        page: &mut Page,
        words: &[String],
        whole: &Outcome,
        fault: Fault,
    ) -> Result<Option<End>, Memory> {
        let faults = self.with_fault(alloc, fault)?;
        let one = self.outcome(rt, alloc, words, &faults)?;
        if self.is_same(&one, whole) {
            return Ok(None);
        }
        if !self.is_front(&one, whole) {
            page.put(b"no front\n");
        }
        Ok(Some(end_of(&one.left)))
    }

    // A call over copies of the files, with these faults.
    fn outcome<R: Threads + Sync>(
        &self,
        rt: &R,
        alloc: Global,
        words: &[String],
        faults: &[Fault],
    ) -> Result<Outcome, Memory> {
        let mut files = self.copy(alloc, faults)?;
        let left = call(rt, alloc, words, &mut files, &self.given, faults)?;
        Ok(Outcome { left, files })
    }

    fn is_same(&self, one: &Outcome, whole: &Outcome) -> bool {
        are_alike(&one.left, &whole.left) && self.are_same(&one.files, &whole.files)
    }

    fn is_front(&self, one: &Outcome, whole: &Outcome) -> bool {
        has_fronts(&one.left, &whole.left) && self.are_fronts(&one.files, &whole.files)
    }

    fn are_same(&self, files: &MemoryFiles, after: &MemoryFiles) -> bool {
        for name in self.names.as_slice() {
            if !is_same_file(name.as_str(), files, after) {
                return false;
            }
        }
        true
    }

    fn are_fronts(&self, files: &MemoryFiles, after: &MemoryFiles) -> bool {
        for name in self.names.as_slice() {
            if !is_front_file(name.as_str(), &self.files, files, after) {
                return false;
            }
        }
        true
    }

    fn with_fault(&self, alloc: Global, fault: Fault) -> Result<Vec<Fault>, Memory> {
        let mut faults = Vec::from_slice(alloc, self.given.faults.as_slice())?;
        faults.push(fault)?;
        Ok(faults)
    }

    // The files that were begun, with these faults.
    fn copy(&self, alloc: Global, faults: &[Fault]) -> Result<MemoryFiles, Memory> {
        let numbers = both(
            numbers_at(alloc, faults, Place::Reads),
            numbers_at(alloc, faults, Place::Writes),
        );
        let (files, (reads, writes)) = both(self.copies(alloc), numbers)?;
        Ok(MemoryFiles::new(alloc, files, reads, writes))
    }

    fn copies(&self, alloc: Global) -> Result<Many<MemoryFile>, Memory> {
        let mut files = Many::new(alloc);
        for name in self.names.as_slice() {
            if let Some(bytes) = self.bytes(name.as_str()) {
                files.push(file(alloc, name.as_str(), bytes)?)?;
            }
        }
        Ok(files)
    }
}

fn file(alloc: Global, name: &str, bytes: &[u8]) -> Result<MemoryFile, Memory> {
    let name = String::from_str(alloc, name)?;
    let bytes = Text::from_slice(alloc, bytes)?;
    Ok(MemoryFile { name, bytes })
}

fn kept(page: &mut Page, kept: bool) {
    if !kept {
        page.lose();
    }
}

// A write in memory fails for want of it alone.
fn noted(page: &mut Page, put: Put) {
    kept(page, put == Put::Done);
}

// Files in memory, and the calls over them.

use ac_outside::{Files, MemoryFiles, MemorySink, Put};
use ac_text::Page;
use ac_types::{Many, Memory};
use lens_top::{LensStatus, lens};
use std::alloc::Global;

/// Files in memory, and the name of the one that is being written.
pub struct Desk {
    files: MemoryFiles,
    open: String,
}

impl Drop for Desk {
    fn drop(self) {
        let Desk { files: _, open: _ } = self;
    }
}

// Notes whether a write was made.
fn noted(page: &mut Page, put: Put) {
    match put {
        Put::Done => {}
        Put::Failed | Put::Memory => page.lose(),
    }
}

fn words_in(alloc: Global, line: &str) -> Result<Vec<String>, Memory> {
    let mut words = Vec::new(alloc);
    for word in line.split(' ') {
        words.push(String::from_str(alloc, word)?)?;
    }
    Ok(words)
}

// Adds what a stream has, each line behind a `|`.
fn put_stream(page: &mut Page, what: &[u8], bytes: &[u8]) {
    if bytes.is_empty() {
        return;
    }
    page.put(what);
    page.put(b"\n");
    for line in bytes.split(|byte| *byte == b'\n') {
        page.put(b"|");
        page.put(line);
        page.put(b"\n");
    }
}

impl Desk {
    /// Without files.
    pub fn new(alloc: Global) -> Desk {
        Desk {
            files: MemoryFiles::new(alloc, Many::new(alloc), Many::new(alloc), Many::new(alloc)),
            open: String::new(alloc),
        }
    }

    /// A file of these bytes, to which lines may be added.
    pub fn begin(&mut self, alloc: Global, page: &mut Page, name: &str, bytes: &[u8]) {
        noted(page, self.files.create(name));
        noted(page, self.files.append(name, bytes));
        match String::from_str(alloc, name) {
            Ok(open) => self.open = open,
            Err(_) => page.lose(),
        }
    }

    /// Adds a line to the file that was begun last.
    pub fn add_line(&mut self, page: &mut Page, line: &str) {
        let open = self.open.as_str();
        noted(page, self.files.append(open, line.as_bytes()));
        noted(page, self.files.append(open, b"\n"));
    }

    /// Calls `lens`, and prints how it ended and what it wrote.
    pub fn call(&mut self, alloc: Global, page: &mut Page, line: &str) {
        let Ok(words) = words_in(alloc, line) else {
            page.lose();
            return;
        };
        let mut output = MemorySink::new(alloc, Many::new(alloc));
        let mut errors = MemorySink::new(alloc, Many::new(alloc));
        let LensStatus(status) = lens(alloc, &words, &mut self.files, &mut output, &mut errors);
        page.put(b"status ");
        page.number(u64::from(status));
        page.put(b"\n");
        put_stream(page, b"output", output.bytes().as_slice());
        put_stream(page, b"errors", errors.bytes().as_slice());
    }
}

// A call of `acute`, and what it left.

use crate::faults::{Fault, Place, numbers_at};
use crate::given::Given;
use ac_outside::{MemoryFiles, MemorySink, OpenGate};
use ac_text::Page;
use ac_types::{Many, Memory, Text, both};
use acute_top::{Status, acute};
use std::alloc::Global;
use std::thread::Threads;

/// How a call ended, what it wrote, and the words of each child that it started, a line each.
pub struct Left {
    pub status: u8,
    pub output: Text,
    pub errors: Text,
    pub started: Text,
}

impl Drop for Left {
    fn drop(self) {
        let Left {
            status: _,
            output: _,
            errors: _,
            started: _,
        } = self;
    }
}

/// Calls `acute` with these words over these files, with what it is given beside them and these
/// faults, of which those of files are the files' own.
pub fn call<R: Threads + Sync>(
    rt: &R,
    alloc: Global,
    words: &[String],
    files: &mut MemoryFiles,
    given: &Given,
    faults: &[Fault],
) -> Result<Left, Memory> {
    let sinks = both(
        sink(alloc, faults, Place::Output),
        sink(alloc, faults, Place::Errors),
    );
    let fed = both(given.source(alloc, faults), given.spawner(alloc, faults));
    let ((mut input, mut spawner), (mut output, mut errors)) = both(fed, sinks)?;
    let Status(status) = acute(
        rt,
        alloc,
        words,
        files,
        &mut input,
        &mut output,
        &mut errors,
        &mut spawner,
        &OpenGate,
    );
    let started = started_by(alloc, spawner.started());
    left_by(alloc, status, &output, &errors, started)
}

// The words of each start, a line each.
fn started_by(alloc: Global, starts: &Many<Many<String>>) -> Result<Text, Memory> {
    let mut lines = Text::new(alloc);
    for words in starts.as_slice() {
        for (i, word) in words.as_slice().iter().enumerate() {
            if 0 < i {
                lines.extend(b" ")?;
            }
            lines.extend(word.as_bytes())?;
        }
        lines.extend(b"\n")?;
    }
    Ok(lines)
}

// An empty stream, with the faults of this place.
fn sink(alloc: Global, faults: &[Fault], place: Place) -> Result<MemorySink, Memory> {
    Ok(MemorySink::new(alloc, numbers_at(alloc, faults, place)?))
}

fn left_by(
    alloc: Global,
    status: u8,
    output: &MemorySink,
    errors: &MemorySink,
    started: Result<Text, Memory>,
) -> Result<Left, Memory> {
    let written = both(output.bytes().copy(alloc), errors.bytes().copy(alloc));
    let ((output, errors), started) = both(written, started)?;
    Ok(Left {
        status,
        output,
        errors,
        started,
    })
}

/// The words of a line, which are parted by single spaces.
pub fn words_in(alloc: Global, line: &str) -> Result<Vec<String>, Memory> {
    let mut words = Vec::new(alloc);
    for word in line.split(' ') {
        words.push(String::from_str(alloc, word)?)?;
    }
    Ok(words)
}

/// Prints a status.
pub fn put_status(page: &mut Page, status: u8) {
    page.put(b"status ");
    page.number(u64::from(status));
    page.put(b"\n");
}

/// Prints what stands on a stream, if anything does.
pub fn put_stream(page: &mut Page, name: &[u8], bytes: &[u8]) {
    if bytes.is_empty() {
        return;
    }
    page.put(name);
    page.put(b" |");
    for byte in bytes {
        put_byte(page, *byte);
    }
    page.put(b"\n");
}

// A byte that isn't one of a text is shown by its digits.
fn put_byte(page: &mut Page, byte: u8) {
    let digits = b"0123456789abcdef".as_slice();
    match byte {
        b'\n' => page.put(b"\n|"),
        b'\t' | 32..=126 => page.put(&[byte]),
        _ => {
            let high = digits[usize::from(byte / 16)];
            let low = digits[usize::from(byte % 16)];
            page.put(&[b'\\', b'x', high, low]);
        }
    }
}

// Calls of `acute`.

ghost use Rattle.std.specs.Prelude.{◌≡◌, false};

use crate::desk::Desk;
use crate::faults::{Fault, Place, numbers_at};
use crate::outcome::{Outcome, text_on};
use crate::paced::Pace;
use ac_outside::{MemorySink, OpenGate};
use ac_spawn::MemorySpawner;
use ac_text::Page;
use ac_types::{Many, Memory, Text};
use acute_top::{Status, acute};
use std::alloc::Global;
use std::thread::Threads;

const READ_LINE: &[u8] = b"acute: read fault\n";

const WRITE_LINE: &[u8] = b"acute: write fault\n";

/// Calls `acute` with the words of a line over the desk, with this pace and this fault.
pub fn call<R: Threads + Sync>(
    rt: &R,
    alloc: Global,
    desk: &Desk,
    line: &str,
    pace: Pace,
    fault: Option<Fault>,
) -> Result<Outcome, Memory> {
    let words = words_of(alloc, line)?;
    let mut files = desk.paced_files(alloc, pace, fault)?;
    let mut input = desk.paced_input(alloc, pace, fault)?;
    let mut output = sink(alloc, fault, Place::Output)?;
    let mut errors = sink(alloc, fault, Place::Errors)?;
    let Status(status) = acute(
        rt,
        alloc,
        &words,
        &mut files,
        &mut input,
        &mut output,
        &mut errors,
        &mut no_child(alloc),
        &OpenGate,
    );
    let (front, last) = parted(errors.bytes().as_slice());
    let mut outcome = Outcome::new(alloc, end(alloc, status, last)?);
    outcome.add_stream(alloc, output.bytes().as_slice())?;
    outcome.add_stream(alloc, front)?;
    outcome.add_files(alloc, desk, &files)?;
    Ok(outcome)
}

fn words_of(alloc: Global, line: &str) -> Result<Vec<String>, Memory> {
    let mut words = Vec::new(alloc);
    for word in line.split(' ') {
        words.push(String::from_str(alloc, word)?)?;
    }
    Ok(words)
}

fn sink(alloc: Global, fault: Option<Fault>, place: Place) -> Result<MemorySink, Memory> {
    Ok(MemorySink::new(alloc, numbers_at(alloc, fault, place)?))
}

// A child that gives nothing. No line starts one.
fn no_child(alloc: Global) -> MemorySpawner
    ensures { result.running ≡ false }
{
    let nothing = Text::new(alloc);
    MemorySpawner::new(alloc, nothing, 0, Many::new(alloc), Many::new(alloc))
}

// What stands on errors in front of the line of a fault, and what that line says.
fn parted(errors: &[u8]) -> (&[u8], &'static [u8]) {
    if let Some(front) = errors.strip_suffix(READ_LINE) {
        return (front, b" read fault");
    }
    if let Some(front) = errors.strip_suffix(WRITE_LINE) {
        return (front, b" write fault");
    }
    (errors, b"")
}

fn end(alloc: Global, status: u8, last: &[u8]) -> Result<Text, Memory> {
    let mut page = Page::new(alloc);
    page.put(b"status ");
    page.number(u64::from(status));
    page.put(last);
    text_on(alloc, &page)
}

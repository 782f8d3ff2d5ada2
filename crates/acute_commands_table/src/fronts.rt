// Calls one after another in which one call more succeeds, against the call in which none fails.

use crate::call::{Left, put_status, put_stream};
use ac_outside::MemoryFiles;
use ac_text::Page;

const READ_LINE: &[u8] = b"acute: read fault\n";

const WRITE_LINE: &[u8] = b"acute: write fault\n";

/// How a call ended in which one call failed: its status, and the line of a fault that stands last
/// on errors, empty where none does.
#[derive(Clone, Copy)]
pub struct End {
    status: u8,
    line: &'static [u8],
}

// The line of a fault that stands last on errors, if one does, and what stands in front of it.
fn parted(errors: &[u8]) -> (&[u8], &'static [u8]) {
    if let Some(front) = errors.strip_suffix(READ_LINE) {
        return (front, READ_LINE);
    }
    if let Some(front) = errors.strip_suffix(WRITE_LINE) {
        return (front, WRITE_LINE);
    }
    (errors, b"")
}

/// Whether two calls ended alike, and wrote the same.
pub fn are_alike(left: &Left, whole: &Left) -> bool {
    left.status == whole.status
        && left.output.as_slice() == whole.output.as_slice()
        && left.errors.as_slice() == whole.errors.as_slice()
}

/// Whether each stream has a front of what it has after the whole call, on errors in front of the
/// line of a fault.
pub fn has_fronts(left: &Left, whole: &Left) -> bool {
    let (front, _) = parted(left.errors.as_slice());
    whole.output.as_slice().starts_with(left.output.as_slice())
        && whole.errors.as_slice().starts_with(front)
}

// The bytes of a file; of one that isn't there, none.
fn bytes_of<'a>(files: &'a MemoryFiles, name: &str) -> &'a [u8] {
    match files.bytes(name) {
        Some(text) => text.as_slice(),
        None => b"",
    }
}

/// Whether a file is as it was before, or has a front of what it has after the whole call.
pub fn is_front_file(
    name: &str,
    before: &MemoryFiles,
    now: &MemoryFiles,
    whole: &MemoryFiles,
) -> bool {
    let bytes = bytes_of(now, name);
    bytes == bytes_of(before, name) || bytes_of(whole, name).starts_with(bytes)
}

/// Whether a file is the same after both calls.
pub fn is_same_file(name: &str, now: &MemoryFiles, whole: &MemoryFiles) -> bool {
    bytes_of(now, name) == bytes_of(whole, name)
}

/// How a call ended in which one call failed.
pub fn end_of(left: &Left) -> End {
    let (_, line) = parted(left.errors.as_slice());
    End {
        status: left.status,
        line,
    }
}

/// Prints how a call ended, if the one before it ended otherwise.
pub fn put_if_new(page: &mut Page, last: Option<End>, end: End) {
    let is_new = match last {
        Some(last) => last.status != end.status || last.line != end.line,
        None => true,
    };
    if is_new {
        put_status(page, end.status);
        put_stream(page, b"errors", end.line);
    }
}

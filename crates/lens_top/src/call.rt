// A call of the program.

ghost use Rattle.std.specs.Prelude.{◌≤◌, length};
ghost use Rattle.ac_types.specs.Limits.{most_shelf_entries};
ghost use Rattle.ac_load_rules.specs.Accepting.{IsShelf};
ghost use Rattle.ac_load.specs.Loading.{shelf_of};

use crate::faults::{write_fault, write_unread};
use crate::files::{read_lines, read_one, shelf_of_list};
use crate::status::LensStatus;
use ac_outside::{Files, Put, Sink};
use ac_text::Page;
use ac_types::Memory;
use acute_files::TextsFault;
use lens_explain::{Beside, Form, Heading, TextVerdict, explain, put_page};
use lens_words::{Asked, Explain, asked_by};
use std::alloc::Global;

// Writes bytes, and gives the status that goes with it.
fn write<S: Sink>(sink: &mut S, bytes: &[u8], status: LensStatus) -> LensStatus {
    match sink.write(bytes) {
        Put::Done => status,
        Put::Failed => LensStatus::WRITE_FAULT,
        Put::Memory => LensStatus::OUT_OF_MEMORY,
    }
}

// Writes a page, or that memory ran out.
fn write_page<S: Sink>(sink: &mut S, page: &Page, status: LensStatus) -> LensStatus {
    match page.bytes() {
        Some(bytes) => write(sink, bytes, status),
        None => write(sink, b"lens: out of memory\n", LensStatus::OUT_OF_MEMORY),
    }
}

fn form_of(asked: &Explain<'_>) -> Form {
    if asked.json { Form::Json } else { Form::Lines }
}

// Adds what is said of a file, and gives the status.
fn explain_file<F: Files>(
    alloc: Global,
    files: &mut F,
    page: &mut Page,
    beside: &Beside<'_>,
    heading: Heading<'_>,
) -> Result<LensStatus, Memory>
    requires few { length beside.now.shelf.now.0 ≤ most_shelf_entries }
    requires shelved { IsShelf (shelf_of beside.now.shelf.now) }
{
    let text = match read_one(alloc, files, heading.file) {
        Ok(text) => text,
        Err(TextsFault::Memory) => return Err(Memory),
        Err(_) => {
            write_unread(page, heading);
            return Ok(LensStatus::READ_FAULT);
        }
    };
    let found = explain(alloc, beside, heading, text.as_slice())?;
    put_page(page, &found.page);
    match found.verdict {
        TextVerdict::Accepted | TextVerdict::AcceptedModule => Ok(LensStatus::DONE),
        TextVerdict::Refused => Ok(LensStatus::REFUSED),
    }
}

// Writes what is said of each file, and gives the greatest status.
fn explain_each<F: Files, S: Sink>(
    alloc: Global,
    files: &mut F,
    output: &mut S,
    beside: &Beside<'_>,
    asked: &Explain<'_>,
) -> LensStatus
    requires few { length beside.now.shelf.now.0 ≤ most_shelf_entries }
    requires shelved { IsShelf (shelf_of beside.now.shelf.now) }
{
    let mut status = LensStatus::DONE;
    for file in &asked.files {
        let mut page = Page::new(alloc);
        let heading = Heading {
            form: form_of(asked),
            file: *file,
        };
        let here = match explain_file(alloc, files, &mut page, beside, heading) {
            Ok(status) => status,
            Err(_) => {
                page.lose();
                LensStatus::OUT_OF_MEMORY
            }
        };
        status = status.and(write_page(output, &page, here));
    }
    status
}

// Writes what is said of each file beside a shelf.
fn explain_files<F: Files, S: Sink>(
    alloc: Global,
    files: &mut F,
    output: &mut S,
    asked: &Explain<'_>,
) -> LensStatus {
    let shelf = match shelf_of_list(alloc, files, asked.shelf) {
        Ok(shelf) => shelf,
        Err(fault) => {
            let mut page = Page::new(alloc);
            let list = Heading {
                form: form_of(asked),
                file: asked.shelf.unwrap_or(""),
            };
            let status = write_fault(alloc, files, &mut page, list, fault);
            return write_page(output, &page, status);
        }
    };
    match read_lines(alloc, files, asked.shelf) {
        Ok(lines) => {
            let beside = Beside {
                shelf: &shelf,
                lines: lines.as_slice(),
            };
            explain_each(alloc, files, output, &beside, asked)
        }
        Err(_) => write(output, b"lens: out of memory\n", LensStatus::OUT_OF_MEMORY),
    }
}

/// Does what the words behind the program's own name ask for.
pub fn lens<F: Files, O: Sink, E: Sink>(
    alloc: Global,
    words: &[String],
    files: &mut F,
    output: &mut O,
    errors: &mut E,
) -> LensStatus {
    match asked_by(alloc, words) {
        Ok(Asked::Explain(asked)) => explain_files(alloc, files, output, &asked),
        Ok(Asked::Print(text)) => write(output, text.as_bytes(), LensStatus::DONE),
        Ok(Asked::Refused(text)) => write(errors, text.as_bytes(), LensStatus::WORDS_REFUSED),
        Err(_) => write(errors, b"lens: out of memory\n", LensStatus::OUT_OF_MEMORY),
    }
}

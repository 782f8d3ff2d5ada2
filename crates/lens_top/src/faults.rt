// What is said where files can't be read.

use crate::files::{read_lines, read_one};
use crate::list::write_bad_line;
use crate::status::LensStatus;
use ac_outside::Files;
use ac_text::Page;
use acute_files::TextsFault;
use lens_explain::{Form, Heading, put_text_member};
use std::alloc::Global;

/// Adds that a file can't be read.
pub fn write_unread(page: &mut Page, heading: Heading<'_>) {
    match heading.form {
        Form::Lines => {
            page.put(heading.file.as_bytes());
            page.put(b": can't be read\n");
        }
        Form::Json => {
            page.put(b"{\"verdict\":\"unread\"");
            put_text_member(page, b"file", heading.file.as_bytes());
            page.put(b"}\n");
        }
    }
}

// Adds which file of a shelf can't be read: its list, or the first that the list names.
fn write_unread_of<F: Files>(alloc: Global, files: &mut F, page: &mut Page, list: Heading<'_>) {
    if read_one(alloc, files, list.file).is_err() {
        write_unread(page, list);
        return;
    }
    match read_lines(alloc, files, Some(list.file)) {
        Err(_) => page.lose(),
        Ok(lines) => {
            for line in lines.as_slice() {
                let file = line.file.as_str();
                if read_one(alloc, files, file).is_err() {
                    write_unread(page, Heading { file, ..list });
                    return;
                }
            }
            write_unread(page, list);
        }
    }
}

/// Adds why the texts of a shelf aren't read, and gives the status.
pub fn write_fault<F: Files>(
    alloc: Global,
    files: &mut F,
    page: &mut Page,
    list: Heading<'_>,
    fault: TextsFault,
) -> LensStatus {
    match fault {
        TextsFault::Line(number) => {
            match read_one(alloc, files, list.file) {
                Ok(text) => write_bad_line(page, list, text.as_slice(), number),
                Err(_) => page.lose(),
            }
            LensStatus::SHELF_REFUSED
        }
        TextsFault::Failed => {
            write_unread_of(alloc, files, page, list);
            LensStatus::READ_FAULT
        }
        TextsFault::Memory => {
            page.lose();
            LensStatus::OUT_OF_MEMORY
        }
    }
}

// What is said of an accepted text: its type, and its definitions.

use crate::heading::{Form, Heading};
use crate::members::{put_lines_member, put_page_member, put_text_member};
use ac_rules::Loaded;
use ac_terms::{Def, Entry, Seen};
use ac_text::{Page, put_literal};
use ac_types::Text;
use lens_say::{Owners, write_definition, write_type_with_owner};
use std::alloc::Global;

// Adds bytes as they are written.
fn write_literal(alloc: Global, page: &mut Page, bytes: &[u8]) {
    let mut literal = Text::new(alloc);
    match put_literal(&mut literal, bytes) {
        Ok(()) => page.put(literal.as_slice()),
        Err(_) => page.lose(),
    }
}

// Adds where a module stands.
fn write_seen(alloc: Global, page: &mut Page, seen: &Seen) {
    match seen {
        Seen::Own => page.put(b" of the text"),
        Seen::Shelf(uri) => {
            page.put(b" on the shelf as ");
            write_literal(alloc, page, uri.as_slice());
        }
        Seen::Arrived => page.put(b" that arrived"),
    }
}

// Adds the line of a definition: what it is, its version and its digits, and of an import what it
// links to.
fn write_entry(alloc: Global, page: &mut Page, loaded: &Loaded, entry: &Entry) {
    match &entry.def {
        Def::Module(_) => {
            page.put(b"  module ");
            write_definition(alloc, page, entry);
        }
        Def::Import(_) => {
            page.put(b"  import ");
            write_definition(alloc, page, entry);
            if let Some(j) = entry.link
                && let Some(module) = loaded.env.entry(j)
            {
                page.put(b", linked to ");
                write_definition(alloc, page, module);
                write_seen(alloc, page, &module.seen);
            }
        }
        Def::Mark(name) => {
            page.put(b"  mark ");
            write_literal(alloc, page, name.as_slice());
        }
    }
    page.put(b"\n");
}

fn write_entries(alloc: Global, page: &mut Page, loaded: &Loaded, front: usize) {
    let entries = loaded.env.entries();
    for entry in entries.get(front..).unwrap_or(&[]) {
        write_entry(alloc, page, loaded, entry);
    }
}

// What is said of entries `front` and behind, with the type of the program, or without one.
fn in_lines(alloc: Global, loaded: &Loaded, front: usize, is_program: bool) -> Page {
    let mut page = Page::new(alloc);
    if is_program {
        write_type_with_owner(&mut page, &Owners::new(alloc, &loaded.env), &loaded.ty);
    } else {
        page.put(b": a program has an expression behind its definitions");
    }
    page.put(b"\n");
    write_entries(alloc, &mut page, loaded, front);
    page
}

fn in_json(alloc: Global, file: &str, loaded: &Loaded, front: usize, is_program: bool) -> Page {
    let mut page = Page::new(alloc);
    put_text_member(&mut page, b"file", file.as_bytes());
    if is_program {
        let mut ty = Page::new(alloc);
        write_type_with_owner(&mut ty, &Owners::new(alloc, &loaded.env), &loaded.ty);
        put_page_member(&mut page, b"type", &ty);
    }
    let mut entries = Page::new(alloc);
    write_entries(alloc, &mut entries, loaded, front);
    put_lines_member(&mut page, b"definitions", &entries);
    page.put(b"}\n");
    page
}

fn said(
    alloc: Global,
    heading: Heading<'_>,
    loaded: &Loaded,
    front: usize,
    is_program: bool,
) -> Page {
    match heading.form {
        Form::Lines => in_lines(alloc, loaded, front, is_program),
        Form::Json => in_json(alloc, heading.file, loaded, front, is_program),
    }
}

/// What is said of a program behind the first `front` entries, behind the words of the verdict.
pub fn program_said(alloc: Global, heading: Heading<'_>, loaded: &Loaded, front: usize) -> Page {
    said(alloc, heading, loaded, front, true)
}

/// What is said of a module by itself, which is entry `front`, behind the words of the verdict.
pub fn module_said(alloc: Global, heading: Heading<'_>, loaded: &Loaded, front: usize) -> Page {
    said(alloc, heading, loaded, front, false)
}

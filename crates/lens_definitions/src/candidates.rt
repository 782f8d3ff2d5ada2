// Imports that no module serves, and the modules that might.

use crate::faults::{why_passed, write_passed};
use crate::trees::{ExplainedPart, name_of_tree, place_of};
use ac_terms::{Def, Entry, Import};
use ac_text::{Page, put_literal};
use ac_types::{Resolve, Text, Word};
use lens_say::{Message, Owners, external, write_definition, write_name, write_place};
use std::alloc::Global;

// Adds a URI as it is written.
fn write_uri(alloc: Global, page: &mut Page, uri: &Text) {
    let mut literal = Text::new(alloc);
    match put_literal(&mut literal, uri.as_slice()) {
        Ok(()) => page.put(literal.as_slice()),
        Err(_) => page.lose(),
    }
}

// Adds where entry `j` stands.
fn write_origin(alloc: Global, page: &mut Page, part: &ExplainedPart<'_>, j: u32) {
    if let Some(tree) = part.tree_of_entry(j) {
        page.put(b" at ");
        write_place(page, part.text, place_of(tree));
    } else if let Some(uri) = part.uri(j) {
        page.put(b" on the shelf as ");
        write_uri(alloc, page, uri);
    }
}

// Adds a line for an entry of the import's name: what it is, where it stands, and why it is passed
// over.
fn write_candidate(
    alloc: Global,
    page: &mut Page,
    part: &ExplainedPart<'_>,
    import: &Import,
    j: u32,
    entry: &Entry,
) {
    page.put(b"  ");
    write_definition(alloc, page, entry);
    write_origin(alloc, page, part, j);
    page.put(b": ");
    match &entry.def {
        Def::Module(module) => {
            let owners = Owners::new(alloc, part.env);
            let why = why_passed(part, import, j);
            write_passed(alloc, page, &owners, module, import, why);
        }
        _ => page.put(b"it is an import, and no module\n"),
    }
}

fn is_called(entry: &Entry, word: &Word) -> bool {
    match external(&entry.def) {
        Some(name) => name.is(word),
        None => false,
    }
}

// Adds a line for each entry in front of number `i` that has the import's name, the latest first, and
// gives how many there are.
fn write_candidates(
    alloc: Global,
    page: &mut Page,
    part: &ExplainedPart<'_>,
    import: &Import,
    i: u32,
) -> usize {
    let mut count = 0usize;
    for j in (0..i).rev() {
        if let Some(entry) = part.env.entry(j)
            && is_called(entry, &import.name)
        {
            write_candidate(alloc, page, part, import, j, entry);
            count = count.saturating_add(1);
        }
    }
    count
}

// Adds a line with the places where the import looks.
fn write_atoms(alloc: Global, page: &mut Page, by: &[Resolve]) {
    let mut between: &[u8] = b"  it looks by ";
    for atom in by {
        page.put(between);
        match atom {
            Resolve::StaticLink => page.put(b"Static_Link"),
            Resolve::HereAlready => page.put(b"Here_Already"),
            Resolve::Uri(uri) => write_uri(alloc, page, uri),
        }
        between = b", ";
    }
    page.put(b"\n");
}

// Adds a line for the first module of that name that stands behind the import.
fn write_later(page: &mut Page, part: &ExplainedPart<'_>, import: &Import, def: u32) {
    let defs = part.surface.defs.as_slice();
    for tree in defs.get(def as usize..).unwrap_or(&[]).iter().skip(1) {
        if let Some(name) = name_of_tree(tree)
            && name.word.is(&import.name)
        {
            page.put(b"  one stands behind the import, at ");
            write_place(page, part.text, name.at);
            page.put(b"\n");
            return;
        }
    }
}

/// What is said of definition `def`, an import that no module serves: where it looks, and for each
/// module of its name the first condition that fails.
pub fn why_unresolved(alloc: Global, part: &ExplainedPart<'_>, def: u32) -> Option<Message> {
    let tree = part.tree(def)?;
    let Def::Import(import) = &part.entry(def)?.def else {
        return None;
    };
    let mut message = Message::saying(alloc, place_of(tree), b"no module serves the import of ");
    write_name(&mut message.why, import.name.text().as_slice());
    let more = &mut message.more;
    write_atoms(alloc, more, import.by.as_slice());
    if write_candidates(alloc, more, part, import, part.number(def)) == 0 {
        more.put(b"  no definition in front of it is called ");
        write_name(more, import.name.text().as_slice());
        more.put(b"\n");
        write_later(more, part, import, def);
    }
    Some(message)
}

// The definitions that types are of.

use ac_names::name_hex;
use ac_terms::{Def, Entry, Env};
use ac_text::Page;
use ac_types::{Constraint, Memory, Name, Text, Word};
use ac_version::{constraint_text, version_text};
use std::alloc::Global;

// So many digits tell a definition apart.
const DIGITS: usize = 8;

/// The definitions that may be spoken of.
#[derive(Clone, Copy)]
pub struct Owners<'a> {
    alloc: Global,
    entries: &'a [Entry],
}

impl<'a> Owners<'a> {
    /// These entries.
    pub fn new(alloc: Global, env: &'a Env) -> Owners<'a> {
        Owners {
            alloc,
            entries: env.entries(),
        }
    }

    // The first entry that keeps this name.
    fn named(&self, name: &Name) -> Option<&'a Entry> {
        let entries = self.entries;
        for entry in entries {
            if entry.keeps(name) {
                return Some(entry);
            }
        }
        None
    }

    // Whether a definition of this external name has another name.
    fn has_other(&self, word: &Word, name: &Name) -> bool {
        for entry in self.entries {
            if is_called(&entry.def, word) && !entry.keeps(name) {
                return true;
            }
        }
        false
    }

    /// Adds the abstract type of this name of a definition: `M.t`, and where two definitions are called
    /// `M`, the version and the digits of the one that is meant.
    pub fn write_abstract(&self, page: &mut Page, name: &Name, word: &Word) {
        match self.named(name) {
            None => {
                page.put(word.text().as_slice());
                page.put(b" (");
                write_digits(self.alloc, page, name);
                page.put(b")");
            }
            Some(entry) => self.write_of(page, entry, name, word),
        }
    }

    fn write_of(&self, page: &mut Page, entry: &Entry, name: &Name, word: &Word) {
        let Some(owner) = external(&entry.def) else {
            return;
        };
        page.put(owner.text().as_slice());
        page.put(b".");
        page.put(word.text().as_slice());
        if self.has_other(owner, name) {
            page.put(b" (");
            write_version(self.alloc, page, &entry.def);
            page.put(b", ");
            write_digits(self.alloc, page, name);
            page.put(b")");
        }
    }
}

/// The external name of a definition, which a mark has none of.
pub fn external(def: &Def) -> Option<&Word> {
    match def {
        Def::Module(module) => Some(&module.name),
        Def::Import(import) => Some(&import.name),
        Def::Mark(_) => None,
    }
}

fn is_called(def: &Def, word: &Word) -> bool {
    match external(def) {
        Some(name) => name.is(word),
        None => false,
    }
}

// The version of a module, or what an import asks for.
fn version_of(alloc: Global, def: &Def) -> Result<Text, Memory> {
    match def {
        Def::Module(module) => version_text(alloc, &module.version),
        Def::Import(import) => match &import.constraint {
            Constraint::Exact(_) => Text::from_slice(alloc, b"by exact name"),
            Constraint::Ranges { atoms: _, star: _ } => constraint_text(alloc, &import.constraint),
        },
        Def::Mark(_) => Ok(Text::new(alloc)),
    }
}

fn write_version(alloc: Global, page: &mut Page, def: &Def) {
    match version_of(alloc, def) {
        Ok(text) => page.put(text.as_slice()),
        Err(_) => page.lose(),
    }
}

// Adds the first digits of a name.
fn write_digits(alloc: Global, page: &mut Page, name: &Name) {
    match name_hex(alloc, name) {
        Ok(digits) => page.put(digits.as_slice().get(..DIGITS).unwrap_or(b"")),
        Err(_) => page.lose(),
    }
}

/// Adds a module or an import: its external name, its version or what it asks for, and the first
/// digits of its name.
pub fn write_definition(alloc: Global, page: &mut Page, entry: &Entry) {
    if let Some(word) = external(&entry.def) {
        page.put(word.text().as_slice());
        page.put(b" ");
    }
    write_version(alloc, page, &entry.def);
    if let Some(name) = &entry.name {
        page.put(b" ");
        write_digits(alloc, page, name);
    }
}

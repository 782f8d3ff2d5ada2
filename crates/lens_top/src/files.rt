// The texts of files, each by itself.

ghost use Rattle.std.specs.Prelude.{◌≤◌, IfOk, length};
ghost use Rattle.ac_types.specs.Limits.{most_shelf_entries};
ghost use Rattle.ac_load_rules.specs.Accepting.{IsShelf};
ghost use Rattle.ac_load.specs.Loading.{shelf_of};

use ac_load::Shelf;
use ac_outside::Files;
use ac_types::{Many, Text};
use acute_files::{ManyTexts, ShelfLine, TextsFault, read_texts, shelf_list};
use std::alloc::Global;

/// The text of a file.
pub fn read_one<F: Files>(alloc: Global, files: &mut F, name: &str) -> Result<Text, TextsFault> {
    let read = read_texts(alloc, files, &[name], None)?;
    match read.texts.get(0) {
        Some(text) => match text.copy(alloc) {
            Ok(text) => Ok(text),
            Err(_) => Err(TextsFault::Memory),
        },
        None => Err(TextsFault::Failed),
    }
}

/// The shelf whose list is in a file, where there is one.
pub fn shelf_of_list<F: Files>(
    alloc: Global,
    files: &mut F,
    list: Option<&str>,
) -> Result<Shelf, TextsFault>
    ensures few { IfOk result (λ shelf. length shelf.0 ≤ most_shelf_entries) }
    ensures shelved { IfOk result (λ shelf. IsShelf (shelf_of shelf)) }
{
    match read_texts(alloc, files, &[], list) {
        Ok(read) => {
            let ManyTexts { shelf, texts } = read;
            drop(texts);
            Ok(shelf)
        }
        Err(fault) => Err(fault),
    }
}

/// The lines of the list of a shelf that was read; none where it can't be read twice.
pub fn read_lines<F: Files>(
    alloc: Global,
    files: &mut F,
    list: Option<&str>,
) -> Result<Many<ShelfLine>, TextsFault> {
    let Some(list) = list else {
        return Ok(Many::new(alloc));
    };
    match read_one(alloc, files, list) {
        Ok(text) => match shelf_list(alloc, text.as_slice()) {
            Ok(lines) => Ok(lines),
            Err(_) => Ok(Many::new(alloc)),
        },
        Err(TextsFault::Memory) => Err(TextsFault::Memory),
        Err(_) => Ok(Many::new(alloc)),
    }
}

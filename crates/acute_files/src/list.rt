// All lines of the list of a shelf.

ghost use Rattle.std.specs.Prelude.{◌≡◌, ◌≤◌, [], ◌∷◌, ◌++◌, ℕ, IsTrue, IfOk, IsErrOf, length, map, true};
ghost use Rattle.std.specs.List.{list_all, list_any};
ghost use Rattle.ac_rules.specs.Modules.{are_distinct};
ghost use Rattle.ac_types.specs.Limits.{is_uri, most_shelf_entries};
ghost use Rattle.ac_types.specs.Types.{same_bytes};
ghost use Rattle.acute_files.specs.ShelfLists.{Lists, BadLine, Listed, shelf_answer, line_has, had_of, listed_of, listed_uris};
ghost use Rattle.acute_files.specs.inner.Behind.{are_few, fits_behind};

use crate::line::{next_line, pair_in, without_feed};
use ac_types::limits::{LONGEST_SHELF_LIST, MOST_SHELF_ENTRIES};
use ac_types::{Many, Memory, Text};
use std::alloc::Global;

/// A URI, and the name of the file that has its text.
#[derive(Drop)]
pub struct ShelfLine {
    /// The URI.
    pub uri: Text,
    /// The file's name.
    pub file: String,
}

/// Why a list gives no entries.
#[derive(Clone, Copy, Debug, PartialEq, Eq)]
pub enum ShelfFault {
    /// The number of its first bad line, from 1.
    Line(u32),
    /// Memory ran out.
    Memory,
}

/// The entries of a list in their order, or its first bad line.
pub fn shelf_list(alloc: Global, text: &[u8]) -> Result<Many<ShelfLine>, ShelfFault>
    ensures lists { IfOk result (λ l. shelf_answer text.now ≡ Lists (map listed_of l)) }
    ensures bad { (n : ℕ) → IsErrOf result (ShelfFault.Line n) → shelf_answer text.now ≡ BadLine n }
    ensures few { IfOk result (λ l. length l ≤ most_shelf_entries) }
    ensures uris { IfOk result (λ l.
        IsTrue (list_all (λ (x : Listed). is_uri x.uri) (map listed_of l))) }
    ensures distinct { IfOk result (λ l. IsTrue (are_distinct (listed_uris (map listed_of l)))) }
{
    let mut entries = Many::new(alloc);
    let mut rest = text;
    let mut number = 0u32;
    let mut place = 0usize;
    while !rest.is_empty() {
        let (line, behind) = next_line(rest);
        if line.len() > LONGEST_SHELF_LIST - place {
            return Err(ShelfFault::Line(number + 1));
        }
        match add_line(alloc, &mut entries, without_feed(line)) {
            Ok(true) => {}
            Ok(false) => return Err(ShelfFault::Line(number + 1)),
            Err(_) => return Err(ShelfFault::Memory),
        }
        number += 1;
        place += line.len();
        rest = behind;
    }
    Ok(entries)
}

// Adds what a line has, without its feed, to the entries in front of it; false where it is bad.
fn add_line(alloc: Global, entries: &mut Many<ShelfLine>, line: &[u8]) -> Result<bool, Memory>
    requires { are_few (map listed_of entries.old) ≡ true }
    ensures fits { IfOk result (λ fits.
        fits ≡ fits_behind (map listed_of entries.old) (line_has line.now)) }
    ensures added { IfOk result (λ fits. fits ≡ true →
        map listed_of entries.new ≡ map listed_of entries.old ++ had_of (line_has line.now)) }
{
    if line.is_empty() {
        return Ok(true);
    }
    match pair_in(line) {
        None => Ok(false),
        Some((uri, file)) => add_entry(alloc, entries, uri, file),
    }
}

fn add_entry(
    alloc: Global,
    entries: &mut Many<ShelfLine>,
    uri: &[u8],
    file: &str,
) -> Result<bool, Memory>
    requires { are_few (map listed_of entries.old) ≡ true }
    ensures fits { IfOk result (λ fits. fits ≡ are_few (map listed_of entries.old ++
        record { uri = uri.now; file = file.now } ∷ [])) }
    ensures added { IfOk result (λ fits. fits ≡ true →
        map listed_of entries.new ≡ map listed_of entries.old ++
        record { uri = uri.now; file = file.now } ∷ []) }
{
    if entries.len() >= MOST_SHELF_ENTRIES {
        return Ok(false);
    }
    if has_uri(entries, uri) {
        return Ok(false);
    }
    entries.push(ShelfLine {
        uri: Text::from_slice(alloc, uri)?,
        file: String::from_str(alloc, file)?,
    })?;
    Ok(true)
}

// Whether one of the entries has this URI.
fn has_uri(entries: &Many<ShelfLine>, uri: &[u8]) -> bool
    ensures { result ≡ list_any (λ x. same_bytes uri.now x.uri.0) entries.now }
{
    entries
        .as_slice()
        .iter()
        .any(|entry| uri == entry.uri.as_slice())
}

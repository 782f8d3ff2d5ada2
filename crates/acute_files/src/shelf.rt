// The texts of a shelf.
ghost use Rattle.std.specs.Prelude.{◌≡◌, ◌≤◌, ℕ, Some, IsTrue, IfOk, IsErrOf, MatchResult, length, map};
ghost use Rattle.ac_types.specs.Limits.{most_shelf_entries};
ghost use Rattle.ac_outside.specs.Outside.{NeverFall, Rose};
ghost use Rattle.acute_files.specs.ShelfLists.{BadLine, listed_of, shelf_answer};
ghost use Rattle.ac_load_rules.specs.Accepting.{IsShelf};
ghost use Rattle.ac_load.specs.Loading.{shelf_of, shelved};
ghost use Rattle.acute_files.specs.Files.{reading, IsTextOf, name_in};
ghost use Rattle.acute_files.specs.ProgramTexts.{AreListed, IsShelfBy, HasBadLine};
ghost use Rattle.acute_files.specs.ReadOrder.{ReadInTurn, files_listed};
ghost use Rattle.acute_files.specs.inner.Failing.{ShelfFails, LinesGive, LinesFail, EntriesFail};
ghost use Rattle.acute_files.specs.inner.ShelfReads.{LinesRead, LinesTried, ListRead, ListTried, ShelfRead, ShelfTried};

use crate::list::{ShelfFault, ShelfLine, shelf_list};
use crate::text::{ReadFault, read_text};
use ac_load::{Shelf, ShelfEntry};
use ac_outside::Files;
use ac_types::Many;
use std::alloc::Global;

/// Why texts aren't read.
#[derive(Clone, Copy, Debug, PartialEq, Eq)]
pub enum TextsFault {
    /// The list of the shelf has a bad line: the number of the first, from 1.
    Line(u32),
    /// A read failed.
    Failed,
    /// Memory ran out.
    Memory,
}

/// The texts of the shelf whose list is in a file, where there is one.
pub fn read_shelf<F: Files>(
    alloc: Global,
    files: &mut F,
    list: Option<&str>,
) -> Result<Shelf, TextsFault>
    ensures shelf { IfOk result (λ shelf. IsShelfBy (reading F.Files files.old files.new)
        (name_in list.entry) (shelf_of shelf)) }
    ensures few { IfOk result (λ shelf. length shelf.0 ≤ most_shelf_entries) }
    ensures shelved { IfOk result (λ shelf. IsShelf (shelf_of shelf)) }
    ensures line { (n : ℕ) → IsErrOf result (TextsFault.Line n) →
        HasBadLine (reading F.Files files.old files.new) (name_in list.entry) n }
    ensures failed { IsErrOf result TextsFault.Failed →
        ShelfFails (reading F.Files files.old files.new) (name_in list.entry) }
    ensures same { IsTrue F.told → F.contents files.new ≡ F.contents files.old }
    ensures later { NeverFall (F.read_faults files.old) (F.read_faults files.new) }
    ensures later_writes { NeverFall (F.write_faults files.old) (F.write_faults files.new) }
    ensures only { MatchResult result
        (λ _. ShelfRead F.Files (name_in list.entry) files.old files.new)
        (λ _. ShelfTried F.Files (name_in list.entry) files.old files.new) }
{
    match list {
        None => Ok(Shelf::empty(alloc)),
        Some(list) => read_listed(alloc, files, list),
    }
}

// The texts of the shelf whose list is in that file.
fn read_listed<F: Files>(alloc: Global, files: &mut F, list: &str) -> Result<Shelf, TextsFault>
    ensures shelf { IfOk result (λ shelf. IsShelfBy (reading F.Files files.old files.new)
        (Some list.now) (shelf_of shelf)) }
    ensures few { IfOk result (λ shelf. length shelf.0 ≤ most_shelf_entries) }
    ensures shelved { IfOk result (λ shelf. IsShelf (shelf_of shelf)) }
    ensures line { (n : ℕ) → IsErrOf result (TextsFault.Line n) →
        HasBadLine (reading F.Files files.old files.new) (Some list.now) n }
    ensures failed { IsErrOf result TextsFault.Failed →
        ShelfFails (reading F.Files files.old files.new) (Some list.now) }
    ensures same { IsTrue F.told → F.contents files.new ≡ F.contents files.old }
    ensures later { NeverFall (F.read_faults files.old) (F.read_faults files.new) }
    ensures later_writes { NeverFall (F.write_faults files.old) (F.write_faults files.new) }
    ensures only { MatchResult result (λ _. ListRead F.Files list.now files.old files.new)
        (λ _. ListTried F.Files list.now files.old files.new) }
{
    match read_text(alloc, files, list) {
        Ok(text) => read_lines(alloc, files, text.as_slice()),
        Err(ReadFault::Failed) => Err(TextsFault::Failed),
        Err(ReadFault::Memory) => Err(TextsFault::Memory),
    }
}

// The texts that a list names.
fn read_lines<F: Files>(alloc: Global, files: &mut F, text: &[u8]) -> Result<Shelf, TextsFault>
    ensures shelf { IfOk result (λ shelf. LinesGive (reading F.Files files.old files.new)
        text.now (shelf_of shelf)) }
    ensures few { IfOk result (λ shelf. length shelf.0 ≤ most_shelf_entries) }
    ensures shelved { IfOk result (λ shelf. IsShelf (shelf_of shelf)) }
    ensures line { (n : ℕ) → IsErrOf result (TextsFault.Line n) →
        shelf_answer text.now ≡ BadLine n }
    ensures failed { IsErrOf result TextsFault.Failed →
        LinesFail (reading F.Files files.old files.new) text.now }
    ensures same { IsTrue F.told → F.contents files.new ≡ F.contents files.old }
    ensures later { NeverFall (F.read_faults files.old) (F.read_faults files.new) }
    ensures later_writes { NeverFall (F.write_faults files.old) (F.write_faults files.new) }
    ensures only { MatchResult result (λ _. LinesRead F.Files text.now files.old files.new)
        (λ _. LinesTried F.Files text.now files.old files.new) }
{
    match shelf_list(alloc, text) {
        Ok(lines) => match read_entries(alloc, files, lines.as_slice()) {
            Ok(shelf) => Ok(shelf),
            Err(ReadFault::Failed) => Err(TextsFault::Failed),
            Err(ReadFault::Memory) => Err(TextsFault::Memory),
        },
        Err(ShelfFault::Line(n)) => Err(TextsFault::Line(n)),
        Err(ShelfFault::Memory) => Err(TextsFault::Memory),
    }
}

// The texts of the files that the lines of a list name.
fn read_entries<F: Files>(
    alloc: Global,
    files: &mut F,
    lines: &[ShelfLine],
) -> Result<Shelf, ReadFault>
    ensures shelf { IfOk result (λ shelf. AreListed (reading F.Files files.old files.new)
        (map listed_of lines.now) (shelf_of shelf)) }
    ensures len { IfOk result (λ shelf. length shelf.0 ≡ length lines.now) }
    ensures failed { IsErrOf result ReadFault.Failed →
        EntriesFail (reading F.Files files.old files.new) (map listed_of lines.now) }
    ensures same { IsTrue F.told → F.contents files.new ≡ F.contents files.old }
    ensures later { NeverFall (F.read_faults files.old) (F.read_faults files.new) }
    ensures later_writes { NeverFall (F.write_faults files.old) (F.write_faults files.new) }
    ensures only { ReadInTurn F.reads (files_listed (map listed_of lines.now)) files.old files.new }
{
    let mut entries = Many::new(alloc);
    for line in lines {
        match read_entry(alloc, files, line) {
            Ok(entry) => match entries.push(entry) {
                Ok(()) => {}
                Err(_) => return Err(ReadFault::Memory),
            },
            Err(fault) => return Err(fault),
        }
    }
    Ok(Shelf(entries))
}

// The text of the file that a line names, under the line's URI.
fn read_entry<F: Files>(
    alloc: Global,
    files: &mut F,
    line: &ShelfLine,
) -> Result<ShelfEntry, ReadFault>
    ensures uri { IfOk result (λ entry. (shelved entry).uri ≡ (listed_of line.now).uri) }
    ensures text { IfOk result (λ entry. IsTextOf (reading F.Files files.old files.new
        (listed_of line.now).file) (shelved entry).text) }
    ensures failed { IsErrOf result ReadFault.Failed →
        Rose (F.read_faults files.old (listed_of line.now).file)
        (F.read_faults files.new (listed_of line.now).file) }
    ensures same { IsTrue F.told → F.contents files.new ≡ F.contents files.old }
    ensures later { NeverFall (F.read_faults files.old) (F.read_faults files.new) }
    ensures later_writes { NeverFall (F.write_faults files.old) (F.write_faults files.new) }
    ensures only { F.reads (listed_of line.now).file files.old files.new }
{
    match read_text(alloc, files, line.file.as_str()) {
        Ok(text) => match line.uri.copy(alloc) {
            Ok(uri) => Ok(ShelfEntry { uri, text }),
            Err(_) => Err(ReadFault::Memory),
        },
        Err(fault) => Err(fault),
    }
}

// The texts of several files, and of a shelf beside them.
ghost use Rattle.std.specs.Prelude.{◌≡◌, ◌≤◌, ℕ, IsTrue, IfOk, IsErrOf, length};
ghost use Rattle.ac_types.specs.Limits.{most_shelf_entries};
ghost use Rattle.ac_outside.specs.Outside.{NeverFall};
ghost use Rattle.ac_load_rules.specs.Accepting.{IsShelf};
ghost use Rattle.ac_load.specs.Loading.{shelf_of};
ghost use Rattle.acute_files.specs.Files.{reading, name_in, names_in};
ghost use Rattle.acute_files.specs.ManyTexts.{AreTexts, TextsFail};
ghost use Rattle.acute_files.specs.ProgramTexts.{IsShelfBy, HasBadLine};
ghost use Rattle.acute_files.specs.ReadOrder.{ReadInTurn, TextsRead};
ghost use Rattle.acute_files.specs.inner.Failing.{OneFails};

use crate::shelf::{TextsFault, read_shelf};
use crate::text::{ReadFault, read_text};
use ac_load::Shelf;
use ac_outside::Files;
use ac_types::{Many, Text};
use std::alloc::Global;

/// The texts of several files, and the shelf beside them.
#[derive(Drop)]
pub struct ManyTexts {
    /// The texts of the shelf.
    pub shelf: Shelf,
    /// The text of each file, or the first `LONGEST_READ` bytes of it.
    pub texts: Many<Text>,
}

/// The texts of these files and of the shelf whose list is in a file, where there is one. The list
/// is read first, then the files that it names, then these files, in their order.
pub fn read_texts<F: Files>(
    alloc: Global,
    files: &mut F,
    names: &[&str],
    list: Option<&str>,
) -> Result<ManyTexts, TextsFault>
    ensures shelf { IfOk result (λ t. IsShelfBy (reading F.Files files.old files.new)
        (name_in list.entry) (shelf_of t.shelf)) }
    ensures texts { IfOk result (λ t. AreTexts (reading F.Files files.old files.new)
        (names_in names.now) t.texts) }
    ensures few { IfOk result (λ t. length t.shelf.0 ≤ most_shelf_entries) }
    ensures shelved { IfOk result (λ t. IsShelf (shelf_of t.shelf)) }
    ensures line { (n : ℕ) → IsErrOf result (TextsFault.Line n) →
        HasBadLine (reading F.Files files.old files.new) (name_in list.entry) n }
    ensures failed { IsErrOf result TextsFault.Failed →
        TextsFail (reading F.Files files.old files.new) (names_in names.now) (name_in list.entry) }
    ensures same { IsTrue F.told → F.contents files.new ≡ F.contents files.old }
    ensures only { TextsRead F.Files (names_in names.now) files.old files.new
        (name_in list.entry) }
{
    match read_shelf(alloc, files, list) {
        Ok(shelf) => read_beside_shelf(alloc, files, names, shelf),
        Err(fault) => Err(fault),
    }
}

// The texts of these files, beside a shelf that was read.
fn read_beside_shelf<F: Files>(
    alloc: Global,
    files: &mut F,
    names: &[&str],
    shelf: Shelf,
) -> Result<ManyTexts, TextsFault>
    ensures shelf { IfOk result (λ t. t.shelf ≡ shelf) }
    ensures texts { IfOk result (λ t. AreTexts (reading F.Files files.old files.new)
        (names_in names.now) t.texts) }
    ensures no_line { (n : ℕ) → IsErrOf result (TextsFault.Line n) → ⊥ }
    ensures failed { IsErrOf result TextsFault.Failed →
        OneFails (reading F.Files files.old files.new) (names_in names.now) }
    ensures same { IsTrue F.told → F.contents files.new ≡ F.contents files.old }
    ensures later { NeverFall (F.read_faults files.old) (F.read_faults files.new) }
    ensures only { ReadInTurn F.reads (names_in names.now) files.old files.new }
{
    match read_each(alloc, files, names) {
        Ok(texts) => Ok(ManyTexts { shelf, texts }),
        Err(ReadFault::Failed) => Err(TextsFault::Failed),
        Err(ReadFault::Memory) => Err(TextsFault::Memory),
    }
}

// The text of each of these files.
fn read_each<F: Files>(
    alloc: Global,
    files: &mut F,
    names: &[&str],
) -> Result<Many<Text>, ReadFault>
    ensures texts { IfOk result (λ texts. AreTexts (reading F.Files files.old files.new)
        (names_in names.now) texts) }
    ensures failed { IsErrOf result ReadFault.Failed →
        OneFails (reading F.Files files.old files.new) (names_in names.now) }
    ensures same { IsTrue F.told → F.contents files.new ≡ F.contents files.old }
    ensures later { NeverFall (F.read_faults files.old) (F.read_faults files.new) }
    ensures only { ReadInTurn F.reads (names_in names.now) files.old files.new }
{
    let mut texts = Many::new(alloc);
    for i in 0..names.len() {
        match read_text(alloc, files, names[i]) {
            Ok(text) => match texts.push(text) {
                Ok(()) => {}
                Err(_) => return Err(ReadFault::Memory),
            },
            Err(fault) => return Err(fault),
        }
    }
    Ok(texts)
}

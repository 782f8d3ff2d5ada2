// The texts of a program and of its shelf.
ghost use Rattle.std.specs.Prelude.{◌≡◌, ◌≤◌, List, [], ◌∷◌, ℕ, IsTrue, IfOk, OnOk, IsErrOf, length};
ghost use Rattle.ac_types.specs.Limits.{most_shelf_entries};
ghost use Rattle.ac_outside.specs.Outside.{NeverFall, Rose};
ghost use Rattle.ac_load_rules.specs.Accepting.{IsShelf};
ghost use Rattle.ac_load.specs.Loading.{shelf_of};
ghost use Rattle.acute_files.specs.Files.{reading, IsTextOf, name_in};
ghost use Rattle.acute_files.specs.ProgramTexts.{IsShelfBy, HasBadLine, ReadsFail};
ghost use Rattle.acute_files.specs.ReadOrder.{ReadInTurn, TextsRead};

use crate::shelf::{TextsFault, read_shelf};
use crate::text::{ReadFault, read_text};
use ac_load::Shelf;
use ac_outside::Files;
use ac_types::Text;
use std::alloc::Global;

/// The texts that a program is loaded from.
#[derive(Drop)]
pub struct ProgramTexts {
    /// The texts of its shelf.
    pub shelf: Shelf,
    /// Its own text, or the first `LONGEST_READ` bytes of it.
    pub program: Text,
}

/// The texts of a program's file and of the shelf whose list is in a file, where there is one. The
/// list is read first, then the files that it names, then the program's. What is read behind them
/// comes behind them.
pub fn read_program<F: Files>(
    alloc: Global,
    files: &mut F,
    program: &str,
    list: Option<&str>,
) -> Result<ProgramTexts, TextsFault>
    ensures shelf { IfOk result (λ t. IsShelfBy (reading F.Files files.old files.new)
        (name_in list.entry) (shelf_of t.shelf)) }
    ensures program { IfOk result (λ t. IsTextOf (reading F.Files files.old files.new program.now)
        t.program.0) }
    ensures few { IfOk result (λ t. length t.shelf.0 ≤ most_shelf_entries) }
    ensures shelved { IfOk result (λ t. IsShelf (shelf_of t.shelf)) }
    ensures line { (n : ℕ) → IsErrOf result (TextsFault.Line n) →
        HasBadLine (reading F.Files files.old files.new) (name_in list.entry) n }
    ensures failed { IsErrOf result TextsFault.Failed →
        ReadsFail (reading F.Files files.old files.new) program.now (name_in list.entry) }
    ensures same { IsTrue F.told → F.contents files.new ≡ F.contents files.old }
    ensures later { NeverFall (F.read_faults files.old) (F.read_faults files.new) }
    ensures later_writes { NeverFall (F.write_faults files.old) (F.write_faults files.new) }
    ensures only { TextsRead F.Files (program.now ∷ []) files.old files.new (name_in list.entry) }
    ensures behind { OnOk result ((names : List (List ℕ)) (later : F) →
        ReadInTurn F.reads names files.new later →
        TextsRead F.Files (program.now ∷ names) files.old later (name_in list.entry)) }
{
    match read_shelf(alloc, files, list) {
        Ok(shelf) => read_beside(alloc, files, program, shelf),
        Err(fault) => Err(fault),
    }
}

// The text of a program's file, beside a shelf that was read.
fn read_beside<F: Files>(
    alloc: Global,
    files: &mut F,
    program: &str,
    shelf: Shelf,
) -> Result<ProgramTexts, TextsFault>
    ensures shelf { IfOk result (λ t. t.shelf ≡ shelf) }
    ensures program { IfOk result (λ t. IsTextOf (reading F.Files files.old files.new program.now)
        t.program.0) }
    ensures no_line { (n : ℕ) → IsErrOf result (TextsFault.Line n) → ⊥ }
    ensures failed { IsErrOf result TextsFault.Failed →
        Rose (F.read_faults files.old program.now) (F.read_faults files.new program.now) }
    ensures same { IsTrue F.told → F.contents files.new ≡ F.contents files.old }
    ensures later { NeverFall (F.read_faults files.old) (F.read_faults files.new) }
    ensures later_writes { NeverFall (F.write_faults files.old) (F.write_faults files.new) }
    ensures only { F.reads program.now files.old files.new }
{
    match read_text(alloc, files, program) {
        Ok(program) => Ok(ProgramTexts { shelf, program }),
        Err(ReadFault::Failed) => Err(TextsFault::Failed),
        Err(ReadFault::Memory) => Err(TextsFault::Memory),
    }
}

// The commands that print what they find.
ghost use Rattle.std.specs.Prelude.{◌≡◌, [], ◌∷◌, IsTrue};
ghost use Rattle.ac_types.specs.Types.{Bytes};
ghost use Rattle.acute_files.specs.Files.{Reading, name_in, names_in, reading};
ghost use Rattle.acute_files.specs.ReadOrder.{TextsRead};
ghost use Rattle.acute_words.specs.Commands.{check, files_of, make};
ghost use Rattle.acute_top.specs.Streams.{writing};
ghost use Rattle.acute_top.specs.Endings.{AnswerEnded};
ghost use Rattle.acute_top.specs.inner.Asked.{showing};

use crate::delivery::deliver;
use crate::saying::tell_unread;
use ac_outside::{Files, Gate, Sink};
use acute_answers::{Showing, Status, check, make_answer, show};
use acute_files::{read_program, read_texts};
use acute_words::{Make, Program};
use std::alloc::Global;
use std::thread::Threads;

/// Shows that of the program of a file.
pub fn show_file<F: Files, O: Sink, E: Sink>(
    alloc: Global,
    what: Showing,
    program: Program,
    files: &mut F,
    output: &mut O,
    errors: &mut E,
) -> Status
    ensures ends { AnswerEnded (showing what (files_of program.entry))
        (reading F.Files files.old files.new) (writing O.Sink output.old output.new)
        (writing E.Sink errors.old errors.new) result }
    ensures same { IsTrue F.told → F.contents files.new ≡ F.contents files.old }
    ensures only { TextsRead F.Files ((files_of program.entry).file ∷ []) files.old files.new
        (files_of program.entry).shelf }
{
    match read_program(alloc, files, program.file, program.shelf) {
        Ok(texts) => {
            let found = show(alloc, what, texts.program.as_slice(), &texts.shelf);
            deliver(found, output, errors)
        }
        Err(fault) => tell_unread(alloc, fault, errors),
    }
}

/// Checks the texts of files.
pub fn check_files<R: Threads + Sync, F: Files, O: Sink, E: Sink, G: Gate + Sync>(
    rt: &R,
    alloc: Global,
    names: &[&str],
    list: Option<&str>,
    files: &mut F,
    output: &mut O,
    errors: &mut E,
    gate: &G,
) -> Status
    ensures ends { AnswerEnded (check (names_in names.now)
        (name_in list.entry)) (reading F.Files files.old files.new)
        (writing O.Sink output.old output.new) (writing E.Sink errors.old errors.new) result }
    ensures same { IsTrue F.told → F.contents files.new ≡ F.contents files.old }
    ensures only { TextsRead F.Files (names_in names.now) files.old files.new
        (name_in list.entry) }
{
    match read_texts(alloc, files, names, list) {
        Ok(texts) => {
            let found = check(rt, alloc, names, &texts.texts, &texts.shelf, gate);
            deliver(found, output, errors)
        }
        Err(fault) => tell_unread(alloc, fault, errors),
    }
}

/// Makes a program, and prints it or runs it.
pub fn make_program<O: Sink, E: Sink>(
    alloc: Global,
    program: Make,
    output: &mut O,
    errors: &mut E,
) -> Status
    ensures { (files : Bytes → Reading) → AnswerEnded
        (make program.seed program.modules program.runs) files
        (writing O.Sink output.old output.new) (writing E.Sink errors.old errors.new) result }
{
    let found = make_answer(alloc, program.seed, program.modules, program.runs);
    deliver(found, output, errors)
}

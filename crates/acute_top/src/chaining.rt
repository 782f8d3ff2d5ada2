// Chains of programs.
ghost use Rattle.std.specs.Prelude.{◌≡◌, ◌<◌, ◌≤◌, ◌^◌, IsTrue, length};
ghost use Rattle.ac_types.specs.Limits.{most_shelf_entries, most_chained};
ghost use Rattle.ac_load_rules.specs.Accepting.{IsShelf};
ghost use Rattle.ac_load.specs.Loading.{shelf_of};
ghost use Rattle.acute_files.specs.ReadOrder.{TextsRead};
ghost use Rattle.ac_chain.specs.ChainTexts.{texts_of};
ghost use Rattle.acute_top.specs.Streams.{writing};
ghost use Rattle.acute_files.specs.Files.{reading, name_in, names_in};
ghost use Rattle.acute_top.specs.ChainEndings.{ChainEnded};
ghost use Rattle.acute_top.specs.inner.ChainDelivered.{ChainDelivered};

use crate::delivery::deliver_answer;
use crate::saying::{no_memory, say, tell_unread};
use ac_load::Shelf;
use ac_outside::{Files, Sink};
use ac_types::{Many, Text};
use acute_answers::Status;
use acute_chain::{Halt, run_chain};
use acute_files::read_texts;
use std::alloc::Global;

/// Runs the programs of files in a chain.
pub fn chain_files<F: Files, O: Sink, E: Sink>(
    alloc: Global,
    programs: &[&str],
    list: Option<&str>,
    steps: u64,
    files: &mut F,
    output: &mut O,
    errors: &mut E,
) -> Status
    requires { length programs.now ≤ most_chained }
    ensures ends { ChainEnded (names_in programs.now) (name_in list.entry)
        steps (reading F.Files files.old files.new)
        (writing O.Sink output.old output.new) (writing E.Sink errors.old errors.new) result }
    ensures same { IsTrue F.told → F.contents files.new ≡ F.contents files.old }
    ensures only { TextsRead F.Files (names_in programs.now) files.old files.new
        (name_in list.entry) }
{
    match read_texts(alloc, files, programs, list) {
        Ok(texts) => chain_texts(alloc, &texts.texts, &texts.shelf, steps, output, errors),
        Err(fault) => tell_unread(alloc, fault, errors),
    }
}

// Runs the programs of texts in a chain.
fn chain_texts<O: Sink, E: Sink>(
    alloc: Global,
    texts: &Many<Text>,
    shelf: &Shelf,
    steps: u64,
    output: &mut O,
    errors: &mut E,
) -> Status
    requires many { length texts.now < 2 ^ 32 }
    requires few { length shelf.now.0 ≤ most_shelf_entries }
    requires shelved { IsShelf (shelf_of shelf.now) }
    ensures { ChainDelivered (texts_of texts.now) (shelf_of shelf.now) steps
        (writing O.Sink output.old output.new) (writing E.Sink errors.old errors.new) result }
{
    match run_chain(alloc, texts, shelf, steps, output) {
        Ok(answer) => deliver_answer(&answer, output, errors),
        Err(Halt::WriteFault) => say(errors, b"acute: write fault\n", Status::WRITE_FAULT),
        Err(Halt::Memory) => no_memory(errors),
    }
}

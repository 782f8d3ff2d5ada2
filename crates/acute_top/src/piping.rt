// The command that starts a sender, and runs a program on what it sends.
ghost use Rattle.std.specs.Prelude.{◌≡◌, ◌≤◌, ◌∷◌, ◌++◌, [], List, IfOk, IsTrue, false, length};
ghost use Rattle.ac_types.specs.Limits.{most_shelf_entries};
ghost use Rattle.ac_types.specs.ReadTypes.{typ_of};
ghost use Rattle.ac_types.specs.Types.{Bytes};
ghost use Rattle.ac_terms.specs.Read.{environment_of, expr_of};
ghost use Rattle.ac_meaning.specs.Loads.{IsLoaded};
ghost use Rattle.ac_load_rules.specs.Accepting.{IsShelf, Shelved};
ghost use Rattle.ac_load.specs.Loading.{Loads, shelf_of};
ghost use Rattle.acute_files.specs.Files.{Reading, IsTextOf, reading};
ghost use Rattle.acute_files.specs.ProgramTexts.{IsShelfBy};
ghost use Rattle.acute_files.specs.ReadOrder.{TextsRead};
ghost use Rattle.acute_words.specs.Commands.{files_of};
ghost use Rattle.acute_answers.specs.declared.status.TheConstants.Status.{OUT_OF_MEMORY, READ_FAULT};
ghost use Rattle.acute_pipe.specs.Senders.{sender_line, status_in, words_for};
ghost use Rattle.acute_pipe.specs.Spawnings.{spawning};
ghost use Rattle.acute_top.specs.PipeEndings.{PipeEnded, SaidWithSender};
ghost use Rattle.acute_top.specs.Streams.{memory_line, read_line, writing};
ghost use Rattle.acute_top.specs.inner.Piped.{SaidOfEnd, SaysPiped, SaysRan, SaysReceiver};

use crate::delivery::say_if_any;
use crate::saying::{no_memory, refuse, say, tell_unread};
use ac_load::load;
use ac_outside::{Files, Sink};
use ac_pipe::PipeEnd;
use ac_rules::Loaded;
use ac_run::RunEnd;
use ac_spawn::{Ended, Spawner};
use ac_types::{Memory, Text};
use acute_answers::{Status, spent_line, uncaught_line};
use acute_files::{ProgramTexts, read_program};
use acute_pipe::{run_pipe, with_sender};
use acute_words::Pipe;
use std::alloc::Global;

/// Starts a tool as the sender of a file's program, and runs the program of a file on what it sends.
pub fn pipe_files<F: Files, O: Sink, E: Sink, P: Spawner>(
    alloc: Global,
    asked: Pipe,
    files: &mut F,
    output: &mut O,
    errors: &mut E,
    spawner: &mut P,
) -> Status
    requires idle { (P.child spawner.old).running ≡ false }
    ensures idle { (P.child spawner.new).running ≡ false }
    ensures ends { PipeEnded (words_for asked.entry) (files_of asked.entry.receiver)
        asked.entry.steps (reading F.Files files.old files.new)
        (spawning P.Spawner spawner.old spawner.new) (writing O.Sink output.old output.new)
        (writing E.Sink errors.old errors.new) result }
    ensures same { IsTrue F.told → F.contents files.new ≡ F.contents files.old }
    ensures only { TextsRead F.Files ((files_of asked.entry.receiver).file ∷ [])
        files.old files.new (files_of asked.entry.receiver).shelf }
{
    match read_program(alloc, files, asked.receiver.file, asked.receiver.shelf) {
        Ok(texts) => pipe_texts(alloc, texts, asked, output, errors, spawner),
        Err(fault) => tell_unread(alloc, fault, errors),
    }
}

// The same by the text of the receiver, beside its shelf.
fn pipe_texts<O: Sink, E: Sink, P: Spawner>(
    alloc: Global,
    texts: ProgramTexts,
    asked: Pipe,
    output: &mut O,
    errors: &mut E,
    spawner: &mut P,
) -> Status
    requires idle { (P.child spawner.old).running ≡ false }
    requires few { length texts.shelf.0 ≤ most_shelf_entries }
    requires shelved { IsShelf (shelf_of texts.shelf) }
    ensures idle { (P.child spawner.new).running ≡ false }
    ensures ends { (files : Bytes → Reading) →
        IsShelfBy files (files_of asked.entry.receiver).shelf (shelf_of texts.shelf) →
        IsTextOf (files (files_of asked.entry.receiver).file) texts.program.0 →
        PipeEnded (words_for asked.entry) (files_of asked.entry.receiver) asked.entry.steps files
        (spawning P.Spawner spawner.old spawner.new) (writing O.Sink output.old output.new)
        (writing E.Sink errors.old errors.new) result }
{
    match load(alloc, texts.program.as_slice(), &texts.shelf) {
        Ok(loaded) => pipe_program(alloc, loaded, asked, output, errors, spawner),
        Err(refusal) => refuse(alloc, refusal, errors),
    }
}

// The same by the receiver, which is loaded.
fn pipe_program<O: Sink, E: Sink, P: Spawner>(
    alloc: Global,
    loaded: Loaded,
    asked: Pipe,
    output: &mut O,
    errors: &mut E,
    spawner: &mut P,
) -> Status
    requires idle { (P.child spawner.old).running ≡ false }
    requires loaded { IsLoaded (environment_of loaded.env) (expr_of loaded.main)
        (typ_of loaded.ty) }
    ensures idle { (P.child spawner.new).running ≡ false }
    ensures ends { (files : Bytes → Reading) (shelf : List Shelved) (text : Bytes) →
        IsShelfBy files (files_of asked.entry.receiver).shelf shelf →
        IsTextOf (files (files_of asked.entry.receiver).file) text →
        Loads text shelf (environment_of loaded.env) (expr_of loaded.main)
        (typ_of loaded.ty) →
        PipeEnded (words_for asked.entry) (files_of asked.entry.receiver) asked.entry.steps files
        (spawning P.Spawner spawner.old spawner.new) (writing O.Sink output.old output.new)
        (writing E.Sink errors.old errors.new) result }
{
    let end = run_pipe(alloc, asked, loaded, spawner, output);
    tell_piped(alloc, end, errors)
}

// Says how a pipe has ended.
fn tell_piped<E: Sink>(alloc: Global, end: PipeEnd, errors: &mut E) -> Status
    ensures { SaysPiped end (writing E.Sink errors.old errors.new) result }
{
    match end {
        PipeEnd::Memory => no_memory(errors),
        PipeEnd::StartFault => say(errors, b"acute: start fault\n", Status::START_FAULT),
        PipeEnd::Ran {
            end,
            rest_failed,
            sender,
        } => tell_ran(alloc, end, rest_failed, sender, errors),
    }
}

// Says how a receiver and its sender have ended.
fn tell_ran<E: Sink>(
    alloc: Global,
    end: RunEnd,
    rest_failed: bool,
    sender: Ended,
    errors: &mut E,
) -> Status
    ensures { SaysRan end rest_failed sender (writing E.Sink errors.old errors.new) result }
{
    if rest_failed {
        return tell_unreceived(alloc, sender, errors);
    }
    match sender {
        Ended::Failed => tell_unreceived(alloc, sender, errors),
        Ended::Status(_) => tell_receiver(alloc, end, sender, errors),
    }
}

// Says how a receiver has ended, where no read behind its end has failed.
fn tell_receiver<E: Sink>(alloc: Global, end: RunEnd, sender: Ended, errors: &mut E) -> Status
    ensures { SaysReceiver end (status_in sender) (writing E.Sink errors.old errors.new)
        result }
{
    match end {
        RunEnd::Finished => {
            tell_end(
                alloc,
                Ok(Text::new(alloc)),
                Status::FINISHED,
                sender,
                errors,
            )
        }
        RunEnd::Uncaught(exn) => {
            let line = uncaught_line(alloc, &exn);
            tell_end(alloc, line, Status::UNCAUGHT, sender, errors)
        }
        RunEnd::Spent { steps } => {
            let line = spent_line(alloc, steps);
            tell_end(alloc, line, Status::SPENT, sender, errors)
        }
        RunEnd::ReadFault => tell_unreceived(alloc, sender, errors),
        RunEnd::WriteFault => {
            let line = b"acute: write fault\n";
            tell_fault(alloc, line, Status::WRITE_FAULT, sender, errors)
        }
        RunEnd::Memory => tell_memory(alloc, sender, errors),
    }
}

// Writes the line of an end, if there is one, and that of the sender behind it.
fn tell_end<E: Sink>(
    alloc: Global,
    line: Result<Text, Memory>,
    status: Status,
    sender: Ended,
    errors: &mut E,
) -> Status
    ensures { (bytes : Bytes) → IfOk line (λ text. text.0 ≡ bytes) →
        SaidOfEnd (writing E.Sink errors.old errors.new) bytes (status_in sender) status result }
{
    match behind_line(alloc, line, sender) {
        Ok(line) => say_if_any(line.as_slice(), status, errors),
        Err(_) => tell_memory(alloc, sender, errors),
    }
}

// The line of an end with that of the sender behind it. `Err` for want of memory.
fn behind_line(alloc: Global, line: Result<Text, Memory>, sender: Ended) -> Result<Text, Memory>
    ensures { (bytes : Bytes) → IfOk line (λ text. text.0 ≡ bytes) →
        IfOk result (λ text. text.0 ≡ bytes ++ sender_line (status_in sender)) }
{
    let line = line?;
    with_sender(alloc, line.as_slice(), sender)
}

// Says that a read of what the child gives failed, or the wait for it.
fn tell_unreceived<E: Sink>(alloc: Global, sender: Ended, errors: &mut E) -> Status
    ensures { SaidWithSender (writing E.Sink errors.old errors.new) read_line (status_in sender)
        READ_FAULT result }
{
    let line = b"acute: read fault\n";
    tell_fault(alloc, line, Status::READ_FAULT, sender, errors)
}

// Says that memory ran out.
fn tell_memory<E: Sink>(alloc: Global, sender: Ended, errors: &mut E) -> Status
    ensures { SaidWithSender (writing E.Sink errors.old errors.new) memory_line (status_in sender)
        OUT_OF_MEMORY result }
{
    let line = b"acute: out of memory\n";
    tell_fault(alloc, line, Status::OUT_OF_MEMORY, sender, errors)
}

// Writes the line of a fault, and that of the sender behind it, unless memory lacks for that.
fn tell_fault<E: Sink>(
    alloc: Global,
    line: &[u8],
    status: Status,
    sender: Ended,
    errors: &mut E,
) -> Status
    ensures { SaidWithSender (writing E.Sink errors.old errors.new) line.now (status_in sender)
        status result }
{
    match with_sender(alloc, line, sender) {
        Ok(whole) => say(errors, whole.as_slice(), status),
        Err(_) => say(errors, line, status),
    }
}

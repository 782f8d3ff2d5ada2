// The command that runs the program of a file.
ghost use Rattle.std.specs.Prelude.{◌≡◌, ◌≤◌, Some, false, IsTrue, length, option_map};
ghost use Rattle.ac_types.specs.Limits.{most_shelf_entries};
ghost use Rattle.ac_types.specs.ReadTypes.{typ_of};
ghost use Rattle.ac_terms.specs.Read.{environment_of, expr_of};
ghost use Rattle.ac_meaning.specs.Loads.{IsLoaded};
ghost use Rattle.ac_load_rules.specs.Accepting.{IsShelf};
ghost use Rattle.ac_load.specs.Loading.{shelf_of};
ghost use Rattle.acute_files.specs.Files.{FilesSeen, seen};
ghost use Rattle.acute_words.specs.Commands.{are_one, channel_of};
ghost use Rattle.acute_top.specs.Channels.{KeptBut, NoFile, NotStandard};
ghost use Rattle.acute_top.specs.Handed.{call, handed, handed_since};
ghost use Rattle.acute_top.specs.Stages.{Stage, InRun, Touches, Makes, UsesFiles};
ghost use Rattle.acute_top.specs.inner.RunCommands.{asked, from_of, to_of, HasRun, HasRunText, HasRunLoaded, HasRunBegun, HoldsSince};
ghost use Rattle.acute_top.specs.inner.Runs.{Prepared, MakesFile};

use crate::saying::{no_memory, refuse, say, tell_spent, tell_uncaught, tell_unread};
use crate::world::run_among;
use ac_load::load;
use ac_outside::{Files, Put, Sink, Source};
use ac_rules::Loaded;
use ac_run::{RunEnd, Session};
use acute_answers::Status;
use acute_files::{ProgramTexts, read_program};
use acute_words::{Channel, Run};
use std::alloc::Global;

/// Runs the program of a file.
pub fn run_file<F: Files, I: Source, O: Sink, E: Sink>(
    alloc: Global,
    run: Run,
    files: &mut F,
    input: &mut I,
    output: &mut O,
    errors: &mut E,
) -> Status
    requires { are_one (from_of run) (to_of run) ≡ false }
    ensures ends { (stage : Stage) ×
        Touches F.Files (Some (asked run.entry)) stage files.old files.new input.old input.new ×
        HasRun run.entry (handed F.Files I.Source O.Sink E.Sink
        (call files.old input.old output.old errors.old)
        (call files.new input.new output.new errors.new) stage) result }
    ensures kept { IsTrue F.told →
        KeptBut (to_of run.entry) (F.contents files.old) (F.contents files.new) }
{
    match read_program(alloc, files, run.program.file, run.program.shelf) {
        Ok(texts) => run_texts(alloc, texts, run, files, input, output, errors),
        Err(fault) => tell_unread(alloc, fault, errors),
    }
}

// Runs the text of a program beside its shelf.
fn run_texts<F: Files, I: Source, O: Sink, E: Sink>(
    alloc: Global,
    texts: ProgramTexts,
    run: Run,
    files: &mut F,
    input: &mut I,
    output: &mut O,
    errors: &mut E,
) -> Status
    requires apart { are_one (from_of run) (to_of run) ≡ false }
    requires few { length texts.shelf.0 ≤ most_shelf_entries }
    requires shelved { IsShelf (shelf_of texts.shelf) }
    ensures ends { HoldsSince F.Files I.Source O.Sink E.Sink (from_of run.entry) (to_of run.entry)
        (call files.old input.old output.old errors.old)
        (call files.new input.new output.new errors.new)
        (λ o. HasRunText run.entry (shelf_of texts.shelf) texts.program.0 o result) }
    ensures kept { IsTrue F.told →
        KeptBut (to_of run.entry) (F.contents files.old) (F.contents files.new) }
{
    match load(alloc, texts.program.as_slice(), &texts.shelf) {
        Ok(loaded) => run_program(alloc, loaded, run, files, input, output, errors),
        Err(refusal) => refuse(alloc, refusal, errors),
    }
}

// Runs the program of a text.
fn run_program<F: Files, I: Source, O: Sink, E: Sink>(
    alloc: Global,
    loaded: Loaded,
    run: Run,
    files: &mut F,
    input: &mut I,
    output: &mut O,
    errors: &mut E,
) -> Status
    requires apart { are_one (from_of run) (to_of run) ≡ false }
    requires loaded { IsLoaded (environment_of loaded.env) (expr_of loaded.main)
        (typ_of loaded.ty) }
    ensures ends { HoldsSince F.Files I.Source O.Sink E.Sink (from_of run.entry) (to_of run.entry)
        (call files.old input.old output.old errors.old)
        (call files.new input.new output.new errors.new)
        (λ o. HasRunLoaded run.entry loaded o result) }
    ensures kept { IsTrue F.told →
        KeptBut (to_of run.entry) (F.contents files.old) (F.contents files.new) }
{
    match Session::new(alloc, loaded, run.steps, run.output.is_some()) {
        Ok(mut session) => {
            let end = make_and_run(alloc, &mut session, run, files, input, output, errors);
            drop(session);
            end
        }
        Err(_) => no_memory(errors),
    }
}

// Makes the file of the channel, if that is one, and runs a session.
fn make_and_run<F: Files, I: Source, O: Sink, E: Sink>(
    alloc: Global,
    session: &mut Session,
    run: Run,
    files: &mut F,
    input: &mut I,
    output: &mut O,
    errors: &mut E,
) -> Status
    requires apart { are_one (from_of run) (to_of run) ≡ false }
    ensures ends { HoldsSince F.Files I.Source O.Sink E.Sink (from_of run.entry) (to_of run.entry)
        (call files.old input.old output.old errors.old)
        (call files.new input.new output.new errors.new)
        (λ o. HasRunBegun run.entry session.old o result) }
    ensures kept { IsTrue F.told →
        KeptBut (to_of run.entry) (F.contents files.old) (F.contents files.new) }
{
    match make_channel(run.output, files) {
        Put::Done => run_session(alloc, session, run, files, input, output, errors),
        Put::Failed => say(errors, b"acute: write fault\n", Status::WRITE_FAULT),
        Put::Memory => no_memory(errors),
    }
}

// Makes the file of a channel empty, if the channel is one.
fn make_channel<F: Files>(to: Option<Channel>, files: &mut F) -> Put
    ensures makes { MakesFile (option_map channel_of to.entry) F.told result
        (seen F.Files files.old) (seen F.Files files.new) }
    ensures touches { Makes F.Files (option_map channel_of to.entry) files.old files.new }
{
    match to {
        Some(Channel::File(name)) => files.create(name),
        Some(Channel::Standard) | None => Put::Done,
    }
}

// Runs a session, and says how it has ended.
fn run_session<F: Files, I: Source, O: Sink, E: Sink>(
    alloc: Global,
    session: &mut Session,
    run: Run,
    files: &mut F,
    input: &mut I,
    output: &mut O,
    errors: &mut E,
) -> Status
    requires apart { are_one (from_of run) (to_of run) ≡ false }
    ensures ends { (start : FilesSeen) →
        Prepared F.told (to_of run.entry) start (seen F.Files files.old) →
        HasRunBegun run.entry session.old (handed_since F.Files I.Source O.Sink E.Sink start
        (call files.old input.old output.old errors.old)
        (call files.new input.new output.new errors.new) InRun) result }
    ensures kept { IsTrue F.told →
        KeptBut (to_of run.entry) (F.contents files.old) (F.contents files.new) }
    ensures idle { NotStandard (from_of run.entry) → input.new ≡ input.old }
    ensures only { NoFile (from_of run.entry) → NoFile (to_of run.entry) →
        files.new ≡ files.old }
    ensures uses { UsesFiles F.Files (from_of run.entry) (to_of run.entry) files.old files.new }
{
    let (from, to) = (run.input, run.output);
    match run_among(alloc, session, from, to, files, input, output, errors) {
        RunEnd::Finished => Status::FINISHED,
        RunEnd::Uncaught(exn) => tell_uncaught(alloc, &exn, errors),
        RunEnd::Spent { steps } => tell_spent(alloc, steps, errors),
        RunEnd::ReadFault => say(errors, b"acute: read fault\n", Status::READ_FAULT),
        RunEnd::WriteFault => say(errors, b"acute: write fault\n", Status::WRITE_FAULT),
        RunEnd::Memory => no_memory(errors),
    }
}

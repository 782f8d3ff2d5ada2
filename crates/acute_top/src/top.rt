// The top call: what the words ask for, from files and input to output.
ghost use Rattle.std.specs.Prelude.{◌≡◌, Some, IsTrue, false};
ghost use Rattle.acute_words.specs.Commands.{command_of, request_of};
ghost use Rattle.acute_top.specs.Channels.{KeptBut};
ghost use Rattle.acute_top.specs.Handed.{call, handed};
ghost use Rattle.acute_pipe.specs.Spawnings.{spawning};
ghost use Rattle.acute_top.specs.Requests.{StartsNone, channel_written};
ghost use Rattle.acute_top.specs.Stages.{Stage, Touches};
ghost use Rattle.acute_top.specs.Endings.{texts, CallEnded};
ghost use Rattle.acute_top.specs.inner.Apart.{IsApart, HasFewPrograms};

use crate::answering::{check_files, make_program, show_file};
use crate::auditing::audit_file;
use crate::chaining::chain_files;
use crate::piping::pipe_files;
use crate::run::run_file;
use crate::saying::{no_memory, refuse_words};
use ac_outside::{Files, Gate, Sink, Source};
use ac_spawn::Spawner;
use acute_answers::{Showing, Status};
use acute_words::{Command, read_words};
use std::alloc::Global;
use std::thread::Threads;

/// Does what the words ask for, which are those after the program's own name. Each piece of parallel
/// work passes the gate.
pub fn acute<R: Threads + Sync, F: Files, I: Source, O: Sink, E: Sink, P: Spawner, G: Gate + Sync>(
    rt: &R,
    alloc: Global,
    words: &[String],
    files: &mut F,
    input: &mut I,
    output: &mut O,
    errors: &mut E,
    spawner: &mut P,
    gate: &G,
) -> Status
    requires idle { (P.child spawner.old).running ≡ false }
    // How the call ends, a row for each way; and which files it has read, in which order, and
    // whether it has read from input, by how far it came.
    ensures ends { (stage : Stage) ×
        Touches F.Files (command_of (texts words.now)) stage files.old files.new input.old input.new ×
        CallEnded (command_of (texts words.now)) (handed F.Files I.Source O.Sink E.Sink
        (call files.old input.old output.old errors.old)
        (call files.new input.new output.new errors.new) stage)
        (spawning P.Spawner spawner.old spawner.new) result }
    // No file is created or changed but that of the channel to which the run sends.
    ensures kept { IsTrue F.told → KeptBut (channel_written (command_of (texts words.now)))
        (F.contents files.old) (F.contents files.new) }
    // No child runs at the end, and only a pipe starts one.
    ensures idle { (P.child spawner.new).running ≡ false }
    ensures unspawned { StartsNone (command_of (texts words.now)) → spawner.new ≡ spawner.old }
{
    match read_words(alloc, words) {
        Ok(Some(command)) => {
            obey(
                rt, alloc, command, files, input, output, errors, spawner, gate,
            )
        }
        Ok(None) => refuse_words(errors),
        Err(_) => no_memory(errors),
    }
}

// Does what a command asks for.
fn obey<R: Threads + Sync, F: Files, I: Source, O: Sink, E: Sink, P: Spawner, G: Gate + Sync>(
    rt: &R,
    alloc: Global,
    command: Command,
    files: &mut F,
    input: &mut I,
    output: &mut O,
    errors: &mut E,
    spawner: &mut P,
    gate: &G,
) -> Status
    requires idle { (P.child spawner.old).running ≡ false }
    requires apart { IsApart (request_of command) }
    requires short { HasFewPrograms (request_of command) }
    ensures ends { (stage : Stage) ×
        Touches F.Files (Some (request_of command.entry)) stage files.old files.new
        input.old input.new ×
        CallEnded (Some (request_of command.entry)) (handed F.Files I.Source O.Sink E.Sink
        (call files.old input.old output.old errors.old)
        (call files.new input.new output.new errors.new) stage)
        (spawning P.Spawner spawner.old spawner.new) result }
    ensures kept { IsTrue F.told → KeptBut (channel_written (Some (request_of command.entry)))
        (F.contents files.old) (F.contents files.new) }
    ensures idle { (P.child spawner.new).running ≡ false }
    ensures unspawned { StartsNone (Some (request_of command.entry)) →
        spawner.new ≡ spawner.old }
{
    match command {
        Command::Run(run) => run_file(alloc, run, files, input, output, errors),
        Command::Names(program) => {
            show_file(alloc, Showing::Names, program, files, output, errors)
        }
        Command::Code(program) => show_file(alloc, Showing::Code, program, files, output, errors),
        Command::Make(program) => make_program(alloc, program, output, errors),
        Command::Check(texts) => {
            let names = texts.files.as_slice();
            check_files(rt, alloc, names, texts.shelf, files, output, errors, gate)
        }
        Command::Chain(chain) => {
            let programs = chain.files.as_slice();
            chain_files(
                alloc,
                programs,
                chain.shelf,
                chain.steps,
                files,
                output,
                errors,
            )
        }
        Command::Audit(audit) => audit_file(rt, alloc, audit, files, output, errors, gate),
        Command::Pipe(pipe) => pipe_files(alloc, pipe, files, output, errors, spawner),
    }
}

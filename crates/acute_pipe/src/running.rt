// A sender that is started, and a receiver that is run, as a request says.
ghost use Rattle.std.specs.Prelude.{◌≡◌, ◌≤◌, ◌&&◌, false, List};
ghost use Rattle.ac_types.specs.ReadTypes.{typ_of};
ghost use Rattle.ac_types.specs.Types.{Bytes};
ghost use Rattle.ac_terms.specs.Read.{environment_of, expr_of};
ghost use Rattle.ac_meaning.specs.Loads.{IsLoaded};
ghost use Rattle.ac_load_rules.specs.Accepting.{Shelved};
ghost use Rattle.ac_load.specs.Loading.{Loads};
ghost use Rattle.ac_outside.specs.Outside.{Rose};
ghost use Rattle.ac_pipe.specs.PipeEnds.{HasNotRun, IfRan};
ghost use Rattle.acute_pipe.specs.Receivers.{HasReceivedBy};
ghost use Rattle.acute_pipe.specs.Senders.{words_for};
ghost use Rattle.acute_pipe.specs.Spawnings.{PipesSo, spawning};

use crate::words::started_words;
use ac_outside::Sink;
use ac_pipe::{PipeEnd, pipe};
use ac_rules::Loaded;
use ac_run::RunEnd;
use ac_spawn::Spawner;
use acute_words::Pipe;
use std::alloc::Global;

/// Starts the tool of a pipe as its sender, and runs the receiver, which is loaded, on what that
/// sends.
pub fn run_pipe<P: Spawner, O: Sink>(
    alloc: Global,
    asked: Pipe,
    receiver: Loaded,
    spawner: &mut P,
    console: &mut O,
) -> PipeEnd
    requires idle { (P.child spawner.old).running ≡ false }
    requires loaded { IsLoaded (environment_of receiver.env) (expr_of receiver.main)
        (typ_of receiver.ty) }
    ensures idle { (P.child spawner.new).running ≡ false }
    // What was started and taken, what the console has, and what failed, by how it ended.
    ensures child { PipesSo (spawning P.Spawner spawner.old spawner.new) (words_for asked.entry)
        result }
    ensures unprinted { HasNotRun result → console.new ≡ console.old }
    ensures ran { (text : Bytes) (shelf : List Shelved) → Loads text shelf
        (environment_of receiver.env) (expr_of receiver.main)
        (typ_of receiver.ty) → IfRan result (λ end rest_failed sender.
        HasReceivedBy (P.told && O.told) (P.child spawner.old).left text shelf asked.entry.steps end
        (O.written console.old) (O.written console.new)) }
    ensures cause_write { IfRan result (λ end rest_failed sender. end ≡ RunEnd.WriteFault →
        Rose (O.faults console.old) (O.faults console.new)) }
    ensures later { O.faults console.old ≤ O.faults console.new }
{
    match started_words(alloc, asked) {
        Ok(words) => pipe(
            alloc,
            words.as_slice(),
            receiver,
            asked.steps,
            spawner,
            console,
        ),
        Err(_) => PipeEnd::Memory,
    }
}

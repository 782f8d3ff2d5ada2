// A sender that is started, and a receiver that is run on what it sends.
ghost use Rattle.std.specs.Prelude.{◌≡◌, ◌≤◌, ◌&&◌, false, IsTrue, map, string_bytes};
ghost use Rattle.ac_types.specs.ReadTypes.{typ_of};
ghost use Rattle.ac_terms.specs.Read.{environment_of, expr_of};
ghost use Rattle.ac_meaning.specs.Loads.{IsLoaded};
ghost use Rattle.ac_outside.specs.Outside.{Rose};
ghost use Rattle.ac_spawn.specs.Children.{EndsWith};
ghost use Rattle.ac_pipe.specs.Draining.{IsDrained};
ghost use Rattle.ac_pipe.specs.PipeEnds.{HasNotRun, IfRan, IsReadFault, with_pipe};
ghost use Rattle.ac_pipe.specs.Receives.{ReceivesTo};

use crate::draining::drain;
use crate::end::PipeEnd;
use crate::receiving::run_on_child;
use ac_outside::{Put, Sink};
use ac_rules::Loaded;
use ac_run::{RunEnd, Session};
use ac_spawn::Spawner;
use std::alloc::Global;

/// Starts a child by these words, and runs a program on the frames that it gives, which may make so
/// many applications, and has no channel to send to. What the child gives behind the program's end is
/// read and dropped, up to 67,108,864 bytes, and then the child is waited for. It takes all memory
/// but that of the run before the start.
pub fn pipe<P: Spawner, O: Sink>(
    alloc: Global,
    words: &[String],
    receiver: Loaded,
    steps: u64,
    spawner: &mut P,
    console: &mut O,
) -> PipeEnd
    requires idle { (P.child spawner.old).running ≡ false }
    requires loaded { IsLoaded (environment_of receiver.env) (expr_of receiver.main)
        (typ_of receiver.ty) }
    // No child runs at the end.
    ensures idle { (P.child spawner.new).running ≡ false }
    // What was started: nothing where memory ran out before, and else just these words.
    ensures started { IsTrue P.told → (P.child spawner.new).started ≡
        with_pipe result (map string_bytes words.now) (P.child spawner.old).started }
    ensures status { IsTrue P.told → (P.child spawner.new).status ≡ (P.child spawner.old).status }
    // Where no child has run, nothing was taken of it, and nothing printed.
    ensures unprinted { HasNotRun result → console.new ≡ console.old }
    ensures untaken { HasNotRun result → IsTrue P.told →
        (P.child spawner.new).left ≡ (P.child spawner.old).left }
    ensures cause_start { result ≡ PipeEnd.StartFault →
        Rose (P.child spawner.old).start_faults (P.child spawner.new).start_faults }
    // Where one has, the receiver ends as its reduction does with the child's bytes, in each mode.
    ensures ran { IfRan result (λ end rest_failed sender. ReceivesTo (P.told && O.told)
        (P.child spawner.old).left receiver steps end
        (O.written console.old) (O.written console.new)) }
    ensures cause_write { IfRan result (λ end rest_failed sender. end ≡ RunEnd.WriteFault →
        Rose (O.faults console.old) (O.faults console.new)) }
    ensures cause_read { IfRan result (λ end rest_failed sender.
        IsReadFault end rest_failed sender →
        Rose (P.child spawner.old).read_faults (P.child spawner.new).read_faults) }
    // The child's status is the one that is told.
    ensures sender { IfRan result (λ end rest_failed sender. IsTrue P.told →
        EndsWith sender (P.child spawner.old).status) }
    // Where no read failed, nothing is left of what it gives, or that much was taken of it.
    ensures drained { IfRan result (λ end rest_failed sender. IsTrue P.told →
        (Rose (P.child spawner.old).read_faults (P.child spawner.new).read_faults → ⊥) →
        IsDrained (P.child spawner.old).left (P.child spawner.new).left) }
    ensures later { O.faults console.old ≤ O.faults console.new }
    ensures later_starts { (P.child spawner.old).start_faults ≤ (P.child spawner.new).start_faults }
    ensures later_reads { (P.child spawner.old).read_faults ≤ (P.child spawner.new).read_faults }
{
    let Ok(mut session) = Session::new(alloc, receiver, steps, false) else {
        return PipeEnd::Memory;
    };
    match spawner.start(words) {
        Put::Done => {}
        Put::Failed => return PipeEnd::StartFault,
        Put::Memory => return PipeEnd::Memory,
    }
    let end = run_on_child(&mut session, spawner, console);
    drop(session);
    let rest_failed = drain(spawner);
    let sender = spawner.finish();
    PipeEnd::Ran {
        end,
        rest_failed,
        sender,
    }
}

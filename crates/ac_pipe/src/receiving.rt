// A program that is run on the frames of a child.
ghost use Rattle.std.specs.Prelude.{◌≡◌, ◌≤◌, ◌&&◌, ℕ, ℤ, [], List, None, pos, IsTrue, true, length};
ghost use native.Mathlib.Omega.{arith};
ghost use Rattle.ac_outside.specs.Outside.{Rose};
ghost use Rattle.ac_pipe.specs.inner.Received.{HasReceived};

use ac_outside::{Got, Put, Sink, Source, World};
use ac_run::{RunEnd, Session};
use ac_spawn::Spawner;
use std::marker::{Brand, PhantomData};

// What stays the same in a run, for the proof alone: a call at `Brand` picks it.
trait Fixed {
    // The names of the references.
    ghost spawner: { ℕ };

    ghost console: { ℕ };
    // What was started, the child's status, and what it had left and was counted at first.
    ghost started: { List (List (List ℕ)) };

    ghost status: { ℤ };

    ghost left: { List ℕ };

    ghost start_faults: { ℕ };

    ghost read_faults: { ℕ };

    ghost console_faults: { ℕ };
}

impl Fixed for Brand {
    ghost spawner = { 0 };

    ghost console = { 0 };

    ghost started = { [] };

    ghost status = { pos 0 };

    ghost left = { [] };

    ghost start_faults = { 0 };

    ghost read_faults = { 0 };

    ghost console_faults = { 0 };
}

// The world of a receiver: it reads what the child gives, and prints on the console.
#[derive(Drop)]
struct Receiving<'a, P: Spawner, O: Sink, K: Fixed> {
    spawner: &'a mut P,
    console: &'a mut O,
    fixed: PhantomData<K>,
    ghost same_spawner: { spawner.ghost_name ≡ K.spawner },
    ghost same_console: { console.ghost_name ≡ K.console },
    ghost running: { (P.child spawner.now).running ≡ true },
    ghost started: { IsTrue P.told → (P.child spawner.now).started ≡ K.started },
    ghost status: { IsTrue P.told → (P.child spawner.now).status ≡ K.status },
    ghost shorter: { IsTrue P.told → length (P.child spawner.now).left ≤ length K.left },
    ghost later: { K.start_faults ≤ (P.child spawner.now).start_faults },
    ghost later_reads: { K.read_faults ≤ (P.child spawner.now).read_faults },
    ghost later_writes: { K.console_faults ≤ O.faults console.now },
}

impl<P: Spawner, O: Sink, K: Fixed> Source for Receiving<'_, P, O, K> {
    ghost use Rattle.std.proofs.Common.{refl, ◌∙◌};

    ghost told = { P.told && O.told };

    ghost left = { λ s. (P.child s.spawner.now).left };

    ghost read_faults = { λ s. (P.child s.spawner.now).read_faults };

    ghost passes = { λ a b. b.console.now ≡ a.console.now };

    fn read(&mut self, buf: &mut [u8]) -> Got {
        self.spawner.read(buf)
    }

    ghost passes_none = { λ _. refl };

    ghost passes_on = { λ _ _ _ first second. second ∙ first };
}

impl<P: Spawner, O: Sink, K: Fixed> World for Receiving<'_, P, O, K> {
    ghost use Rattle.std.proofs.Common.{refl, sym, ap, subst, arith};

    ghost console = { λ s. O.written s.console.now };

    ghost channel = { λ _. [] };

    ghost write_faults = { λ s. O.faults s.console.now };

    ghost read_leaves = { λ _ _ same told. (ap O.written same, refl) };

    ghost read_keeps = { λ a _ same. subst (λ x. O.faults a.console.now ≤ O.faults x) (sym same)
        (omega arith) };

    fn print(&mut self, bytes: &[u8]) -> Put {
        self.console.write(bytes)
    }

    // No session without a channel sends.
    fn send(&mut self, _bytes: &[u8]) -> Put {
        Put::Memory
    }
}

/// Runs a session that has no channel to send to: it receives what the child gives.
pub fn run_on_child<P: Spawner, O: Sink>(
    session: &mut Session,
    spawner: &mut P,
    console: &mut O,
) -> RunEnd
    requires { (P.child spawner.old).running ≡ true }
    ensures running { (P.child spawner.new).running ≡ true }
    ensures ends { session.old.end ≡ None → HasReceived (P.told && O.told)
        (P.child spawner.old).left session.old session.new result
        (O.written console.old) (O.written console.new) }
    ensures cause { session.old.end ≡ None → result ≡ RunEnd.WriteFault →
        Rose (O.faults console.old) (O.faults console.new) }
    ensures cause_read { session.old.end ≡ None → result ≡ RunEnd.ReadFault →
        Rose (P.child spawner.old).read_faults (P.child spawner.new).read_faults }
    ensures started { IsTrue P.told →
        (P.child spawner.new).started ≡ (P.child spawner.old).started }
    ensures status { IsTrue P.told → (P.child spawner.new).status ≡ (P.child spawner.old).status }
    ensures shorter { IsTrue P.told →
        length (P.child spawner.new).left ≤ length (P.child spawner.old).left }
    ensures later { (P.child spawner.old).start_faults ≤ (P.child spawner.new).start_faults }
    ensures later_reads { (P.child spawner.old).read_faults ≤ (P.child spawner.new).read_faults }
    ensures later_writes { O.faults console.old ≤ O.faults console.new }
{
    let mut end = RunEnd::Memory;
    // the references that it gives back are for the proof alone
    let _ = run_at::<P, O, Brand>(session, spawner, console, &mut end);
    end
}

// Runs it over references of these names, and gives them back. The end is written to a place of its
// own: in one tuple with them, what it owns would hide what becomes of them.
fn run_at<'a, P: Spawner, O: Sink, K: Fixed>(
    session: &mut Session,
    spawner: &'a mut P,
    console: &'a mut O,
    end: &mut RunEnd,
) -> (&'a mut P, &'a mut O)
    requires same_spawner { spawner.ghost_name ≡ K.spawner }
    requires same_console { console.ghost_name ≡ K.console }
    requires running { (P.child spawner.now).running ≡ true }
    requires started { (P.child spawner.now).started ≡ K.started }
    requires status { (P.child spawner.now).status ≡ K.status }
    requires left { (P.child spawner.now).left ≡ K.left }
    requires start_faults { (P.child spawner.now).start_faults ≡ K.start_faults }
    requires read_faults { (P.child spawner.now).read_faults ≡ K.read_faults }
    requires console_faults { O.faults console.now ≡ K.console_faults }
    ensures running { (P.child result.0.now).running ≡ true }
    ensures ends { session.old.end ≡ None → HasReceived (P.told && O.told) K.left
        session.old session.new end.new (O.written console.entry.now) (O.written result.1.now) }
    ensures cause { session.old.end ≡ None → end.new ≡ RunEnd.WriteFault →
        Rose K.console_faults (O.faults result.1.now) }
    ensures cause_read { session.old.end ≡ None → end.new ≡ RunEnd.ReadFault →
        Rose K.read_faults (P.child result.0.now).read_faults }
    ensures started { IsTrue P.told → (P.child result.0.now).started ≡ K.started }
    ensures status { IsTrue P.told → (P.child result.0.now).status ≡ K.status }
    ensures shorter { IsTrue P.told → length (P.child result.0.now).left ≤ length K.left }
    ensures later { K.start_faults ≤ (P.child result.0.now).start_faults }
    ensures later_reads { K.read_faults ≤ (P.child result.0.now).read_faults }
    ensures later_writes { K.console_faults ≤ O.faults result.1.now }
    ensures same_spawner { result.0.ghost_name ≡ spawner.entry.ghost_name }
    ensures same_console { result.1.ghost_name ≡ console.entry.ghost_name }
{
    let mut world = Receiving::<P, O, K> {
        spawner,
        console,
        fixed: PhantomData,
    };
    *end = session.run(&mut world);
    let Receiving {
        spawner,
        console,
        fixed: _,
    } = world;
    (spawner, console)
}

// The run of a program of a chain.

ghost use Rattle.std.specs.Prelude.{◌≡◌, ◌≤◌, [], None, Ok, IfOk, IfErr, OnOk, OnErr, IsErrOf};
ghost use Rattle.ac_types.specs.ReadTypes.{typ_of};
ghost use Rattle.ac_terms.specs.Read.{environment_of, expr_of};
ghost use Rattle.ac_rules.specs.Views.{Mode};
ghost use Rattle.ac_outside.specs.Outside.{Rose};
ghost use Rattle.ac_meaning.specs.Loads.{IsLoaded};
ghost use Rattle.ac_run.specs.Sessions.{streams};
ghost use Rattle.ac_chain.specs.inner.Running.{Ran, RanTo, RanSomewhere, HasRunOn, HasStoppedOn, IsRunFault, whole_end};
ghost use Rattle.ac_chain.specs.inner.Made.{NativeBy, MadeBy};

use crate::chained::{ChainFault, ChainPart};
use crate::made::{Made, natives};
use crate::world::{Fixed, Linked};
use ac_outside::Sink;
use ac_rules::Loaded;
use ac_run::{Crossing, RunEnd, Session};
use ac_types::Text;
use std::alloc::Global;
use std::marker::{Brand, PhantomData};

/// Runs a program that has these bytes to read and a channel to send to, and adds to the strings
/// that were made.
pub fn run_program<C: Sink>(
    alloc: Global,
    program: Loaded,
    steps: u64,
    input: &[u8],
    made: &mut Made,
    console: &mut C,
) -> Result<ChainPart, ChainFault>
    requires { IsLoaded (environment_of program.env) (expr_of program.main) (typ_of program.ty) }
    ensures ran { IfOk result (λ part. (mode : Mode) → HasRunOn mode steps C.told
        (environment_of program.env, expr_of program.main) input.now part made.old made.new
        (C.written console.old) (C.written console.new)) }
    ensures stopped { OnErr result ((mode : Mode) → HasStoppedOn mode steps C.told
        (environment_of program.env, expr_of program.main) input.now
        (C.written console.old) (C.written console.new)) }
    ensures fault { IfErr result IsRunFault }
    ensures cause { IsErrOf result ChainFault.WriteFault →
        Rose (C.faults console.old) (C.faults console.new) }
    ensures later { C.faults console.old ≤ C.faults console.new }
{
    match Session::journalled(alloc, program, steps, true) {
        Ok(mut session) => {
            let part = run_session(alloc, &mut session, input, made, console);
            drop(session);
            part
        }
        Err(_) => Err(ChainFault::Memory),
    }
}

// Runs a session that keeps a journal.
fn run_session<C: Sink>(
    alloc: Global,
    session: &mut Session,
    input: &[u8],
    made: &mut Made,
    console: &mut C,
) -> Result<ChainPart, ChainFault>
    requires { session.old.end ≡ None }
    ensures ran { IfOk result (λ part. RanTo C.told session.old session.new input.now part made.old
        made.new (C.written console.old) (C.written console.new)) }
    ensures stopped { OnErr result (RanSomewhere C.told session.old session.new input.now
        (C.written console.old) (C.written console.new)) }
    ensures fault { IfErr result IsRunFault }
    ensures cause { IsErrOf result ChainFault.WriteFault →
        Rose (C.faults console.old) (C.faults console.new) }
    ensures later { C.faults console.old ≤ C.faults console.new }
{
    let mut sent = Text::new(alloc);
    let end = run_linked(alloc, session, input, console, &mut sent);
    part(alloc, end, sent, session.journal().as_slice(), made)
}

// Runs a session, and gives its end; the frames that it sends are put in the place of a text.
fn run_linked<C: Sink>(
    alloc: Global,
    session: &mut Session,
    input: &[u8],
    console: &mut C,
    sent: &mut Text,
) -> RunEnd
    ensures ends { session.old.end ≡ None → Ran C.told session.old session.new input.now result
        (streams (C.written console.old) []) (streams (C.written console.new) sent.new.0) }
    ensures read { session.old.end ≡ None → result ≡ RunEnd.ReadFault → ⊥ }
    ensures cause { session.old.end ≡ None → result ≡ RunEnd.WriteFault →
        Rose (C.faults console.old) (C.faults console.new) }
    ensures later { C.faults console.old ≤ C.faults console.new }
{
    let mut end = RunEnd::Memory;
    // the references that it gives back are for the proof alone
    let _ = run_at::<C, Brand>(alloc, session, input, console, &mut end, sent);
    end
}

// Runs a session with a console of this name, and gives it back. End and frames are written to
// places of their own: in one tuple with the console, what they own would hide what becomes of it.
fn run_at<'a, C: Sink, K: Fixed>(
    alloc: Global,
    session: &mut Session,
    input: &'a [u8],
    console: &'a mut C,
    end: &mut RunEnd,
    sent: &mut Text,
) -> &'a mut C
    requires { console.ghost_name ≡ K.console }
    ensures ends { session.old.end ≡ None → Ran C.told session.old session.new
        input.now end.new (streams (C.written console.entry.now) [])
        (streams (C.written result.now) sent.new.0) }
    ensures read { session.old.end ≡ None → end.new ≡ RunEnd.ReadFault → ⊥ }
    ensures cause { session.old.end ≡ None → end.new ≡ RunEnd.WriteFault →
        Rose (C.faults console.entry.now) (C.faults result.now) }
    ensures later { C.faults console.entry.now ≤ C.faults result.now }
    ensures same_console { result.ghost_name ≡ console.entry.ghost_name }
{
    let mut world = Linked::<C, K> {
        input,
        sent: Text::new(alloc),
        console,
        fixed: PhantomData,
    };
    *end = session.run(&mut world);
    let Linked {
        input: _,
        sent: frames,
        console,
        fixed: _,
    } = world;
    *sent = frames;
    console
}

// The end of a run that has come to its end, or the fault of one that hasn't.
fn whole(end: RunEnd) -> Result<RunEnd, ChainFault>
    requires { end ≡ RunEnd.ReadFault → ⊥ }
    ensures { result ≡ whole_end end }
{
    match end {
        RunEnd::Finished => Ok(RunEnd::Finished),
        RunEnd::Uncaught(exn) => Ok(RunEnd::Uncaught(exn)),
        RunEnd::Spent { steps } => Ok(RunEnd::Spent { steps }),
        RunEnd::ReadFault => unreachable!(),
        RunEnd::WriteFault => Err(ChainFault::WriteFault),
        RunEnd::Memory => Err(ChainFault::Memory),
    }
}

// The part of a program whose run has come to this end.
fn part(
    alloc: Global,
    end: RunEnd,
    sent: Text,
    journal: &[Crossing],
    made: &mut Made,
) -> Result<ChainPart, ChainFault>
    requires { end ≡ RunEnd.ReadFault → ⊥ }
    ensures ends { IfOk result (λ p. (whole_end end ≡ Ok p.end) × (p.sent ≡ sent)) }
    ensures native { IfOk result (λ p. NativeBy made.old journal.now p.native) }
    ensures made { OnOk result (MadeBy made.old journal.now made.new) }
    ensures fault { IfErr result IsRunFault }
    ensures cause { IsErrOf result ChainFault.WriteFault → end ≡ RunEnd.WriteFault }
{
    match whole(end) {
        Ok(end) => whole_part(alloc, end, sent, journal, made),
        Err(fault) => Err(fault),
    }
}

// The part of a program that has run to this end.
fn whole_part(
    alloc: Global,
    end: RunEnd,
    sent: Text,
    journal: &[Crossing],
    made: &mut Made,
) -> Result<ChainPart, ChainFault>
    ensures ends { IfOk result (λ p. (p.end ≡ end) × (p.sent ≡ sent)) }
    ensures native { IfOk result (λ p. NativeBy made.old journal.now p.native) }
    ensures made { OnOk result (MadeBy made.old journal.now made.new) }
    ensures fault { IfErr result (λ f. f ≡ ChainFault.Memory) }
{
    match natives(alloc, journal, made) {
        Ok(native) => Ok(ChainPart { end, sent, native }),
        Err(_) => {
            drop(end);
            Err(ChainFault::Memory)
        }
    }
}

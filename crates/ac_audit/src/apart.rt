// The verdicts of some strings, in a thread with a stack of its own.

ghost use Rattle.std.specs.Prelude.{◌≡◌, IfOk, map};
ghost use Rattle.std.specs.Arc.{arc_value};
ghost use Rattle.ac_types.specs.ReadTypes.{typ_of};
ghost use Rattle.ac_terms.specs.Read.{bytes_of, entry_of};
ghost use Rattle.ac_rules.specs.Coherent.{IsCoherent};
ghost use Rattle.ac_audit.specs.FrameVerdicts.{HaveVerdicts};

use crate::pieces::verdicts_in_turn;
use crate::verdict::AuditVerdict;
use ac_terms::{Entry, Env};
use ac_types::{Copies, Many, Memory, Text, Ty};
use std::alloc::Global;
use std::snapshot::Snapshot;
use std::sync::Arc;
use std::thread::{Builder, Promise, Threads};

// The bytes of that stack, whatever the limit of the process.
const STACK: usize = 16 * 1024 * 1024;

// That a thread gives the verdicts of these strings, where it gives any.
#[derive(Drop)]
struct VerdictsOf {
    entries: Snapshot<Arc<Many<Entry>, Global>>,
    frames: Snapshot<Many<Text>>,
    expected: Snapshot<Ty>,
}

impl Promise<Result<Many<AuditVerdict>, Memory>> for VerdictsOf {
    ghost kept_by = { λ p r. IfOk r (λ vs. HaveVerdicts (map entry_of (arc_value p.entries.value))
        (typ_of p.expected.value) (map bytes_of p.frames.value) vs) };
}

/// The verdict of each string, in their order, each by itself, in an environment with these entries.
/// Where no thread can be had they are found in this one.
pub fn verdicts_apart<R: Threads>(
    rt: &R,
    alloc: Global,
    entries: &Arc<Many<Entry>, Global>,
    frames: &[Text],
    expected: &Ty,
) -> Result<Many<AuditVerdict>, Memory>
    requires { IsCoherent (map entry_of (arc_value entries.now)) }
    ensures { IfOk result (λ vs. HaveVerdicts (map entry_of (arc_value entries.now))
        (typ_of expected.now) (map bytes_of frames.now) vs) }
{
    let its = Arc::try_clone(entries)?;
    let texts = copied(alloc, frames)?;
    let ty = expected.copy(alloc)?;
    let promise = VerdictsOf {
        entries: Snapshot::of(&its),
        frames: Snapshot::of(&texts),
        expected: Snapshot::of(&ty),
    };
    let started = Builder::new().stack_size(STACK).spawn_with(
        rt,
        promise,
        move || -> Result<Many<AuditVerdict>, Memory>
            requires { IsCoherent (map entry_of (arc_value its)) }
            ensures { IfOk result (λ vs. HaveVerdicts (map entry_of (arc_value its)) (typ_of ty)
                (map bytes_of texts) vs) }
        { verdicts_here(alloc, &its, texts.as_slice(), &ty) },
    );
    match started {
        Ok(thread) => thread.join(rt),
        Err(_) => verdicts_here(alloc, entries, frames, expected),
    }
}

// The same in this thread, on one environment of its own.
fn verdicts_here(
    alloc: Global,
    entries: &Many<Entry>,
    frames: &[Text],
    expected: &Ty,
) -> Result<Many<AuditVerdict>, Memory>
    requires { IsCoherent (map entry_of entries.now) }
    ensures { IfOk result (λ vs. HaveVerdicts (map entry_of entries.now) (typ_of expected.now)
        (map bytes_of frames.now) vs) }
{
    let mut env = env_of(alloc, entries.as_slice())?;
    verdicts_in_turn(alloc, &mut env, frames, expected)
}

// An environment with copies of these entries.
fn env_of(alloc: Global, entries: &[Entry]) -> Result<Env, Memory>
    ensures { IfOk result (λ env. env.entries ≡ entries.now) }
{
    let mut env = Env::new(alloc);
    for entry in entries {
        env.push(entry.copy(alloc)?)?;
    }
    Ok(env)
}

/// Copies of these.
pub fn copied<T: Copies>(alloc: Global, items: &[T]) -> Result<Many<T>, Memory>
    ensures { IfOk result (λ copies. copies ≡ items.now) }
{
    let mut copies = Many::new(alloc);
    for item in items {
        copies.push(item.copied(alloc)?)?;
    }
    Ok(copies)
}

// The verdicts of all strings of a channel, in parallel.

ghost use Rattle.std.specs.Prelude.{◌<◌, IfOk, map};
ghost use Rattle.std.specs.Arc.{arc_value};
ghost use Rattle.ac_types.specs.ReadTypes.{typ_of};
ghost use Rattle.ac_terms.specs.Read.{bytes_of, entry_of, environment_of};
ghost use Rattle.ac_rules.specs.Coherent.{IsCoherent};
ghost use Rattle.ac_audit.specs.FrameVerdicts.{HaveVerdicts};

use crate::apart::{copied, verdicts_apart};
use crate::pieces::joined;
use crate::verdict::AuditVerdict;
use ac_outside::Gate;
use ac_terms::{Entry, Env};
use ac_types::{Many, Memory, Text, Ty};
use std::alloc::Global;
use std::sync::Arc;
use std::thread;
use std::thread::Threads;

// There are at most so many pieces.
const MOST_PIECES: usize = 16;

/// The verdict of each string at the expected type, in their order, each by itself: whether it is
/// accepted in the environment as it is, or the first cause that refuses it. The strings are cut into
/// at most 16 pieces of neighbours. A piece is between one `enter` and one `leave` of its number, from
/// 0. `Err` for want of memory in any piece.
pub fn audit_all<R: Threads + Sync, G: Gate + Sync>(
    rt: &R,
    alloc: Global,
    env: &Env,
    frames: &Many<Text>,
    expected: &Ty,
    gate: &G,
) -> Result<Many<AuditVerdict>, Memory>
    requires { IsCoherent (environment_of env.now) }
    ensures { IfOk result (λ vs. HaveVerdicts (environment_of env.now) (typ_of expected.now)
        (map bytes_of frames.now) vs) }
{
    let entries = &Arc::new(alloc, copied(alloc, env.entries())?)?;
    let frames = frames.as_slice();
    let size = frames.len().div_ceil(MOST_PIECES).max(1);
    let pieces = thread::map_chunks(
        rt,
        alloc,
        frames,
        size,
        &|start: usize, chunk: &[Text]| -> Result<Many<AuditVerdict>, Memory>
            requires coherent { IsCoherent (map entry_of (arc_value entries.now)) }
            requires some { 0 < size }
            ensures { IfOk result (λ vs. HaveVerdicts (map entry_of (arc_value entries.entry.now))
                (typ_of expected.entry.now) (map bytes_of chunk.now) vs) }
        { piece(rt, alloc, entries, chunk, expected, gate, start / size) },
    )?;
    joined(alloc, pieces)
}

// The verdicts of piece `i`, between the gate's `enter` and `leave` of this number.
fn piece<R: Threads, G: Gate>(
    rt: &R,
    alloc: Global,
    entries: &Arc<Many<Entry>, Global>,
    frames: &[Text],
    expected: &Ty,
    gate: &G,
    i: usize,
) -> Result<Many<AuditVerdict>, Memory>
    requires { IsCoherent (map entry_of (arc_value entries.now)) }
    ensures { IfOk result (λ vs. HaveVerdicts (map entry_of (arc_value entries.now))
        (typ_of expected.now) (map bytes_of frames.now) vs) }
{
    gate.enter(i);
    let found = verdicts_apart(rt, alloc, entries, frames, expected);
    gate.leave(i);
    found
}

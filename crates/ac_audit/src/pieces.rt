// Strings that are judged one after another, and what several threads give, joined.

ghost use Rattle.std.specs.Prelude.{◌≡◌, IfOk, Some, map};
ghost use Rattle.ac_types.specs.ReadTypes.{typ_of};
ghost use Rattle.ac_terms.specs.Read.{bytes_of, environment_of};
ghost use Rattle.ac_rules.specs.Coherent.{IsCoherent};
ghost use Rattle.ac_audit.specs.FrameVerdicts.{HaveVerdicts};
ghost use Rattle.ac_audit.specs.inner.Pieces.{joined};

use crate::verdict::{AuditVerdict, frame_verdict};
use ac_terms::Env;
use ac_types::{Many, Memory, Text, Ty};
use std::alloc::Global;

/// The verdict of each string, in their order, each by itself. They are judged in one environment,
/// which keeps the entries that it had.
pub fn verdicts_in_turn(
    alloc: Global,
    env: &mut Env,
    frames: &[Text],
    expected: &Ty,
) -> Result<Many<AuditVerdict>, Memory>
    requires { IsCoherent (environment_of env.old) }
    ensures { IfOk result (λ vs. HaveVerdicts (environment_of env.old) (typ_of expected.now)
        (map bytes_of frames.now) vs) }
{
    let mut all = Many::new(alloc);
    for frame in frames {
        let verdict = frame_verdict(alloc, env, frame.as_slice(), expected)?;
        all.push(verdict)?;
    }
    Ok(all)
}

/// The verdicts of all pieces, one piece behind another.
pub fn joined(
    alloc: Global,
    pieces: Vec<Result<Many<AuditVerdict>, Memory>>,
) -> Result<Many<AuditVerdict>, Memory>
    ensures { IfOk result (λ vs. joined pieces.items ≡ Some vs) }
{
    let mut all = Vec::new(alloc);
    for piece in pieces {
        let mut more = piece?.into_vec();
        all.append(&mut more)?;
    }
    Ok(Many::from_vec(all))
}

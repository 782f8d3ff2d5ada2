// What is wrong with trees together, where memory served for each.

ghost use Rattle.std.specs.Prelude.{IfOk};
ghost use Rattle.ac_resolve_faults.specs.inner.Joining.{Joins, JoinsBehind};

use ac_resolve_signatures::Flaws;
use ac_types::Memory;

/// What is wrong with two trees together, where memory served for both.
pub fn join_results(a: Result<Flaws, Memory>, b: Result<Flaws, Memory>) -> Result<Flaws, Memory>
    ensures { IfOk result (λ f. Joins a b f) }
{
    let a = a?;
    let b = b?;
    Ok(a.join(b))
}

/// What is wrong with a tree by itself and with its parts.
pub fn behind(here: Flaws, parts: Result<Flaws, Memory>) -> Result<Flaws, Memory>
    ensures { IfOk result (λ f. JoinsBehind here parts f) }
{
    let parts = parts?;
    Ok(here.join(parts))
}

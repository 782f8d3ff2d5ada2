// How many variables a pattern binds.

ghost use Rattle.std.specs.Prelude.{◌≡◌, ◌+◌, IfOk, map};
ghost use Rattle.ac_terms.specs.Terms.{patterns};
ghost use Rattle.ac_terms.specs.Read.{pattern_of};
ghost use Rattle.ac_meaning.specs.Substitution.{binders, all_binders};

use ac_terms::Pat;
use ac_types::Memory;

/// How many variables a pattern binds. `Err` only where that is more than a machine can count.
#[cycle(binders)]
#[tactic(auto, using(crate::proofs::FormLaws::pattern_laws))]
pub fn binders(pat: &Pat) -> Result<usize, Memory>
    ensures { IfOk result (λ n. n ≡ binders (pattern_of pat.now)) }
{
    match pat {
        Pat::Var(_) => Ok(1),
        Pat::Tuple(parts) => all_binders(parts.as_slice()),
        Pat::Cons(head, tail) => {
            let first = binders(head)?;
            let second = binders(tail)?;
            sum(first, second)
        }
        Pat::Present(inner) => binders(inner),
        Pat::ExnOf(_, inner) => binders(inner),
        Pat::Exn(_) => Ok(0),
        Pat::Wild => Ok(0),
        Pat::Int(_) => Ok(0),
        Pat::Bool(_) => Ok(0),
        Pat::Str(_) => Ok(0),
        Pat::Unit => Ok(0),
        Pat::Nil => Ok(0),
        Pat::Absent => Ok(0),
    }
}

#[cycle(binders)]
#[tactic(auto, using(crate::proofs::FormLaws::pattern_laws))]
fn all_binders(pats: &[Pat]) -> Result<usize, Memory>
    ensures { IfOk result (λ n. n ≡ all_binders (patterns (map pattern_of pats.now))) }
{
    let mut count = 0;
    for pat in pats {
        count = sum(count, binders(pat)?)?;
    }
    Ok(count)
}

/// The sum, where a machine can count it.
pub fn sum(a: usize, b: usize) -> Result<usize, Memory>
    ensures { IfOk result (λ n. n ≡ a + b) }
{
    a.checked_add(b).ok_or(Memory)
}

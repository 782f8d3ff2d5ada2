// Whether the types of patterns' variables pass a test.

ghost use Rattle.std.specs.Prelude.{◌≡◌, map};
ghost use Rattle.std.specs.List.{list_all};
ghost use Rattle.ac_types.specs.Types.{Typ};
ghost use Rattle.ac_terms.specs.Terms.{patterns};
ghost use Rattle.ac_terms.specs.Parts.{OfType, pattern_types, all_pattern_types};
ghost use Rattle.ac_terms.specs.Read.{pattern_of};

use crate::test::Test;
use ac_terms::Pat;
use ac_types::{Boxed, Many};

/// Whether the type of each variable of a pattern passes.
#[cycle(pat)]
pub fn pattern_passes<T: Test>(pat: &Pat, test: &T) -> bool
    ensures { result ≡ list_all (λ (U : Typ). T.passes test.now (OfType U))
        (pattern_types (pattern_of pat.now)) }
{
    match pat {
        Pat::Var(ty) => test.passes_type(ty),
        Pat::Tuple(parts) => patterns_pass(parts, test),
        // `&`, not `&&`: one branch fewer in the proof
        Pat::Cons(head, tail) => boxed_passes(head, test) & boxed_passes(tail, test),
        Pat::Present(inner) => boxed_passes(inner, test),
        Pat::ExnOf(_, text) => boxed_passes(text, test),
        Pat::Exn(_) => true,
        Pat::Wild => true,
        Pat::Int(_) => true,
        Pat::Bool(_) => true,
        Pat::Str(_) => true,
        Pat::Unit => true,
        Pat::Nil => true,
        Pat::Absent => true,
    }
}

// The same in a box.
#[cycle(pat)]
fn boxed_passes<T: Test>(pat: &Boxed<Pat>, test: &T) -> bool
    ensures { result ≡ list_all (λ (U : Typ). T.passes test.now (OfType U))
        (pattern_types (pattern_of pat.now)) }
{
    pattern_passes(pat, test)
}

#[cycle(pat)]
#[tactic(auto, using(crate::proofs::WalkLaws::list_laws))]
fn patterns_pass<T: Test>(pats: &Many<Pat>, test: &T) -> bool
    ensures { result ≡ list_all (λ (U : Typ). T.passes test.now (OfType U))
        (all_pattern_types (patterns (map pattern_of pats.now))) }
{
    for pat in pats.as_slice() {
        if !pattern_passes(pat, test) {
            return false;
        }
    }
    true
}

// What the variables of patterns mention.

ghost use Rattle.std.specs.Prelude.{◌≡◌, map};
ghost use Rattle.ac_terms.specs.Terms.{patterns};
ghost use Rattle.ac_terms.specs.Parts.{pattern_types, all_pattern_types};
ghost use Rattle.ac_terms.specs.Read.{pattern_of};
ghost use Rattle.ac_closure.specs.inner.Chosen.{with_types};
ghost use Rattle.ac_closure.specs.inner.Names.{entry_named};

use crate::names::Names;
use crate::types::add_type;
use ac_terms::Pat;

/// Adds what the types of a pattern's variables mention.
#[cycle(pat)]
#[tactic(auto, using(crate::proofs::WalkLaws::pattern_laws))]
pub fn add_pattern(set: &mut [bool], names: &Names, pat: &Pat)
    ensures { set.new ≡ with_types (entry_named names.now) set.old
        (pattern_types (pattern_of pat.now)) }
{
    match pat {
        Pat::Var(ty) => add_type(set, names, ty),
        Pat::Tuple(parts) => add_patterns(set, names, parts.as_slice()),
        Pat::Cons(head, tail) => {
            add_pattern(set, names, head);
            add_pattern(set, names, tail);
        }
        Pat::Present(inner) => add_pattern(set, names, inner),
        Pat::ExnOf(_, inner) => add_pattern(set, names, inner),
        Pat::Exn(_) => {}
        Pat::Wild => {}
        Pat::Int(_) => {}
        Pat::Bool(_) => {}
        Pat::Str(_) => {}
        Pat::Unit => {}
        Pat::Nil => {}
        Pat::Absent => {}
    }
}

// Adds those of each pattern.
#[cycle(pat)]
#[tactic(auto, using(crate::proofs::WalkLaws::pattern_laws))]
fn add_patterns(set: &mut [bool], names: &Names, pats: &[Pat])
    ensures { set.new ≡ with_types (entry_named names.now) set.old
        (all_pattern_types (patterns (map pattern_of pats.now))) }
{
    for pat in pats {
        add_pattern(set, names, pat);
    }
}

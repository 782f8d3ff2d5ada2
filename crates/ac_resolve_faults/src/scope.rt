// The variables in scope.

ghost use Rattle.std.specs.Prelude.{◌≡◌, min, is_some, length, ◌+◌};
ghost use Rattle.std.specs.List.{list_any};
ghost use Rattle.ac_types.specs.Limits.{most_variables};
ghost use Rattle.ac_types.specs.Types.{same_bytes};
ghost use Rattle.ac_resolve_scopes.specs.Scopes.{binders_to};
ghost use Rattle.ac_resolve_signatures.specs.declared.named.Named.{Named};
ghost use Rattle.ac_resolve_faults.specs.inner.Variables.{variables_in};

use ac_resolve_signatures::Named;
use ac_syntax::SName;
use ac_types::Word;
use ac_types::limits::MOST_VARIABLES;

/// The variables in scope, the newest first.
#[derive(Clone, Copy)]
pub enum VariableScope<'s, 'a> {
    /// None.
    Empty,
    /// One more than those around.
    Inner(&'s VariableScope<'s, 'a>, &'a SName),
    /// Those of a pattern, from left to right, and those around.
    Arm(&'s VariableScope<'s, 'a>, &'s [Named<'a>]),
}

// How many variables are counted: one past the limit.
const COUNTED: usize = MOST_VARIABLES as usize + 1;

/// How many variables are in scope, counted up to one past the limit.
#[tactic(auto, using(crate::proofs::Scoping::scope_laws))]
pub fn depth(scope: &VariableScope) -> usize
    ensures { result ≡ min (length (variables_in scope.now)) (most_variables + 1) }
{
    match scope {
        VariableScope::Empty => 0,
        VariableScope::Inner(outer, _) => (depth(outer) + 1).min(COUNTED),
        VariableScope::Arm(outer, names) => (depth(outer) + names.len()).min(COUNTED),
    }
}

/// Whether a variable is in scope.
#[tactic(auto, using(crate::proofs::Scoping::bound_laws))]
pub fn is_bound(scope: &VariableScope, word: &Word) -> bool
    ensures { result ≡ is_some (binders_to word.now (variables_in scope.now)) }
{
    match scope {
        VariableScope::Empty => false,
        VariableScope::Inner(outer, name) => name.word.is(word) || is_bound(outer, word),
        VariableScope::Arm(outer, names) => is_among(names, word) || is_bound(outer, word),
    }
}

// Whether a name is among these.
fn is_among(names: &[Named], word: &Word) -> bool
    ensures { result ≡ list_any (λ (n : Named). same_bytes n.word.now word.now) names.now }
{
    names.iter().any(|name| name.word == word.text().as_slice())
}

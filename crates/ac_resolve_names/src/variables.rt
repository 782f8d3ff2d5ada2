// The variables in scope.

ghost use Rattle.std.specs.Prelude.{◌≡◌, List, None, min, map, length, option_map, ◌+◌};
ghost use Rattle.ac_types.specs.Limits.{most_variables};
ghost use Rattle.ac_types.specs.Types.{Bytes};
ghost use Rattle.ac_syntax.specs.ReadTrees.{name_of};
ghost use Rattle.ac_resolve_scopes.specs.Scopes.{binders_to, scope_with};
ghost use Rattle.ac_resolve_scopes.specs.Counts.{over};
ghost use Rattle.ac_resolve_names.specs.inner.VariableNames.{names_in, passed};

use ac_syntax::SName;
use ac_types::Word;
use ac_types::limits::MOST_VARIABLES;

/// The variables in scope, the newest first.
#[derive(Clone, Copy)]
pub enum Variables<'a> {
    /// None.
    Empty,
    /// One more than those around.
    Inner(&'a Variables<'a>, &'a SName),
    /// Those of a pattern, from left to right, and those around.
    Arm(&'a Variables<'a>, &'a [SName]),
}

// How far binders are counted: a number that no variable has.
const COUNTED: usize = MOST_VARIABLES as usize + 1;

// How many binders stand between a name and its own, counted up to one past the limit, `None`
// exactly where it isn't in scope.
#[tactic(auto, using(crate::proofs::VariableForms::variable_laws))]
fn binders_to(variables: &Variables, word: &Word) -> Option<usize>
    ensures { result ≡ option_map (λ i. min i (most_variables + 1)) (binders_to word.now (names_in
        variables.now)) }
{
    match variables {
        Variables::Empty => None,
        Variables::Inner(outer, name) => {
            if name.word.is(word) {
                return Some(0);
            }
            let i = binders_to(outer, word)?;
            Some((i + 1).min(COUNTED))
        }
        Variables::Arm(outer, names) => match behind(names, word) {
            Some(i) => Some(i.min(COUNTED)),
            None => {
                let i = binders_to(outer, word)?;
                Some((names.len() + i).min(COUNTED))
            }
        },
    }
}

/// How many binders stand between a name and its own, `None` exactly where it isn't in scope.
pub fn number_of(variables: &Variables, word: &Word) -> Option<u16>
    requires { over most_variables (length (names_in variables.now)) ≡ None }
    ensures { result ≡ binders_to word.now (names_in variables.now) }
{
    let number = binders_to(variables, word)?;
    Some(number as u16)
}

// How many of these names stand behind the last that is this one.
fn behind(names: &[SName], word: &Word) -> Option<usize>
    ensures { (outer : List Bytes) → binders_to word.now
        (scope_with (map name_of names.now) outer) ≡ passed result (length names.now)
        (binders_to word.now outer) }
{
    let mut left = names.len();
    while left > 0 {
        left -= 1;
        if names[left].word.is(word) {
            return Some(names.len() - 1 - left);
        }
    }
    None
}

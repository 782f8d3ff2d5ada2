// The types of the variables.

ghost use Rattle.std.specs.Prelude.{◌≡◌, IfOk, option_map, slice_get};
ghost use Rattle.std.specs.Option.{option_copied};
ghost use Rattle.ac_types.specs.ReadTypes.{typ_of};
ghost use Rattle.ac_rules.specs.Views.{Coloured};
ghost use Rattle.ac_rules.specs.Typing.{kept_in};
ghost use Rattle.ac_check_terms.specs.inner.Parts.{types_in};

use ac_check_views::small_copy;
use ac_types::{Memory, Ty};
use std::alloc::Global;

/// The types of the variables in scope.
#[derive(Clone, Copy)]
pub enum TypeScope<'a> {
    /// Those that were given, the newest first.
    Given(&'a [Ty]),
    /// One more, the newest.
    One(&'a TypeScope<'a>, &'a Ty),
    /// Those of a pattern besides, from left to right: the last is the newest.
    More(&'a TypeScope<'a>, &'a [Ty]),
}

// Item `i` of a list.
fn item(types: &[Ty], i: usize) -> Option<&Ty>
    ensures { option_copied result ≡ slice_get types.now i }
{
    types.get(i)
}

// The type of variable `i`, where there is one.
#[tactic(auto, using(crate::proofs::ScopeLaws::scope_laws))]
fn find<'a>(vars: &'a TypeScope<'a>, i: usize) -> Option<&'a Ty>
    ensures { option_map typ_of (option_copied result) ≡ slice_get (types_in vars.now) i }
{
    match vars {
        TypeScope::Given(types) => item(types, i),
        TypeScope::One(outer, ty) => {
            if i == 0 {
                Some(*ty)
            } else {
                find(outer, i - 1)
            }
        }
        TypeScope::More(outer, types) => {
            let count = types.len();
            if i < count {
                item(types, count - 1 - i)
            } else {
                find(outer, i - count)
            }
        }
    }
}

/// The type of variable `i`, where there is one and it is small.
pub fn variable_type<'a>(
    alloc: Global,
    vars: &'a TypeScope<'a>,
    i: u16,
) -> Result<Option<Ty>, Memory>
    ensures { IfOk result (λ o. option_map typ_of o ≡ kept_in Coloured
        (slice_get (types_in vars.now) i)) }
{
    match find(vars, i as usize) {
        None => Ok(None),
        Some(ty) => small_copy(alloc, ty),
    }
}

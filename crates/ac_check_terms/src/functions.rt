// The types of functions and of their applications.

ghost use Rattle.std.specs.Prelude.{◌≡◌, IfOk, Some, option_map};
ghost use Rattle.ac_types.specs.Partial.{given, has};
ghost use Rattle.ac_types.specs.Types.{TFun};
ghost use Rattle.ac_types.specs.ReadTypes.{typ_of};
ghost use Rattle.ac_rules.specs.Views.{Coloured};
ghost use Rattle.ac_rules.specs.Typing.{kept_in, type_applied};
ghost use Rattle.ac_check_views.specs.Sites.{ends_of, read_ends};

use ac_check_views::kept;
use ac_types::{Boxed, Memory, Ty, both, same_types};
use std::alloc::Global;

/// The type of a function whose argument and result have these types.
#[tactic(auto, using(ac_types::proofs::SizeLaws::type_laws))]
pub fn kept_function_type(alloc: Global, from: Ty, to: Option<Ty>) -> Result<Option<Ty>, Memory>
    ensures { IfOk result (λ o. option_map typ_of o ≡ kept_in Coloured
        (option_map (TFun (typ_of from)) (option_map typ_of to))) }
{
    let Some(to) = to else {
        drop(from);
        return Ok(None);
    };
    let (from, to) = both(Boxed::new(alloc, from), Boxed::new(alloc, to))?;
    Ok(kept(Ty::Fun(from, to)))
}

/// The type of a function from one of these types to the other.
pub fn own_type(alloc: Global, from: &Ty, to: &Ty) -> Result<Option<Ty>, Memory>
    ensures { IfOk result (λ o. option_map typ_of o ≡ kept_in Coloured
        (Some (TFun (typ_of from.now) (typ_of to.now)))) }
{
    let (from, to) = both(from.copy(alloc), to.copy(alloc))?;
    kept_function_type(alloc, from, Some(to))
}

/// The type of an application, where the function and its argument have these types.
#[tactic(auto, using(ac_types::proofs::SizeLaws::type_laws, crate::proofs::FormLaws::applied_by_parts))]
pub fn applied(function: Option<Ty>, argument: Option<Ty>) -> Option<Ty>
    ensures { option_map typ_of result ≡ type_applied (option_map typ_of function)
        (option_map typ_of argument) }
{
    let (from, to) = function?.into_function()?;
    let argument = argument?;
    if same_types(&argument, &from) {
        Some(to)
    } else {
        None
    }
}

/// The type of a recursive function of this type, whose body has the type `found`.
pub fn recursive_type(own: Ty, to: &Ty, found: Option<Ty>) -> Option<Ty>
    ensures { option_map typ_of result ≡ given (has (option_map typ_of found) (typ_of to.now))
        (Some (typ_of own)) }
{
    let found = found?;
    if same_types(&found, to) {
        Some(own)
    } else {
        None
    }
}

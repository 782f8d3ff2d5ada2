// Types of a signature, as they are seen from outside.

ghost use Rattle.std.specs.Prelude.{◌≡◌, IfOk, map};
ghost use Rattle.ac_types.specs.Types.{TAbs, with_mine, all_with_mine};
ghost use Rattle.ac_types.specs.ReadTypes.{typ_of};
ghost use Rattle.ac_check_views.specs.Sites.{typs_of};

use crate::types::{list_type, option_type};
use ac_types::{Many, Memory, Name, Ty, both, function_type};
use std::alloc::Global;

/// A type of a signature, whose own types are from outside types of this name.
#[cycle(outside)]
pub fn outside(alloc: Global, ty: &Ty, name: &Name) -> Result<Ty, Memory>
    ensures { IfOk result (λ t. typ_of t ≡ with_mine (TAbs name.now.0) (typ_of ty.now)) }
{
    match ty {
        Ty::Tuple(parts) => {
            let parts = all_outside(alloc, parts.as_slice(), name)?;
            Ok(Ty::Tuple(parts))
        }
        Ty::List(item) => {
            let item = outside(alloc, item, name)?;
            list_type(alloc, item)
        }
        Ty::Opt(item) => {
            let item = outside(alloc, item, name)?;
            option_type(alloc, item)
        }
        Ty::Fun(from, to) => {
            let (from, to) = both(outside(alloc, from, name), outside(alloc, to, name))?;
            function_type(alloc, from, to)
        }
        Ty::Mine(word) => Ok(Ty::Abs(*name, word.copy(alloc)?)),
        Ty::Int => Ok(Ty::Int),
        Ty::Bool => Ok(Ty::Bool),
        Ty::Str => Ok(Ty::Str),
        Ty::Unit => Ok(Ty::Unit),
        Ty::Exn => Ok(Ty::Exn),
        Ty::Abs(_, _) => ty.copy(alloc),
    }
}

#[cycle(outside)]
fn all_outside(alloc: Global, tys: &[Ty], name: &Name) -> Result<Many<Ty>, Memory>
    ensures { IfOk result (λ ts. typs_of ts ≡ all_with_mine (TAbs name.now.0) (typs_of tys.now)) }
{
    let mut found = Many::new(alloc);
    for ty in tys {
        found.push(outside(alloc, ty, name)?)?;
    }
    Ok(found)
}

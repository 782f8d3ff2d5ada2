// Types of a signature from outside.

ghost use Rattle.std.specs.Prelude.{◌≡◌, map, IfOk};
ghost use Rattle.ac_types.specs.Types.{TAbs, typs, with_mine, all_with_mine};
ghost use Rattle.ac_types.specs.ReadTypes.{typ_of};

use ac_types::{Boxed, Many, Memory, Name, Ty};
use std::alloc::Global;

/// A copy of a type, in which the signature's own types are those of this name.
#[cycle(sealed)]
#[tactic(auto, using(ac_types::proofs::SizeLaws::type_laws))]
pub fn sealed(alloc: Global, ty: &Ty, name: &Name) -> Result<Ty, Memory>
    ensures { IfOk result (λ t. typ_of t ≡ with_mine (TAbs name.now.0) (typ_of ty.now)) }
{
    match ty {
        Ty::Int => Ok(Ty::Int),
        Ty::Bool => Ok(Ty::Bool),
        Ty::Str => Ok(Ty::Str),
        Ty::Unit => Ok(Ty::Unit),
        Ty::Exn => Ok(Ty::Exn),
        Ty::Tuple(parts) => {
            let sealed = all(alloc, parts.as_slice(), name)?;
            Ok(Ty::Tuple(sealed))
        }
        Ty::List(item) => boxed(alloc, item, name).map(Ty::List),
        Ty::Opt(item) => boxed(alloc, item, name).map(Ty::Opt),
        Ty::Fun(from, to) => {
            let argument = boxed(alloc, from, name)?;
            let answer = boxed(alloc, to, name)?;
            Ok(Ty::Fun(argument, answer))
        }
        Ty::Abs(of, word) => word.copy(alloc).map(|word| Ty::Abs(*of, word)),
        Ty::Mine(word) => word.copy(alloc).map(|word| Ty::Abs(*name, word)),
    }
}

#[cycle(sealed)]
fn boxed(alloc: Global, ty: &Ty, name: &Name) -> Result<Boxed<Ty>, Memory>
    ensures { IfOk result (λ t. typ_of t ≡ with_mine (TAbs name.now.0) (typ_of ty.now)) }
{
    Boxed::new(alloc, sealed(alloc, ty, name)?)
}

#[cycle(sealed)]
fn all(alloc: Global, tys: &[Ty], name: &Name) -> Result<Many<Ty>, Memory>
    ensures { IfOk result (λ ts. typs (map typ_of ts) ≡ all_with_mine (TAbs name.now.0)
        (typs (map typ_of tys.now))) }
{
    let mut found = Many::new(alloc);
    for ty in tys {
        let made = sealed(alloc, ty, name)?;
        found.push(made)?;
    }
    Ok(found)
}

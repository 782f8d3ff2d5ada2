// What types look like.

ghost use Rattle.std.specs.Prelude.{◌≡◌, IfOk, option_map, Some};
ghost use Rattle.std.specs.Option.{option_copied};
ghost use Rattle.ac_types.specs.Types.{TList, TOpt, same};
ghost use Rattle.ac_types.specs.ReadTypes.{typ_of};
ghost use Rattle.ac_rules.specs.Views.{Coloured};
ghost use Rattle.ac_rules.specs.Typing.{kept_in, list_item, option_item, tuple_parts};
ghost use Rattle.ac_check_views.specs.Sites.{base_typ, typs_of, ends_of, read_ends};

use ac_types::{Boxed, Many, Memory, Ty, same_types, small};
use std::alloc::Global;

/// A type without parts and without a name.
#[derive(Clone, Copy)]
pub enum Base {
    Int,
    Bool,
    Str,
    Unit,
    Exn,
}

// The type itself.
#[tactic(auto, using(ac_types::proofs::SizeLaws::type_laws))]
fn base_type(base: Base) -> Ty
    ensures { typ_of result ≡ base_typ base }
{
    match base {
        Base::Int => Ty::Int,
        Base::Bool => Ty::Bool,
        Base::Str => Ty::Str,
        Base::Unit => Ty::Unit,
        Base::Exn => Ty::Exn,
    }
}

/// The type of lists of such items.
#[tactic(auto, using(ac_types::proofs::SizeLaws::type_laws))]
pub fn list_type(alloc: Global, item: Ty) -> Result<Ty, Memory>
    ensures { IfOk result (λ t. typ_of t ≡ TList (typ_of item)) }
{
    Ok(Ty::List(Boxed::new(alloc, item)?))
}

/// The type of options of such an item.
#[tactic(auto, using(ac_types::proofs::SizeLaws::type_laws))]
pub fn option_type(alloc: Global, item: Ty) -> Result<Ty, Memory>
    ensures { IfOk result (λ t. typ_of t ≡ TOpt (typ_of item)) }
{
    Ok(Ty::Opt(Boxed::new(alloc, item)?))
}

/// Whether a type is this one.
#[tactic(auto, using(crate::proofs::Equalities::same_either_way))]
pub fn is_base(ty: &Ty, base: Base) -> bool
    ensures given { result ≡ same (base_typ base) (typ_of ty.now) }
    ensures found { result ≡ same (typ_of ty.now) (base_typ base) }
{
    let wanted = base_type(base);
    let same = same_types(ty, &wanted);
    drop(wanted);
    same
}

/// The item's type of a list type.
pub fn list_item(ty: &Ty) -> Option<&Ty>
    ensures { option_map typ_of (option_copied result) ≡ list_item (typ_of ty.now) }
{
    match ty {
        Ty::List(item) => Some(item),
        _ => None,
    }
}

/// The item's type of an option type.
pub fn option_item(ty: &Ty) -> Option<&Ty>
    ensures { option_map typ_of (option_copied result) ≡ option_item (typ_of ty.now) }
{
    match ty {
        Ty::Opt(item) => Some(item),
        _ => None,
    }
}

/// The parts of a tuple type.
pub fn tuple_parts(ty: &Ty) -> Option<&Many<Ty>>
    ensures { option_map typs_of (option_copied result) ≡ tuple_parts (typ_of ty.now) }
{
    match ty {
        Ty::Tuple(parts) => Some(parts),
        _ => None,
    }
}

/// A type, where it is small.
pub fn kept(ty: Ty) -> Option<Ty>
    ensures { option_map typ_of result ≡ kept_in Coloured (Some (typ_of ty)) }
{
    if small(&ty) {
        Some(ty)
    } else {
        drop(ty);
        None
    }
}

/// A copy of a type, where it is small.
pub fn small_copy(alloc: Global, ty: &Ty) -> Result<Option<Ty>, Memory>
    ensures { IfOk result (λ o. option_map typ_of o ≡ kept_in Coloured (Some (typ_of ty.now))) }
{
    if small(ty) {
        ty.copy(alloc).map(Some)
    } else {
        Ok(None)
    }
}

/// The argument's and the result's type of a function type.
pub fn ends(ty: &Ty) -> Option<(&Ty, &Ty)>
    ensures { option_map read_ends result ≡ ends_of (typ_of ty.now) }
{
    match ty {
        Ty::Fun(from, to) => Some((from, to)),
        _ => None,
    }
}

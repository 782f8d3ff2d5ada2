// Tuples, lists and options.

ghost use Rattle.std.specs.Prelude.{◌≡◌, ◌<◌, ◌^◌, IfOk, true, length, option_map, option_and_then};
ghost use Rattle.ac_types.specs.Types.{TTuple, TOpt, TList, same};
ghost use Rattle.ac_types.specs.ReadTypes.{typ_of};
ghost use Rattle.ac_terms.specs.Read.{home_of};
ghost use Rattle.ac_types.specs.Partial.{both_same};
ghost use Rattle.ac_rules.specs.Views.{Coloured};
ghost use Rattle.ac_rules.specs.Typing.{kept_in, type_seen, a_list, an_option};
ghost use Rattle.ac_check_views.specs.Sites.{typs_of, entries_of};

use ac_check_views::{Site, kept, list_item, option_item, seen_type};
use ac_types::{Boxed, Many, Memory, Ty, same_types};
use std::alloc::Global;

/// The type of a tuple whose parts have these types.
#[tactic(auto, using(ac_types::proofs::SizeLaws::type_laws))]
pub fn tuple_type(parts: Option<Many<Ty>>) -> Option<Ty>
    ensures { option_map typ_of result ≡ kept_in Coloured
        (option_map TTuple (option_map typs_of parts)) }
{
    let parts = parts?;
    kept(Ty::Tuple(parts))
}

/// The type of `Some` of what has this type.
#[tactic(auto, using(ac_types::proofs::SizeLaws::type_laws))]
pub fn present_type(alloc: Global, inner: Option<Ty>) -> Result<Option<Ty>, Memory>
    ensures { IfOk result (λ o. option_map typ_of o ≡ kept_in Coloured
        (option_map TOpt (option_map typ_of inner))) }
{
    let Some(inner) = inner else {
        return Ok(None);
    };
    let inner = Boxed::new(alloc, inner)?;
    Ok(kept(Ty::Opt(inner)))
}

/// The type of a list whose first element and whose rest have these types.
pub fn cons_type(head: Option<Ty>, tail: Option<Ty>) -> Option<Ty>
    ensures { option_map typ_of result ≡ both_same (option_map TList (option_map typ_of head))
        (option_map typ_of tail) }
{
    let Some(head) = head else {
        drop(tail);
        return None;
    };
    let Some(tail) = tail else {
        drop(head);
        return None;
    };
    let fits = is_list_of(&tail, &head);
    drop(head);
    if fits {
        Some(tail)
    } else {
        drop(tail);
        None
    }
}

#[tactic(auto, using(ac_types::proofs::SizeLaws::type_laws))]
fn is_list_of(ty: &Ty, item: &Ty) -> bool
    ensures { result ≡ same (typ_of ty.now) (TList (typ_of item.now)) }
{
    match list_item(ty) {
        None => false,
        Some(found) => same_types(found, item),
    }
}

/// The type of `[]` that is written with this type.
pub fn nil_type<'a>(alloc: Global, ty: &'a Ty, site: &'a Site<'a>) -> Result<Option<Ty>, Memory>
    requires { length site.now.env.now.entries < 2 ^ 32 }
    ensures { IfOk result (λ o. option_map typ_of o ≡ kept_in Coloured
        (option_and_then a_list (type_seen Coloured true (entries_of site.now)
        (home_of site.now.home)
        (typ_of ty.now)))) }
{
    let Some(seen) = seen_type(alloc, ty, site)? else {
        return Ok(None);
    };
    if list_item(&seen).is_some() {
        Ok(Some(seen))
    } else {
        drop(seen);
        Ok(None)
    }
}

/// The type of `None` that is written with this type.
pub fn empty_type<'a>(alloc: Global, ty: &'a Ty, site: &'a Site<'a>) -> Result<Option<Ty>, Memory>
    requires { length site.now.env.now.entries < 2 ^ 32 }
    ensures { IfOk result (λ o. option_map typ_of o ≡ kept_in Coloured
        (option_and_then an_option (type_seen Coloured true (entries_of site.now)
        (home_of site.now.home) (typ_of ty.now)))) }
{
    let Some(seen) = seen_type(alloc, ty, site)? else {
        return Ok(None);
    };
    if option_item(&seen).is_some() {
        Ok(Some(seen))
    } else {
        drop(seen);
        Ok(None)
    }
}

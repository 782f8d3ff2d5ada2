// Forms that write their type: a raise, a marshal and an unmarshal.

ghost use Rattle.std.specs.Prelude.{◌≡◌, ◌&&◌, ◌<◌, ◌^◌, IfOk, Some, true, length, option_map};
ghost use Rattle.ac_types.specs.Partial.{given, agree, has};
ghost use Rattle.ac_types.specs.Types.{TStr};
ghost use Rattle.ac_types.specs.ReadTypes.{typ_of};
ghost use Rattle.ac_terms.specs.Read.{home_of};
ghost use Rattle.ac_rules.specs.Views.{Coloured};
ghost use Rattle.ac_rules.specs.Typing.{kept_in, type_seen};
ghost use Rattle.ac_check_views.specs.Sites.{base_typ, entries_of};

use ac_check_views::{Base, Site, is_base, is_seen_as, seen_type};
use ac_types::{Memory, Ty};
use std::alloc::Global;

/// The type that a raise or an unmarshal writes, where what stands in it has the type `wanted`.
pub fn promised_type<'a>(
    alloc: Global,
    ty: &'a Ty,
    inner: Option<Ty>,
    wanted: Base,
    site: &'a Site<'a>,
) -> Result<Option<Ty>, Memory>
    requires { length site.now.env.now.entries < 2 ^ 32 }
    ensures { IfOk result (λ o. option_map typ_of o ≡ given
        (has (option_map typ_of inner) (base_typ wanted)) (kept_in Coloured (type_seen Coloured true
        (entries_of site.now) (home_of site.now.home) (typ_of ty.now)))) }
{
    let Some(inner) = inner else {
        return Ok(None);
    };
    let is_wanted = is_base(&inner, wanted);
    drop(inner);
    if is_wanted {
        seen_type(alloc, ty, site)
    } else {
        Ok(None)
    }
}

/// The type of a marshal at a type, where its mark and what is packed have these types.
#[tactic(auto, using(ac_types::proofs::SizeLaws::type_laws))]
pub fn marshal_type<'a>(
    mark: Option<Ty>,
    ty: &'a Ty,
    inner: Option<Ty>,
    site: &'a Site<'a>,
) -> Option<Ty>
    requires { length site.now.env.now.entries < 2 ^ 32 }
    ensures { option_map typ_of result ≡ given (has (option_map typ_of mark) TStr &&
        agree (option_map typ_of inner) (type_seen Coloured true (entries_of site.now)
        (home_of site.now.home) (typ_of ty.now))) (Some TStr) }
{
    let Some(mark) = mark else {
        drop(inner);
        return None;
    };
    let Some(inner) = inner else {
        drop(mark);
        return None;
    };
    let is_text = is_base(&mark, Base::Str);
    let fits = is_seen_as(ty, &inner, site);
    drop(mark);
    drop(inner);
    if is_text && fits { Some(Ty::Str) } else { None }
}

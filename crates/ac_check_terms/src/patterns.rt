// The variables of a pattern.

ghost use Rattle.std.specs.Prelude.{◌≡◌, ◌∷◌, ◌<◌, ◌^◌, IfOk, true, length, map, option_map, Some};
ghost use Rattle.ac_types.specs.Partial.{given};
ghost use Rattle.ac_types.specs.ReadTypes.{typ_of};
ghost use Rattle.ac_terms.specs.Terms.{patterns};
ghost use Rattle.ac_terms.specs.Read.{pattern_of, home_of};
ghost use Rattle.ac_rules.specs.Views.{Coloured};
ghost use Rattle.ac_rules.specs.Typing.{variables, variables_of_all, variables_joined};
ghost use Rattle.ac_check_views.specs.Sites.{typs_of, entries_of};
ghost use Rattle.ac_check_terms.specs.inner.Parts.{newest_first};

use ac_check_views::{Base, Site, is_base, is_seen_as, list_item, option_item, tuple_parts};
use ac_terms::Pat;
use ac_types::{Many, Memory, Ty};
use std::alloc::Global;

// The list, where a test passes.
fn given(passes: bool, before: Many<Ty>) -> Option<Many<Ty>>
    ensures { option_map newest_first result ≡ given passes (Some (newest_first before)) }
{
    if passes { Some(before) } else { None }
}

// The list with a copy of a type at its end.
#[tactic(auto, using(crate::proofs::PatternLaws::pattern_laws))]
fn with_copy(alloc: Global, before: Many<Ty>, ty: &Ty) -> Result<Option<Many<Ty>>, Memory>
    ensures { IfOk result (λ o. option_map newest_first o ≡ Some
        (typ_of ty.now ∷ newest_first before)) }
{
    let mut before = before;
    before.push(ty.copy(alloc)?)?;
    Ok(Some(before))
}

/// The types of the variables of a pattern at a type, from left to right and after those before
/// them; `None` exactly where the pattern doesn't have that type.
#[cycle(patterns)]
#[tactic(auto, using(crate::proofs::PatternLaws::pattern_laws))]
pub fn variables<'a>(
    alloc: Global,
    pat: &'a Pat,
    ty: &'a Ty,
    site: &'a Site<'a>,
    before: Many<Ty>,
) -> Result<Option<Many<Ty>>, Memory>
    requires { length site.now.env.now.entries < 2 ^ 32 }
    ensures { IfOk result (λ o. option_map newest_first o ≡ variables_joined
        (Some (newest_first before))
        (variables Coloured true (entries_of site.now) (home_of site.now.home) (pattern_of pat.now)
        (typ_of ty.now))) }
{
    match pat {
        Pat::Wild => Ok(Some(before)),
        Pat::Var(written) => {
            if !is_seen_as(written, ty, site) {
                return Ok(None);
            }
            with_copy(alloc, before, ty)
        }
        Pat::Int(_) => Ok(given(is_base(ty, Base::Int), before)),
        Pat::Bool(_) => Ok(given(is_base(ty, Base::Bool), before)),
        Pat::Str(_) => Ok(given(is_base(ty, Base::Str), before)),
        Pat::Unit => Ok(given(is_base(ty, Base::Unit), before)),
        Pat::Tuple(parts) => match tuple_parts(ty) {
            None => Ok(None),
            Some(types) => all_variables(alloc, parts.as_slice(), types.as_slice(), site, before),
        },
        Pat::Nil => Ok(given(list_item(ty).is_some(), before)),
        Pat::Cons(head, tail) => {
            let Some(item) = list_item(ty) else {
                return Ok(None);
            };
            let Some(found) = variables(alloc, head, item, site, before)? else {
                return Ok(None);
            };
            variables(alloc, tail, ty, site, found)
        }
        Pat::Absent => Ok(given(option_item(ty).is_some(), before)),
        Pat::Present(inner) => match option_item(ty) {
            None => Ok(None),
            Some(item) => variables(alloc, inner, item, site, before),
        },
        Pat::Exn(_) => Ok(given(is_base(ty, Base::Exn), before)),
        Pat::ExnOf(_, inner) => {
            if !is_base(ty, Base::Exn) {
                return Ok(None);
            }
            let text = Ty::Str;
            let found = variables(alloc, inner, &text, &*site, before);
            drop(text);
            found
        }
    }
}

#[cycle(patterns)]
#[tactic(auto)]
fn all_variables<'a>(
    alloc: Global,
    pats: &'a [Pat],
    tys: &'a [Ty],
    site: &'a Site<'a>,
    before: Many<Ty>,
) -> Result<Option<Many<Ty>>, Memory>
    requires { length site.now.env.now.entries < 2 ^ 32 }
    ensures { IfOk result (λ o. option_map newest_first o ≡ variables_joined
        (Some (newest_first before))
        (variables_of_all Coloured true (entries_of site.now) (home_of site.now.home)
        (patterns (map pattern_of pats.now)) (typs_of tys.now))) }
{
    if pats.len() != tys.len() {
        return Ok(None);
    }
    let mut found = before;
    for i in 0..pats.len() {
        let Some(more) = variables(alloc, &pats[i], &tys[i], site, found)? else {
            return Ok(None);
        };
        found = more;
    }
    Ok(Some(found))
}

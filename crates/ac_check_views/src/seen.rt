// Types as a home sees them.

ghost use Rattle.std.specs.Prelude.{◌≡◌, ◌<◌, ◌^◌, IfOk, Some, true, length, map, option_map};
ghost use Rattle.ac_types.specs.Types.{same, same_all};
ghost use Rattle.ac_types.specs.Partial.{agree, has};
ghost use Rattle.ac_types.specs.ReadTypes.{typ_of};
ghost use Rattle.ac_terms.specs.Read.{home_of};
ghost use Rattle.ac_rules.specs.Views.{Coloured, view};
ghost use Rattle.ac_rules.specs.Typing.{kept_in, type_seen};
ghost use Rattle.ac_check_views.specs.Sites.{typs_of, entries_of};
ghost use Rattle.ac_check_views.specs.inner.Sizes.{from_home, all_from_home};

use crate::known::are_known;
use crate::opened::opened;
use crate::site::Site;
use crate::sizes::is_small_here;
use crate::types::{
    Base, ends, is_base, list_item, list_type, option_item, option_type, tuple_parts,
};
use ac_types::{Many, Memory, Ty, both, function_type, same_types};
use std::alloc::Global;

// Whether a type as the site's home sees it is another.
#[cycle(compare)]
fn is_viewed_as<'a>(written: &'a Ty, ty: &'a Ty, site: &'a Site<'a>) -> bool
    requires { length site.now.env.now.entries < 2 ^ 32 }
    ensures { result ≡ same (from_home site.now (typ_of written.now)) (typ_of ty.now) }
{
    match written {
        Ty::Tuple(parts) => match tuple_parts(ty) {
            None => false,
            Some(others) => are_viewed_as(parts.as_slice(), others.as_slice(), site),
        },
        Ty::List(item) => match list_item(ty) {
            None => false,
            Some(other) => is_viewed_as(item, other, site),
        },
        Ty::Opt(item) => match option_item(ty) {
            None => false,
            Some(other) => is_viewed_as(item, other, site),
        },
        Ty::Fun(from, to) => match ends(ty) {
            None => false,
            Some((start, end)) => { is_viewed_as(from, start, site) && is_viewed_as(to, end, site) }
        },
        Ty::Abs(name, word) => match opened(site, name, word) {
            None => same_types(written, ty),
            Some(found) => same_types(found, ty),
        },
        Ty::Int => is_base(ty, Base::Int),
        Ty::Bool => is_base(ty, Base::Bool),
        Ty::Str => is_base(ty, Base::Str),
        Ty::Unit => is_base(ty, Base::Unit),
        Ty::Exn => is_base(ty, Base::Exn),
        Ty::Mine(_) => same_types(written, ty),
    }
}

#[cycle(compare)]
fn are_viewed_as<'a>(written: &'a [Ty], tys: &'a [Ty], site: &'a Site<'a>) -> bool
    requires { length site.now.env.now.entries < 2 ^ 32 }
    ensures { result ≡ same_all (all_from_home site.now written.now) (typs_of tys.now) }
{
    if written.len() != tys.len() {
        return false;
    }
    for i in 0..written.len() {
        if !is_viewed_as(&written[i], &tys[i], site) {
            return false;
        }
    }
    true
}

/// Whether a type is this one, which is written, as the site's home sees it.
#[tactic(auto, using(crate::proofs::Equalities::same_either_way))]
pub fn is_view_of<'a>(ty: &'a Ty, written: &'a Ty, site: &'a Site<'a>) -> bool
    requires { length site.now.env.now.entries < 2 ^ 32 }
    ensures { result ≡ same (typ_of ty.now) (view Coloured (entries_of site.now)
        (home_of site.now.home) (typ_of written.now)) }
{
    is_viewed_as(written, ty, site)
}

/// Whether a type that is written is this one for the site's home, and its names are known.
pub fn is_seen_as<'a>(written: &'a Ty, ty: &'a Ty, site: &'a Site<'a>) -> bool
    requires { length site.now.env.now.entries < 2 ^ 32 }
    ensures seen { result ≡ has (type_seen Coloured true (entries_of site.now)
        (home_of site.now.home) (typ_of written.now)) (typ_of ty.now) }
    ensures agreed { result ≡ agree (Some (typ_of ty.now)) (type_seen Coloured true
        (entries_of site.now) (home_of site.now.home) (typ_of written.now)) }
{
    are_known(written, site.env) && is_viewed_as(written, ty, site)
}

// A type as the site's home sees it.
#[cycle(view)]
fn written_out<'a>(alloc: Global, ty: &'a Ty, site: &'a Site<'a>) -> Result<Ty, Memory>
    requires { length site.now.env.now.entries < 2 ^ 32 }
    ensures { IfOk result (λ t. typ_of t ≡ from_home site.now (typ_of ty.now)) }
{
    match ty {
        Ty::Tuple(parts) => {
            let parts = all_written_out(alloc, parts.as_slice(), site)?;
            Ok(Ty::Tuple(parts))
        }
        Ty::List(item) => {
            let item = written_out(alloc, item, site)?;
            list_type(alloc, item)
        }
        Ty::Opt(item) => {
            let item = written_out(alloc, item, site)?;
            option_type(alloc, item)
        }
        Ty::Fun(from, to) => {
            let (from, to) = both(written_out(alloc, from, site), written_out(alloc, to, site))?;
            function_type(alloc, from, to)
        }
        Ty::Abs(name, word) => match opened(site, name, word) {
            None => ty.copy(alloc),
            Some(found) => found.copy(alloc),
        },
        Ty::Int => Ok(Ty::Int),
        Ty::Bool => Ok(Ty::Bool),
        Ty::Str => Ok(Ty::Str),
        Ty::Unit => Ok(Ty::Unit),
        Ty::Exn => Ok(Ty::Exn),
        Ty::Mine(_) => ty.copy(alloc),
    }
}

#[cycle(view)]
fn all_written_out<'a>(alloc: Global, tys: &'a [Ty], site: &'a Site<'a>) -> Result<Many<Ty>, Memory>
    requires { length site.now.env.now.entries < 2 ^ 32 }
    ensures { IfOk result (λ ts. typs_of ts ≡ all_from_home site.now tys.now) }
{
    let mut found = Many::new(alloc);
    for ty in tys {
        found.push(written_out(alloc, ty, site)?)?;
    }
    Ok(found)
}

/// A type as the site's home sees it, where that is small; it is measured before it is written.
pub fn viewed<'a>(alloc: Global, ty: &'a Ty, site: &'a Site<'a>) -> Result<Option<Ty>, Memory>
    requires { length site.now.env.now.entries < 2 ^ 32 }
    ensures { IfOk result (λ o. option_map typ_of o ≡ kept_in Coloured
        (Some (view Coloured (entries_of site.now) (home_of site.now.home) (typ_of ty.now)))) }
{
    if is_small_here(ty, site) {
        written_out(alloc, ty, site).map(Some)
    } else {
        Ok(None)
    }
}

/// A type that is written, as the site's home sees it, where its names are known and it is small.
pub fn seen_type<'a>(alloc: Global, ty: &'a Ty, site: &'a Site<'a>) -> Result<Option<Ty>, Memory>
    requires { length site.now.env.now.entries < 2 ^ 32 }
    ensures { IfOk result (λ o. option_map typ_of o ≡ kept_in Coloured
        (type_seen Coloured true (entries_of site.now) (home_of site.now.home) (typ_of ty.now))) }
{
    if are_known(ty, site.env) {
        viewed(alloc, ty, site)
    } else {
        Ok(None)
    }
}

// The types of own fields and of references.

ghost use Rattle.std.specs.Prelude.{◌≡◌, ◌<◌, ◌^◌, [], IfOk, length, option_map, option_and_then, slice_get};
ghost use Rattle.std.specs.Option.{option_copied};
ghost use Rattle.ac_types.specs.Sigs.{Signature, named_type};
ghost use Rattle.ac_types.specs.ReadTypes.{typ_of, sig_of};
ghost use Rattle.ac_terms.specs.Defs.{signature};
ghost use Rattle.ac_terms.specs.Read.{environment_of, home_of, def_of_code, field_of};
ghost use Rattle.ac_rules.specs.Views.{Coloured, view};
ghost use Rattle.ac_rules.specs.Typing.{fields_of, field_type, ref_type, kept_in};
ghost use Rattle.ac_check_views.specs.Sites.{entries_of, scope_at};

use crate::outside::outside;
use crate::seen::viewed;
use crate::site::Site;
use ac_terms::{Def, Entry, Env, Field, Home};
use ac_types::{Memory, Sig, Ty, Word, small, type_named};
use std::alloc::Global;

/// Field `f` of a home, where it has that many.
#[tactic(auto, using(ac_terms::proofs::EnvLaws::env_laws))]
pub fn field_at<'a>(env: &'a Env, home: Home, f: u16) -> Option<&'a Field>
    ensures { option_map field_of (option_copied result) ≡ slice_get
        (fields_of (environment_of env.now) (home_of home)) f }
{
    match home {
        Home::Main => None,
        Home::In(i) => match env.entry(i) {
            None => None,
            Some(entry) => match &entry.def {
                Def::Module(m) => m.fields.get(f as usize),
                Def::Import(_) => None,
                Def::Mark(_) => None,
            },
        },
    }
}

/// The type of the own field `f`, as the site's home sees it: the one that it writes. `None`
/// exactly where the home has no such field, it isn't before `own`, or its type isn't small.
pub fn field_type<'a>(alloc: Global, site: &'a Site<'a>, f: u16) -> Result<Option<Ty>, Memory>
    requires { length site.now.env.now.entries < 2 ^ 32 }
    ensures { IfOk result (λ o. option_map typ_of o ≡ kept_in Coloured
        (option_map (view Coloured (entries_of site.now) (home_of site.now.home))
        (field_type (entries_of site.now) (scope_at site.now []) f))) }
{
    if f as usize >= site.own {
        return Ok(None);
    }
    match field_at(site.env, site.home, f) {
        None => Ok(None),
        Some(field) => viewed(alloc, &field.ty, site),
    }
}

// The signature of an entry, which a mark has not.
fn signature_of(entry: &Entry) -> Option<&Sig>
    ensures { option_map sig_of (option_copied result) ≡ signature (def_of_code entry.now.def) }
{
    match &entry.def {
        Def::Module(m) => Some(&m.sig),
        Def::Import(i) => Some(&i.sig),
        Def::Mark(_) => None,
    }
}

/// The type that an entry's signature writes for the value `x`.
pub fn type_shown<'a>(entry: &'a Entry, x: &Word) -> Option<&'a Ty>
    ensures { option_map typ_of (option_copied result) ≡ option_and_then
        (λ (s : Signature). named_type x.now s.vals) (signature (def_of_code entry.now.def)) }
{
    match signature_of(entry) {
        None => None,
        Some(sig) => type_named(sig.vals.as_slice(), x),
    }
}

/// The type of the value `x` of entry `j`, as the site's home sees it: the one of the entry's
/// signature, whose own types are from outside types of the entry's name. `None` exactly where `j`
/// isn't before `refs`, the entry has no name or no such value, or the type isn't small.
pub fn ref_type<'a>(
    alloc: Global,
    site: &'a Site<'a>,
    j: u32,
    x: &Word,
) -> Result<Option<Ty>, Memory>
    requires { length site.now.env.now.entries < 2 ^ 32 }
    ensures { IfOk result (λ o. option_map typ_of o ≡ kept_in Coloured
        (option_map (view Coloured (entries_of site.now) (home_of site.now.home))
        (ref_type (entries_of site.now) (scope_at site.now []) j x.now))) }
{
    if j as usize >= site.refs {
        return Ok(None);
    }
    let Some(entry) = site.env.entry(j) else {
        return Ok(None);
    };
    let Some(name) = &entry.name else {
        return Ok(None);
    };
    let Some(ty) = type_shown(entry, x) else {
        return Ok(None);
    };
    if !small(ty) {
        return Ok(None);
    }
    let ty = outside(alloc, ty, name)?;
    let seen = viewed(alloc, &ty, site);
    drop(ty);
    seen
}

// The entries in front of a surface.

ghost use Rattle.std.specs.Prelude.{◌≡◌, is_some, map, option_map, IfOk, OnOk};
ghost use Rattle.ac_types.specs.Types.{Bytes};
ghost use Rattle.ac_types.specs.Sigs.{named_type, type_under};
ghost use Rattle.ac_types.specs.ReadTypes.{typ_of, typed_of, sig_type_of, sig_of};
ghost use Rattle.ac_terms.specs.Read.{def_of_code, entry_of};
ghost use Rattle.ac_resolve_signatures.specs.KnownScopes.{updated};
ghost use Rattle.ac_resolve_signatures.specs.EntriesInFront.{size_of_manifest, signature_members, past_entry, past_entries, no_outer};
ghost use Rattle.ac_resolve_signatures.specs.Reads.{under, contains_name, members_of, externals_of};

use crate::outside::{Externals, Outside, Sizes, Words, insert_word, keep_size, put_outside};
use crate::size::{Size, ty_size};
use ac_terms::{Def, Entry};
use ac_types::{Memory, Sig, SigType, Ty, TyField, Word};
use std::alloc::Global;
use std::collections::{BTreeMap, BTreeSet};

/// The entries by their external names, of two with one name the later.
pub fn entries_in_front<'a>(alloc: Global, entries: &'a [Entry]) -> Result<Externals<'a>, Memory>
    ensures { IfOk result (λ x. externals_of x ≡ past_entries no_outer (map entry_of entries.now)) }
{
    let mut externals = BTreeMap::new(alloc);
    for entry in entries {
        put_entry(alloc, &mut externals, entry)?;
    }
    Ok(externals)
}

fn put_entry<'a>(
    alloc: Global,
    externals: &mut Externals<'a>,
    entry: &'a Entry,
) -> Result<(), Memory>
    ensures { OnOk result (externals_of externals.new
        ≡ past_entry (externals_of externals.old) (def_of_code entry.now.def)) }
{
    match &entry.def {
        Def::Module(module) => put_sig(alloc, externals, &module.name, &module.sig),
        Def::Import(import) => put_sig(alloc, externals, &import.name, &import.sig),
        Def::Mark(_) => Ok(()),
    }
}

fn put_sig<'a>(
    alloc: Global,
    externals: &mut Externals<'a>,
    name: &'a Word,
    sig: &'a Sig,
) -> Result<(), Memory>
    ensures { OnOk result (externals_of externals.new
        ≡ updated name.now (signature_members (sig_of sig.now)) (externals_of externals.old)) }
{
    let outside = seen(alloc, sig)?;
    put_outside(externals, name, outside)
}

// What a signature shows behind a dot.
fn seen<'a>(alloc: Global, sig: &'a Sig) -> Result<Outside<'a>, Memory>
    ensures { IfOk result (λ o. members_of o ≡ signature_members (sig_of sig.now)) }
{
    let types = sizes_of(alloc, sig.types.as_slice())?;
    let values = values_of(alloc, sig.vals.as_slice())?;
    Ok(Outside { types, values })
}

// The size of the first type of each name.
fn sizes_of<'a>(alloc: Global, types: &'a [SigType]) -> Result<Sizes<'a>, Memory>
    ensures { IfOk result (λ s. (t : Bytes) → under s t
        ≡ option_map size_of_manifest (type_under t (map sig_type_of types.now))) }
{
    let mut sizes = BTreeMap::new(alloc);
    for ty in types {
        keep_size(&mut sizes, &ty.name, size_of(&ty.manifest))?;
    }
    Ok(sizes)
}

fn size_of(manifest: &Option<Ty>) -> Size
    ensures { result ≡ size_of_manifest (option_map typ_of manifest.now) }
{
    match manifest {
        None => Size::leaf(),
        Some(ty) => ty_size(ty),
    }
}

fn values_of<'a>(alloc: Global, vals: &'a [TyField]) -> Result<Words<'a>, Memory>
    ensures { IfOk result (λ w. (x : Bytes) → contains_name w x
        ≡ is_some (named_type x (map typed_of vals.now))) }
{
    let mut words = BTreeSet::new(alloc);
    for val in vals {
        insert_word(&mut words, &val.name)?;
    }
    Ok(words)
}

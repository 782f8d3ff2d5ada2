// Signatures: what is wrong with them, and what they show behind a dot.

ghost use Rattle.std.specs.Prelude.{◌≡◌, ◌∷◌, [], map, IfOk, OnOk};
ghost use Rattle.std.specs.Option.{option_or};
ghost use Rattle.ac_types.specs.Types.{Bytes};
ghost use Rattle.ac_syntax.specs.ReadTrees.{spec_of};
ghost use Rattle.ac_resolve_scopes.specs.Standard.{beside_name};
ghost use Rattle.ac_resolve_signatures.specs.KnownScopes.{known_outside, with_size};
ghost use Rattle.ac_resolve_signatures.specs.SigFlaws.{past_spec, spec_flaws, flaws_in, spec_size, spec_sizes, spec_members, sig_flaws};
ghost use Rattle.ac_resolve_signatures.specs.Reads.{under, known_in, members_of, externals_of};

use crate::flaws::Flaws;
use crate::known::Scan;
use crate::lists::{SpecTypes, SpecValues, list_flaws};
use crate::named::words_of;
use crate::outside::{Externals, Outside, Sizes, keep_size};
use crate::pick::picked_names;
use crate::size::Size;
use crate::types::{measure, type_flaws};
use ac_syntax::{SName, SSpec};
use ac_types::Memory;
use std::alloc::Global;
use std::collections::BTreeMap;

/// What is wrong with a definition, and what it shows behind a dot.
#[derive(Drop)]
pub struct Shown<'a> {
    /// What is wrong.
    pub flaws: Flaws,
    /// What is seen from outside.
    pub outside: Outside<'a>,
}

/// What is wrong with a signature, and what it shows behind a dot.
pub fn shown_sig<'a>(
    alloc: Global,
    externals: &Externals<'a>,
    specs: &'a [SSpec],
) -> Result<Shown<'a>, Memory>
    ensures flaws { IfOk result (λ s. s.flaws
        ≡ sig_flaws (externals_of externals.now) (map spec_of specs.now)) }
    ensures outside { IfOk result (λ s. members_of s.outside
        ≡ spec_members (known_outside (externals_of externals.now)) (map spec_of specs.now)) }
{
    let types = picked_names(alloc, specs, &SpecTypes)?;
    let type_list = list_flaws(alloc, types.as_slice())?;
    let names = picked_names(alloc, specs, &SpecValues)?;
    let value_list = list_flaws(alloc, names.as_slice())?;
    let values = words_of(alloc, names.as_slice())?;
    let walked = walk(alloc, externals, specs)?;
    let types = walked.types;
    Ok(Shown {
        flaws: type_list.join(value_list).join(walked.flaws),
        outside: Outside { types, values },
    })
}

// What is wrong with the types of a signature, and the size of the first type of each name.
#[derive(Drop)]
struct Walked<'a> {
    flaws: Flaws,
    types: Sizes<'a>,
}

fn walk<'a>(
    alloc: Global,
    externals: &Externals<'a>,
    specs: &'a [SSpec],
) -> Result<Walked<'a>, Memory>
    ensures flaws { IfOk result (λ w. w.flaws ≡ flaws_in past_spec spec_flaws
        (known_outside (externals_of externals.now)) (map spec_of specs.now)) }
    ensures types { IfOk result (λ w. (t : Bytes) → under w.types t ≡ beside_name t
        (spec_sizes (known_outside (externals_of externals.now)) (map spec_of specs.now))) }
{
    let mut scan = Scan::new(alloc, externals);
    let mut types = BTreeMap::new(alloc);
    let mut flaws = Flaws::none();
    for spec in specs {
        let here = walk_spec(&mut scan, &mut types, spec)?;
        flaws = flaws.join(here);
    }
    Ok(Walked { flaws, types })
}

fn walk_spec<'a>(
    scan: &mut Scan<'_, 'a>,
    types: &mut Sizes<'a>,
    spec: &'a SSpec,
) -> Result<Flaws, Memory>
    ensures flaws { IfOk result (λ f. f ≡ spec_flaws (known_in scan.old) (spec_of spec.now)) }
    ensures scan { OnOk result (known_in scan.new
        ≡ past_spec (known_in scan.old) (spec_of spec.now)) }
    ensures types { OnOk result ((t : Bytes) → under types.new t ≡ option_or (under types.old t)
        (beside_name t (spec_size (known_in scan.old) (spec_of spec.now)))) }
{
    match spec {
        SSpec::Abstract(name) => {
            put(scan, types, name, Size::leaf())?;
            Ok(Flaws::none())
        }
        SSpec::Manifest(alias) => {
            let found = measure(&alias.ty, scan);
            put(scan, types, &alias.name, found.size)?;
            Ok(found.flaws())
        }
        SSpec::Val(_, ty) => Ok(type_flaws(ty, scan)),
    }
}

// Puts a type into the scope, and among those that are seen from outside.
fn put<'a>(
    scan: &mut Scan<'_, 'a>,
    types: &mut Sizes<'a>,
    name: &'a SName,
    size: Size,
) -> Result<(), Memory>
    ensures scan { OnOk result (known_in scan.new
        ≡ with_size name.now.word size (known_in scan.old)) }
    ensures types { OnOk result ((t : Bytes) → under types.new t ≡ option_or (under types.old t)
        (beside_name t ((name.now.word, size) ∷ []))) }
{
    keep_size(types, &name.word, size)?;
    scan.put_type(&name.word, size)
}

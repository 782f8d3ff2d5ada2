// The names of the types and of the values of signatures.

ghost use Rattle.std.specs.Prelude.{◌≡◌, map, IfOk};
ghost use Rattle.ac_syntax.specs.Trees.{SpecTree};
ghost use Rattle.ac_syntax.specs.ReadTrees.{spec_of};
ghost use Rattle.ac_resolve_scopes.specs.Repeated.{spec_type_name, spec_value_name};
ghost use Rattle.ac_resolve_signatures.specs.SigFlaws.{list_flaws};
ghost use Rattle.ac_resolve_signatures.specs.Reads.{named};

use crate::flaws::Flaws;
use crate::named::{Named, repeated_name};
use crate::pick::Pick;
use ac_syntax::SSpec;
use ac_types::Memory;
use ac_types::limits::MOST_ITEMS;
use std::alloc::Global;

/// What is wrong with a list of names, that of a signature, a struct or a likespec.
pub fn list_flaws(alloc: Global, names: &[Named]) -> Result<Flaws, Memory>
    ensures { IfOk result (λ f. f ≡ list_flaws (map named names.now)) }
{
    let repeated = repeated_name(alloc, names)?;
    let counted = Flaws::counted(MOST_ITEMS as u32, names.len());
    Ok(Flaws {
        unbound: None,
        repeated,
        count: counted.count,
    })
}

/// The types of a signature.
#[derive(Clone, Copy)]
pub struct SpecTypes;

impl Pick<SSpec> for SpecTypes {
    ghost Tree = { SpecTree };

    ghost read = { spec_of };

    ghost picks = { spec_type_name };

    fn pick<'a>(&self, spec: &'a SSpec) -> Option<Named<'a>> {
        match spec {
            SSpec::Abstract(name) => Some(Named::of(name)),
            SSpec::Manifest(alias) => Some(Named::of(&alias.name)),
            SSpec::Val(_, _) => None,
        }
    }
}

/// The values of a signature.
#[derive(Clone, Copy)]
pub struct SpecValues;

impl Pick<SSpec> for SpecValues {
    ghost Tree = { SpecTree };

    ghost read = { spec_of };

    ghost picks = { spec_value_name };

    fn pick<'a>(&self, spec: &'a SSpec) -> Option<Named<'a>> {
        match spec {
            SSpec::Abstract(_) => None,
            SSpec::Manifest(_) => None,
            SSpec::Val(name, _) => Some(Named::of(name)),
        }
    }
}

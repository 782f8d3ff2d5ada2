// What a module's signature has of what an import's wants.

ghost use Rattle.std.specs.Prelude.{◌≡◌, map, Some};
ghost use Rattle.ac_types.specs.Partial.{first_failing};
ghost use Rattle.ac_types.specs.ReadTypes.{typ_of, typed_of, sig_type_of, sig_of};
ghost use Rattle.ac_rules.specs.Links.{is_equal, has_type_spec, has_val_spec};

use ac_rules::eq_under;
use ac_types::{Sig, SigType, Ty, TyField, same_types, spec_named, type_named};

/// The first type of an import's signature that a module's lacks.
pub fn missing_type(exact: bool, found: &Sig, wanted: &Sig) -> Option<usize>
    ensures { result ≡ first_failing (has_type_spec exact (sig_of found.now))
        (map sig_type_of wanted.now.types) }
{
    wanted
        .types
        .as_slice()
        .iter()
        .position(|spec| !has_type_spec(exact, found, wanted, spec))
}

/// The first value of an import's signature that a module's lacks.
pub fn missing_val(exact: bool, found: &Sig, wanted: &Sig) -> Option<usize>
    ensures { result ≡ first_failing (has_val_spec exact (sig_of found.now))
        (map typed_of wanted.now.vals) }
{
    wanted
        .vals
        .as_slice()
        .iter()
        .position(|spec| !has_val_spec(exact, found, wanted, spec))
}

// An abstract type is abstract in the module, or by version manifest; a manifest one is manifest
// there and equal.
fn has_type_spec(exact: bool, found: &Sig, wanted: &Sig, spec: &SigType) -> bool
    ensures { result ≡ has_type_spec exact (sig_of found.now) (sig_type_of spec.now) }
{
    let Some(there) = spec_named(found.types.as_slice(), &spec.name) else {
        return false;
    };
    match &spec.manifest {
        None => there.manifest.is_none() || !exact,
        Some(ty) => match &there.manifest {
            None => false,
            Some(other) => is_equal(exact, found, wanted, other, ty),
        },
    }
}

// A value is there with an equal type.
fn has_val_spec(exact: bool, found: &Sig, wanted: &Sig, spec: &TyField) -> bool
    ensures { result ≡ has_val_spec exact (sig_of found.now) (typed_of spec.now) }
{
    match type_named(found.vals.as_slice(), &spec.name) {
        None => false,
        Some(ty) => is_equal(exact, found, wanted, ty, &spec.ty),
    }
}

// Whether a type of a module's signature is one of an import's: by exact name as it is, by
// version as the module has it.
fn is_equal(exact: bool, found: &Sig, wanted: &Sig, ty: &Ty, other: &Ty) -> bool
    ensures { result ≡ is_equal exact (sig_of found.now) (Some (typ_of ty.now)) (typ_of other.now) }
{
    if exact {
        same_types(ty, other)
    } else {
        eq_under(found, wanted, ty, other)
    }
}

// What a list has under a name.

ghost use Rattle.std.specs.Prelude.{◌≡◌, map, option_map};
ghost use Rattle.std.specs.List.{find};
ghost use Rattle.std.specs.Option.{option_copied};
ghost use Rattle.ac_types.specs.Types.{same_bytes};
ghost use Rattle.ac_types.specs.Sigs.{named_type, type_under};
ghost use Rattle.ac_types.specs.ReadTypes.{typ_of, typed_of, sig_type_of};

use crate::sig::{SigType, TyField};
use crate::text::Word;
use crate::ty::Ty;

/// The type under a name, `None` exactly where the list has none. It takes no memory.
pub fn type_named<'a>(types: &'a [TyField], name: &Word) -> Option<&'a Ty>
    ensures { option_map typ_of (option_copied result) ≡ named_type name.now
        (map typed_of types.now) }
{
    for x in types {
        if x.name.is(name) {
            return Some(&x.ty);
        }
    }
    None
}

/// A signature's first type of that name, `None` exactly where it has none. It takes no memory.
pub fn spec_named<'a>(types: &'a [SigType], name: &Word) -> Option<&'a SigType>
    ensures first { option_copied result ≡ find (λ s. same_bytes s.name name.now) types.now }
    ensures manifest { option_map (λ s. (sig_type_of s).manifest)
        (option_copied result) ≡ type_under name.now (map sig_type_of types.now) }
{
    for x in types {
        if x.name.is(name) {
            return Some(x);
        }
    }
    None
}

// What the fields of a struct have under a name.

ghost use Rattle.std.specs.Prelude.{◌≡◌, map, option_map};
ghost use Rattle.std.specs.Option.{option_copied};
ghost use Rattle.ac_types.specs.ReadTypes.{typ_of};
ghost use Rattle.ac_terms.specs.Read.{field_of};
ghost use Rattle.ac_rules.specs.Modules.{field_named};

use ac_terms::Field;
use ac_types::{Ty, Word};

/// The type that the field of that name writes.
pub fn field_named<'a>(fields: &'a [Field], name: &Word) -> Option<&'a Ty>
    ensures { option_map typ_of (option_copied result) ≡ field_named name.now
        (map field_of fields.now) }
{
    for x in fields {
        if x.name.is(name) {
            return Some(&x.ty);
        }
    }
    None
}

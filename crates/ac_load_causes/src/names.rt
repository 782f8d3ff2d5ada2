// The first entry of each name that has a text.

ghost use Rattle.std.specs.Prelude.{◌≡◌, ◌∷◌, OnOk, Some};
ghost use Rattle.ac_load_causes.specs.inner.Named.{number_under, put_number};

use ac_types::{Memory, Name};
use std::collections::BTreeMap;

/// Numbers of entries by their names.
pub type Numbers<'a> = BTreeMap<&'a [u8], u32>;

/// The number under a name.
pub fn number_under<'a>(numbers: &Numbers<'a>, name: &'a Name) -> Option<u32>
    ensures { result ≡ number_under numbers.now name.now.0 }
{
    numbers.get(&name.0.as_slice()).copied()
}

/// Puts a number under a name, in the place of the one that had it.
pub fn set_number<'a>(numbers: &mut Numbers<'a>, name: &'a Name, number: u32) -> Result<(), Memory>
    ensures { OnOk result (number_under numbers.new
        ≡ put_number name.now.0 number (number_under numbers.old)) }
{
    numbers.insert(name.0.as_slice(), number)?;
    Ok(())
}

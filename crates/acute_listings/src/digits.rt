// The digits of a name.

ghost use Rattle.std.specs.Prelude.{◌≡◌, ◌++◌, OnOk};
ghost use Rattle.hex.specs.Hex.{encode_lower};

use ac_types::{Memory, Name, Text};
use std::alloc::Global;

/// Adds the 64 digits of a name.
pub fn put_name(alloc: Global, text: &mut Text, name: &Name) -> Result<(), Memory>
    ensures { OnOk result (text.new.0 ≡ text.old.0 ++ encode_lower name.now.0) }
{
    let digits = hex::encode(alloc, name.0.as_slice())?;
    text.extend(digits.as_bytes())
}

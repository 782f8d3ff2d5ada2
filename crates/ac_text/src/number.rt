// Numbers in decimal digits.

ghost use Rattle.std.specs.Prelude.{◌≡◌, ◌++◌, IfOk, OnOk, string_bytes};
ghost use Rattle.std.specs.Fmt.{decimal, signed_decimal};

use ac_types::{Memory, Text};
use std::alloc::{AllocError, Global};

/// Adds the digits of a number.
pub fn put_number(alloc: Global, text: &mut Text, n: u64) -> Result<(), Memory>
    ensures { OnOk result (text.new.0 ≡ text.old.0 ++ decimal n) }
{
    text.extend(digits(alloc, n)?.as_bytes())
}

/// Adds the digits of a number, behind a `-` where it is negative.
pub fn put_integer(alloc: Global, text: &mut Text, n: i64) -> Result<(), Memory>
    ensures { OnOk result (text.new.0 ≡ text.old.0 ++ signed_decimal n) }
{
    text.extend(signed_digits(alloc, n)?.as_bytes())
}

fn digits(alloc: Global, n: u64) -> Result<String, AllocError>
    ensures { IfOk result (λ digits. string_bytes digits ≡ decimal n) }
{
    format!(in alloc; "{n}")
}

fn signed_digits(alloc: Global, n: i64) -> Result<String, AllocError>
    ensures { IfOk result (λ digits. string_bytes digits ≡ signed_decimal n) }
{
    format!(in alloc; "{n}")
}

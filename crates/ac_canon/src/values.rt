// The bytes of homes and of exceptions in packed values.

ghost use Rattle.std.specs.Prelude.{◌≡◌, ◌++◌, ◌∷◌, OnOk};
ghost use Rattle.ac_types.specs.ReadNumbers.{exn_number, exn_text};
ghost use Rattle.ac_terms.specs.Read.{home_of};
ghost use Rattle.ac_terms.specs.Spelling.{exn_bytes, home_bytes};
ghost use Rattle.ac_terms.specs.Tags.{value_fun, value_exn};

use crate::counts::{put_count_u16, put_str, put_tagged_byte, put_tagged_number};
use ac_bytes::Out;
use ac_terms::{Home, tags};
use ac_types::{Exn, Memory};

/// Puts where a function is at home, behind the tag of functions.
pub fn put_home(out: &mut Out, home: Home) -> Result<(), Memory>
    ensures { OnOk result (out.new ≡ out.old ++ value_fun ∷ home_bytes (home_of home)) }
{
    match home {
        Home::Main => put_tagged_number(out, tags::VALUE_FUN, 0),
        Home::In(k) => {
            out.put_u8(tags::VALUE_FUN)?;
            put_count_u16(out, k as usize + 1)
        }
    }
}

/// Puts an exception.
pub fn put_exn(out: &mut Out, exn: &Exn) -> Result<(), Memory>
    ensures { OnOk result (out.new ≡ out.old ++ value_exn ∷ exn_bytes (exn_number exn.now)
        (exn_text exn.now)) }
{
    match exn {
        Exn::Bare(exn) => put_tagged_byte(out, tags::VALUE_EXN, exn.number()),
        Exn::Text(exn, text) => {
            put_tagged_byte(out, tags::VALUE_EXN, exn.number())?;
            put_str(out, text)
        }
    }
}

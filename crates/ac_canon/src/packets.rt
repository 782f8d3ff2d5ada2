// What packets spell otherwise than canonical texts: references, and where imports look.

ghost use Rattle.std.specs.Prelude.{◌≡◌, ◌++◌, map, OnOk};
ghost use Rattle.ac_types.specs.ReadTypes.{resolve_of};
ghost use Rattle.ac_terms.specs.Spelling.{one_written, two_written, listed, type_bytes, resolve_bytes};

use crate::counts::{put_count_u8, put_count_u16, put_str};
use crate::spelling::Spelling;
use crate::types::put_type;
use ac_bytes::Out;
use ac_terms::tags;
use ac_types::{Memory, Resolve, Ty};

/// The spelling of packets: types in full, and a reference by the number of its definition.
#[derive(Clone, Copy)]
pub struct ByNumber;

impl Spelling for ByNumber {
    ghost spelled_type = { λ _ T. type_bytes T };

    ghost spelled_reference = { λ _ j. two_written j };

    fn put_type(&self, out: &mut Out, ty: &Ty) -> Result<(), Memory> {
        put_type(out, ty)
    }

    fn put_reference(&self, out: &mut Out, entry: u32) -> Result<(), Memory> {
        put_count_u16(out, entry as usize)
    }
}

// A place where an import looks for its module.
#[tactic(auto, using(crate::proofs::Lists::lists))]
fn put_resolve(out: &mut Out, by: &Resolve) -> Result<(), Memory>
    ensures { OnOk result (out.new ≡ out.old ++ resolve_bytes (resolve_of by.now)) }
{
    match by {
        Resolve::StaticLink => out.put_u8(tags::RESOLVE_STATIC_LINK),
        Resolve::HereAlready => out.put_u8(tags::RESOLVE_HERE_ALREADY),
        Resolve::Uri(uri) => {
            out.put_u8(tags::RESOLVE_URI)?;
            put_str(out, uri)
        }
    }
}

/// Puts a resolvespec: how many places it has, and each.
#[tactic(auto, using(crate::proofs::Lists::lists))]
pub fn put_resolves(out: &mut Out, places: &[Resolve]) -> Result<(), Memory>
    ensures { OnOk result (out.new ≡ out.old ++
        listed one_written resolve_bytes (map resolve_of places.now)) }
{
    put_count_u8(out, places.len())?;
    for by in places {
        put_resolve(out, by)?;
    }
    Ok(())
}

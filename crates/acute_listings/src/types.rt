// The listing of types.

ghost use Rattle.std.specs.Prelude.{◌≡◌, ◌++◌, [], map, OnOk};
ghost use Rattle.ac_types.specs.Types.{typs};
ghost use Rattle.ac_types.specs.ReadTypes.{typ_of};
ghost use Rattle.acute_listings.specs.Listing.{type_shown, parts_shown};

use crate::digits::put_name;
use ac_types::{Memory, Text, Ty};
use std::alloc::Global;

/// Adds a type.
#[cycle(ty)]
#[tactic(auto, using(ac_canon::proofs::TypeForms::type_laws))]
pub fn show_type(alloc: Global, text: &mut Text, ty: &Ty) -> Result<(), Memory>
    ensures { OnOk result (text.new.0 ≡ text.old.0 ++ type_shown (typ_of ty.now)) }
{
    match ty {
        Ty::Int => text.extend(b"int"),
        Ty::Bool => text.extend(b"bool"),
        Ty::Str => text.extend(b"string"),
        Ty::Unit => text.extend(b"unit"),
        Ty::Exn => text.extend(b"exn"),
        Ty::Tuple(parts) => {
            text.extend(b"(")?;
            put_parts(alloc, text, parts.as_slice())?;
            text.extend(b")")
        }
        Ty::List(item) => {
            text.extend(b"(")?;
            show_type(alloc, text, item)?;
            text.extend(b" list)")
        }
        Ty::Opt(item) => {
            text.extend(b"(")?;
            show_type(alloc, text, item)?;
            text.extend(b" option)")
        }
        Ty::Fun(from, to) => {
            text.extend(b"(")?;
            show_type(alloc, text, from)?;
            text.extend(b" -> ")?;
            show_type(alloc, text, to)?;
            text.extend(b")")
        }
        Ty::Abs(name, word) => {
            put_name(alloc, text, name)?;
            text.extend(b".")?;
            text.extend(word.text().as_slice())
        }
        Ty::Mine(word) => text.extend(word.text().as_slice()),
    }
}

// Adds the parts of a tuple's type.
#[cycle(ty)]
#[tactic(auto, using(ac_canon::proofs::TypeForms::type_laws))]
fn put_parts(alloc: Global, text: &mut Text, tys: &[Ty]) -> Result<(), Memory>
    ensures { OnOk result (text.new.0 ≡ text.old.0 ++ parts_shown [] (typs (map typ_of tys.now))) }
{
    let mut front: &[u8] = b"";
    for ty in tys {
        text.extend(front)?;
        show_type(alloc, text, ty)?;
        front = b" * ";
    }
    Ok(())
}

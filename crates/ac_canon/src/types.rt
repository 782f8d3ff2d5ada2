// The bytes of types.

ghost use Rattle.std.specs.Prelude.{◌≡◌, ◌++◌, map, OnOk, IfOk};
ghost use Rattle.ac_types.specs.Types.{typs};
ghost use Rattle.ac_types.specs.ReadTypes.{typ_of};
ghost use Rattle.ac_terms.specs.Read.{bytes_of};
ghost use Rattle.ac_terms.specs.Spelling.{type_bytes, all_type_bytes};

use crate::counts::{put_count_u8, put_word};
use ac_bytes::Out;
use ac_terms::tags;
use ac_types::{Memory, Text, Ty};
use std::alloc::Global;

/// The bytes of a type.
pub fn type_bytes(alloc: Global, t: &Ty) -> Result<Text, Memory>
    ensures { IfOk result (λ x. bytes_of x ≡ type_bytes (typ_of t.now)) }
{
    let mut out = Out::new(alloc);
    put_type(&mut out, t)?;
    Ok(out.into_text())
}

/// Puts a type in full.
#[cycle(ty)]
pub fn put_type(out: &mut Out, ty: &Ty) -> Result<(), Memory>
    ensures { OnOk result (out.new ≡ out.old ++ type_bytes (typ_of ty.now)) }
{
    match ty {
        Ty::Int => out.put_u8(tags::TYPE_INT),
        Ty::Bool => out.put_u8(tags::TYPE_BOOL),
        Ty::Str => out.put_u8(tags::TYPE_STR),
        Ty::Unit => out.put_u8(tags::TYPE_UNIT),
        Ty::Exn => out.put_u8(tags::TYPE_EXN),
        Ty::Tuple(parts) => {
            out.put_u8(tags::TYPE_TUPLE)?;
            put_count_u8(out, parts.len())?;
            put_types(out, parts.as_slice())
        }
        Ty::List(item) => {
            out.put_u8(tags::TYPE_LIST)?;
            put_type(out, item)
        }
        Ty::Opt(item) => {
            out.put_u8(tags::TYPE_OPT)?;
            put_type(out, item)
        }
        Ty::Fun(from, to) => {
            out.put_u8(tags::TYPE_FUN)?;
            put_type(out, from)?;
            put_type(out, to)
        }
        Ty::Abs(name, word) => {
            out.put_u8(tags::TYPE_ABS)?;
            out.put_bytes(name.0.as_slice())?;
            put_word(out, word)
        }
        Ty::Mine(word) => {
            out.put_u8(tags::TYPE_MINE)?;
            put_word(out, word)
        }
    }
}

// Puts each type.
#[cycle(ty)]
#[tactic(auto, using(crate::proofs::Joins::joins))]
fn put_types(out: &mut Out, tys: &[Ty]) -> Result<(), Memory>
    ensures { OnOk result (out.new ≡ out.old ++ all_type_bytes (typs (map typ_of tys.now))) }
{
    for ty in tys {
        put_type(out, ty)?;
    }
    Ok(())
}

// Signatures, whatever reads types.

ghost use Rattle.std.specs.Prelude.{Bool, List, Option, [], ◌∷◌, map, option_map, option_and_then, slice_get};
ghost use Rattle.ac_types.specs.Types.{Typ};
ghost use Rattle.ac_types.specs.Sigs.{Typed_name, Sig_type};
ghost use Rattle.ac_types.specs.ReadTypes.{typ_of, typed_of, sig_type_of, sig_of};
ghost use Rattle.ac_terms.specs.PacketReading.{ReadsPart, times};
ghost use Rattle.ac_decode_pieces.specs.ExactTypes.{manifest_table, exact_manifest, exact_sig_type, exact_typed, exact_all_typed, exact_sig_types, exact_sig};
ghost use Rattle.ac_decode_pieces.specs.Readers.{ReadsAs};

use crate::fault::{PieceFault, joined};
use crate::numbers::{take_byte, take_long_count};
use crate::texts::take_lower;
use crate::types::Types;
use ac_bytes::Cursor;
use ac_terms::tags;
use ac_types::limits::MOST_ITEMS;
use ac_types::{Many, Sig, SigType, Ty, TyField};
use std::alloc::Global;

// What a type of a signature is.
fn manifest<T: Types>(
    alloc: Global,
    cursor: &mut Cursor<'_>,
    types: &T,
) -> Result<Option<Ty>, PieceFault>
    ensures { ReadsAs (option_map typ_of) result
        (exact_manifest (T.reads_type types.now) cursor.old.left) cursor.new.left }
{
    let at = cursor.place();
    let tag = take_byte(cursor)?;
    manifest_behind(alloc, cursor, types, at, tag)
}

// The same behind its tag, which stands at that place.
fn manifest_behind<T: Types>(
    alloc: Global,
    cursor: &mut Cursor<'_>,
    types: &T,
    at: usize,
    tag: u8,
) -> Result<Option<Ty>, PieceFault>
    ensures { ReadsAs (option_map typ_of) result
        (option_and_then (λ (g : ReadsPart _). g cursor.old.left)
        (slice_get (manifest_table (T.reads_type types.now)) tag)) cursor.new.left }
{
    match tag {
        tags::SIG_ABSTRACT => Ok(None),
        tags::SIG_MANIFEST => Ok(Some(types.read_type(alloc, cursor, true)?)),
        _ => Err(PieceFault::Misfit { at }),
    }
}

// A type of a signature.
#[tactic(auto, unfolding(crate::specs::ExactTypes::exact_sig_type))]
fn sig_type<T: Types>(
    alloc: Global,
    cursor: &mut Cursor<'_>,
    types: &T,
) -> Result<SigType, PieceFault>
    ensures { ReadsAs sig_type_of result
        (exact_sig_type (T.reads_type types.now) cursor.old.left) cursor.new.left }
{
    let name = take_lower(alloc, cursor)?;
    let (name, manifest) = joined(name, manifest(alloc, cursor, types))?;
    Ok(SigType { name, manifest })
}

// So many of them.
fn some_sig_types<T: Types>(
    alloc: Global,
    cursor: &mut Cursor<'_>,
    types: &T,
    count: u16,
) -> Result<Many<SigType>, PieceFault>
    ensures { ReadsAs (map sig_type_of) result (times [] (λ x xs. x ∷ xs)
        (exact_sig_type (T.reads_type types.now)) count cursor.old.left) cursor.new.left }
{
    let mut items = Many::new(alloc);
    for _ in 0..count {
        let item = sig_type(alloc, cursor, types)?;
        items.push(item)?;
    }
    Ok(items)
}

// The types of a signature.
#[tactic(auto, unfolding(crate::specs::ExactTypes::exact_sig_types))]
fn sig_types<T: Types>(
    alloc: Global,
    cursor: &mut Cursor<'_>,
    types: &T,
) -> Result<Many<SigType>, PieceFault>
    ensures { ReadsAs (map sig_type_of) result
        (exact_sig_types (T.reads_type types.now) cursor.old.left) cursor.new.left }
{
    let n = take_long_count(cursor, 0, MOST_ITEMS)?;
    some_sig_types(alloc, cursor, types, n)
}

// A name with its type.
#[tactic(auto, unfolding(crate::specs::ExactTypes::exact_typed))]
fn typed<T: Types>(
    alloc: Global,
    cursor: &mut Cursor<'_>,
    types: &T,
    own: bool,
) -> Result<TyField, PieceFault>
    ensures { ReadsAs typed_of result
        (exact_typed (T.reads_type types.now) own cursor.old.left) cursor.new.left }
{
    let name = take_lower(alloc, cursor)?;
    let (name, ty) = joined(name, types.read_type(alloc, cursor, own))?;
    Ok(TyField { name, ty })
}

// So many of them.
fn some_typed<T: Types>(
    alloc: Global,
    cursor: &mut Cursor<'_>,
    types: &T,
    own: bool,
    count: u16,
) -> Result<Many<TyField>, PieceFault>
    ensures { ReadsAs (map typed_of) result (times [] (λ x xs. x ∷ xs)
        (exact_typed (T.reads_type types.now) own) count cursor.old.left) cursor.new.left }
{
    let mut items = Many::new(alloc);
    for _ in 0..count {
        let item = typed(alloc, cursor, types, own)?;
        items.push(item)?;
    }
    Ok(items)
}

/// Names with their types, at most `MOST_ITEMS`; `own` where own abstract types may stand in one.
#[tactic(auto, unfolding(crate::specs::ExactTypes::exact_all_typed))]
pub fn all_typed<T: Types>(
    alloc: Global,
    cursor: &mut Cursor<'_>,
    types: &T,
    own: bool,
) -> Result<Many<TyField>, PieceFault>
    ensures { ReadsAs (map typed_of) result
        (exact_all_typed (T.reads_type types.now) own cursor.old.left) cursor.new.left }
{
    let n = take_long_count(cursor, 0, MOST_ITEMS)?;
    some_typed(alloc, cursor, types, own, n)
}

/// A signature.
#[tactic(auto, unfolding(crate::specs::ExactTypes::exact_sig))]
pub fn take_sig<T: Types>(
    alloc: Global,
    cursor: &mut Cursor<'_>,
    types: &T,
) -> Result<Sig, PieceFault>
    ensures { ReadsAs sig_of result (exact_sig (T.reads_type types.now) cursor.old.left)
        cursor.new.left }
{
    let sig_types = sig_types(alloc, cursor, types)?;
    let (types, vals) = joined(sig_types, all_typed(alloc, cursor, types, true))?;
    Ok(Sig { types, vals })
}

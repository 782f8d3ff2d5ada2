// Types, and what reads them.

ghost use Rattle.std.specs.Prelude.{Bool, List, map, option_and_then, slice_get};
ghost use Rattle.ac_types.specs.Types.{Typ, TTuple, TList, TOpt, TFun, TAbs, TMine, no_types, typ, typs};
ghost use Rattle.ac_types.specs.ReadTypes.{typ_of};
ghost use Rattle.ac_terms.specs.PacketReading.{ReadsPart, one, two_parts_read, pair, times};
ghost use Rattle.ac_decode_pieces.specs.ExactReading.{exact_name, exact_lower};
ghost use Rattle.ac_decode_pieces.specs.ExactTypes.{exact_type_table, exact_type_of, exact_type};
ghost use Rattle.ac_decode_pieces.specs.Readers.{ReadsAs, ReadsOn, MadeOfRead};
ghost use Rattle.ac_decode_pieces.specs.inner.Follows.{type_follows};

use crate::fault::{PieceFault, joined};
use crate::numbers::{take_byte, take_name, width};
use crate::texts::take_lower;
use ac_bytes::Cursor;
use ac_terms::tags;
use ac_types::limits::HIGHEST_TYPE;
use ac_types::{Boxed, Many, Ty, small};
use std::alloc::Global;

/// What reads types.
pub trait Types {
    /// How types are read; `true` where own abstract types may stand in one.
    ghost reads_type: { Self → Bool → ReadsPart Typ };

    /// A type.
    fn read_type(&self, alloc: Global, cursor: &mut Cursor<'_>, own: bool) -> Result<Ty, PieceFault>
        ensures { ReadsAs typ_of result (reads_type self.now own cursor.old.left)
            cursor.new.left };
}

/// Types that are spelled in full.
#[derive(Clone, Copy)]
pub struct InFull;

impl Types for InFull {
    ghost reads_type = { λ _ own. exact_type own };

    fn read_type(
        &self,
        alloc: Global,
        cursor: &mut Cursor<'_>,
        own: bool,
    ) -> Result<Ty, PieceFault> {
        small_type(alloc, cursor, own)
    }
}

/// A type by its tag, and what stands behind it but for its inner types.
#[derive(Drop)]
pub enum TypeHead {
    /// A type without inner ones.
    Leaf(Ty),
    /// A tuple of so many parts.
    Tuple(u8),
    /// A list.
    List,
    /// An option.
    Opt,
    /// A function.
    Fun,
}

// An abstract type.
#[tactic(auto, using(ac_canon::proofs::TypeForms::type_laws))]
fn abstract_type(alloc: Global, cursor: &mut Cursor<'_>) -> Result<Ty, PieceFault>
    ensures { ReadsAs typ_of result (two_parts_read TAbs exact_name exact_lower cursor.old.left)
        cursor.new.left }
{
    let name = take_name(cursor)?;
    let word = take_lower(alloc, cursor)?;
    Ok(Ty::Abs(name, word))
}

// An own abstract type.
#[tactic(auto, using(ac_canon::proofs::TypeForms::type_laws))]
fn own_type(alloc: Global, cursor: &mut Cursor<'_>) -> Result<Ty, PieceFault>
    ensures { ReadsAs typ_of result (one TMine exact_lower cursor.old.left) cursor.new.left }
{
    let word = take_lower(alloc, cursor)?;
    Ok(Ty::Mine(word))
}

// The head of a type behind its tag, which stands at that place.
#[tactic(auto, using(ac_canon::proofs::TypeForms::type_laws))]
fn head(
    alloc: Global,
    cursor: &mut Cursor<'_>,
    own: bool,
    at: usize,
    tag: u8,
) -> Result<TypeHead, PieceFault>
    ensures { (f : ReadsPart Typ) → ReadsOn (λ h. type_follows f h cursor.new.left) result
        (option_and_then (λ (g : ReadsPart Typ). g cursor.old.left)
        (slice_get (exact_type_table own f) tag)) }
{
    match tag {
        tags::TYPE_INT => Ok(TypeHead::Leaf(Ty::Int)),
        tags::TYPE_BOOL => Ok(TypeHead::Leaf(Ty::Bool)),
        tags::TYPE_STR => Ok(TypeHead::Leaf(Ty::Str)),
        tags::TYPE_UNIT => Ok(TypeHead::Leaf(Ty::Unit)),
        tags::TYPE_EXN => Ok(TypeHead::Leaf(Ty::Exn)),
        tags::TYPE_TUPLE => Ok(TypeHead::Tuple(width(cursor)?)),
        tags::TYPE_LIST => Ok(TypeHead::List),
        tags::TYPE_OPT => Ok(TypeHead::Opt),
        tags::TYPE_FUN => Ok(TypeHead::Fun),
        tags::TYPE_ABS => Ok(TypeHead::Leaf(abstract_type(alloc, cursor)?)),
        tags::TYPE_MINE => {
            if !own {
                return Err(PieceFault::Misfit { at });
            }
            Ok(TypeHead::Leaf(own_type(alloc, cursor)?))
        }
        _ => Err(PieceFault::Misfit { at }),
    }
}

// A tuple.
#[tactic(auto, using(ac_canon::proofs::TypeForms::type_laws))]
fn tuple(parts: Result<Many<Ty>, PieceFault>) -> Result<Ty, PieceFault>
    ensures { MadeOfRead (λ (tys : List Ty). typs (map typ_of tys)) typ_of TTuple parts result }
{
    let parts = parts?;
    Ok(Ty::Tuple(parts))
}

// A list.
#[tactic(auto, using(ac_canon::proofs::TypeForms::type_laws))]
fn list(item: Result<Boxed<Ty>, PieceFault>) -> Result<Ty, PieceFault>
    ensures { MadeOfRead typ_of typ_of TList item result }
{
    let item = item?;
    Ok(Ty::List(item))
}

// An option.
#[tactic(auto, using(ac_canon::proofs::TypeForms::type_laws))]
fn option(item: Result<Boxed<Ty>, PieceFault>) -> Result<Ty, PieceFault>
    ensures { MadeOfRead typ_of typ_of TOpt item result }
{
    let item = item?;
    Ok(Ty::Opt(item))
}

// A function.
#[tactic(auto, using(ac_canon::proofs::TypeForms::type_laws))]
fn function(both: Result<(Boxed<Ty>, Boxed<Ty>), PieceFault>) -> Result<Ty, PieceFault>
    ensures { MadeOfRead {A = Typ × Typ} (λ p. (typ_of p.0, typ_of p.1)) typ_of
        (λ p. TFun p.0 p.1) both
        result }
{
    let (from, to) = both?;
    Ok(Ty::Fun(from, to))
}

// A type of at most that height.
#[cycle(types)]
fn type_of(alloc: Global, cursor: &mut Cursor<'_>, own: bool, depth: u32) -> Result<Ty, PieceFault>
    ensures { ReadsAs typ_of result (exact_type_of own depth cursor.old.left) cursor.new.left }
{
    let at = cursor.place();
    if depth == 0 {
        return Err(PieceFault::Misfit { at });
    }
    let inner = depth - 1;
    let tag = take_byte(cursor)?;
    let head = head(alloc, cursor, own, at, tag)?;
    match head {
        TypeHead::Leaf(ty) => Ok(ty),
        TypeHead::Tuple(n) => tuple(all(alloc, cursor, own, n, inner)),
        TypeHead::List => list(boxed(alloc, cursor, own, inner)),
        TypeHead::Opt => option(boxed(alloc, cursor, own, inner)),
        TypeHead::Fun => function(two_types(alloc, cursor, own, inner)),
    }
}

// The same in a box.
#[cycle(types)]
fn boxed(
    alloc: Global,
    cursor: &mut Cursor<'_>,
    own: bool,
    depth: u32,
) -> Result<Boxed<Ty>, PieceFault>
    ensures { ReadsAs typ_of result (exact_type_of own depth cursor.old.left) cursor.new.left }
{
    let ty = type_of(alloc, cursor, own, depth)?;
    Ok(Boxed::new(alloc, ty)?)
}

// Two types.
#[cycle(types)]
fn two_types(
    alloc: Global,
    cursor: &mut Cursor<'_>,
    own: bool,
    depth: u32,
) -> Result<(Boxed<Ty>, Boxed<Ty>), PieceFault>
    ensures { ReadsAs (λ p. (typ_of p.0, typ_of p.1)) result
        (pair (exact_type_of own depth) (exact_type_of own depth) cursor.old.left)
        cursor.new.left }
{
    let from = boxed(alloc, cursor, own, depth)?;
    joined(from, boxed(alloc, cursor, own, depth))
}

// So many types.
#[cycle(types)]
fn all(
    alloc: Global,
    cursor: &mut Cursor<'_>,
    own: bool,
    count: u8,
    depth: u32,
) -> Result<Many<Ty>, PieceFault>
    ensures { ReadsAs (λ (tys : List Ty). typs (map typ_of tys)) result
        (times no_types typ (exact_type_of own depth) count cursor.old.left) cursor.new.left }
{
    let mut items = Many::new(alloc);
    for _ in 0..count {
        let item = type_of(alloc, cursor, own, depth)?;
        items.push(item)?;
    }
    Ok(items)
}

// A small type.
#[tactic(auto, unfolding(crate::specs::ExactTypes::exact_type))]
fn small_type(alloc: Global, cursor: &mut Cursor<'_>, own: bool) -> Result<Ty, PieceFault>
    ensures { ReadsAs typ_of result (exact_type own cursor.old.left) cursor.new.left }
{
    let at = cursor.place();
    let ty = type_of(alloc, cursor, own, HIGHEST_TYPE)?;
    if !small(&ty) {
        return Err(PieceFault::Misfit { at });
    }
    Ok(ty)
}

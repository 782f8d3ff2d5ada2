// Versions, constraints and resolvespecs.

ghost use Rattle.std.specs.Prelude.{ℕ, List, [], ◌∷◌, map, option_and_then, slice_get};
ghost use Rattle.ac_types.specs.ReadTypes.{atom_of, range_of, constraint_of, resolve_of};
ghost use Rattle.ac_terms.specs.PacketReading.{ReadsPart, times};
ghost use Rattle.ac_decode_pieces.specs.ExactReading.{atom_table, exact_atom, exact_version, range_table, exact_range, exact_ranges, constraint_table, exact_constraint, resolve_table, exact_resolve, exact_resolves};
ghost use Rattle.ac_decode_pieces.specs.Readers.{ReadsAs};

use crate::fault::PieceFault;
use crate::numbers::{take_byte, take_count, take_four, take_name, take_truth};
use crate::texts::take_text;
use ac_bytes::Cursor;
use ac_terms::tags;
use ac_types::limits::{LONGEST_URI, MOST_RESOLVES, MOST_VERSION_ATOMS};
use ac_types::{Atom, Constraint, Many, Range, Resolve, Version};
use std::alloc::Global;

// A part of a version.
fn atom(cursor: &mut Cursor<'_>) -> Result<Atom, PieceFault>
    ensures { ReadsAs atom_of result (exact_atom cursor.old.left) cursor.new.left }
{
    let at = cursor.place();
    let tag = take_byte(cursor)?;
    atom_behind(cursor, at, tag)
}

// The same behind its tag, which stands at that place.
fn atom_behind(cursor: &mut Cursor<'_>, at: usize, tag: u8) -> Result<Atom, PieceFault>
    ensures { ReadsAs atom_of result (option_and_then (λ (g : ReadsPart _). g cursor.old.left)
        (slice_get atom_table tag)) cursor.new.left }
{
    match tag {
        tags::ATOM_NUMBER => Ok(Atom::Number(take_four(cursor)?)),
        tags::ATOM_MY_NAME => Ok(Atom::MyName),
        _ => Err(PieceFault::Misfit { at }),
    }
}

// So many parts of a version.
fn atoms(alloc: Global, cursor: &mut Cursor<'_>, count: u8) -> Result<Many<Atom>, PieceFault>
    ensures { ReadsAs (map atom_of) result
        (times [] (λ x xs. x ∷ xs) exact_atom count cursor.old.left) cursor.new.left }
{
    let mut items = Many::new(alloc);
    for _ in 0..count {
        let item = atom(cursor)?;
        items.push(item)?;
    }
    Ok(items)
}

/// A version: 1 to `MOST_VERSION_ATOMS` parts.
#[tactic(auto, unfolding(crate::specs::ExactReading::exact_version))]
pub fn take_version(alloc: Global, cursor: &mut Cursor<'_>) -> Result<Version, PieceFault>
    ensures { ReadsAs (λ v. map atom_of v.atoms) result (exact_version cursor.old.left)
        cursor.new.left }
{
    let n = take_count(cursor, 1, MOST_VERSION_ATOMS as u8)?;
    let atoms = atoms(alloc, cursor, n)?;
    Ok(Version { atoms })
}

// The numbers that a constraint allows at one place.
fn range(cursor: &mut Cursor<'_>) -> Result<Range, PieceFault>
    ensures { ReadsAs range_of result (exact_range cursor.old.left) cursor.new.left }
{
    let at = cursor.place();
    let tag = take_byte(cursor)?;
    range_behind(cursor, at, tag)
}

// The same behind its tag, which stands at that place.
fn range_behind(cursor: &mut Cursor<'_>, at: usize, tag: u8) -> Result<Range, PieceFault>
    ensures { ReadsAs range_of result (option_and_then (λ (g : ReadsPart _). g cursor.old.left)
        (slice_get range_table tag)) cursor.new.left }
{
    match tag {
        tags::RANGE_ONE => Ok(Range::One(take_four(cursor)?)),
        tags::RANGE_BETWEEN => {
            let least = take_four(cursor)?;
            let most = take_four(cursor)?;
            Ok(Range::Between(least, most))
        }
        tags::RANGE_UP_TO => Ok(Range::UpTo(take_four(cursor)?)),
        tags::RANGE_FROM => Ok(Range::From(take_four(cursor)?)),
        _ => Err(PieceFault::Misfit { at }),
    }
}

// So many of them.
fn all_ranges(alloc: Global, cursor: &mut Cursor<'_>, count: u8) -> Result<Many<Range>, PieceFault>
    ensures { ReadsAs (map range_of) result
        (times [] (λ x xs. x ∷ xs) exact_range count cursor.old.left) cursor.new.left }
{
    let mut items = Many::new(alloc);
    for _ in 0..count {
        let item = range(cursor)?;
        items.push(item)?;
    }
    Ok(items)
}

// Ranges and whether there is a star: without ranges there is one.
#[tactic(auto, unfolding(crate::specs::ExactReading::exact_ranges))]
fn ranges(alloc: Global, cursor: &mut Cursor<'_>) -> Result<(Many<Range>, bool), PieceFault>
    ensures { ReadsAs (λ p. (map range_of p.0, p.1)) result (exact_ranges cursor.old.left)
        cursor.new.left }
{
    let at = cursor.place();
    let n = take_count(cursor, 0, MOST_VERSION_ATOMS as u8)?;
    let atoms = all_ranges(alloc, cursor, n)?;
    let star = take_truth(cursor)?;
    if !star && atoms.len() < 1 {
        return Err(PieceFault::Misfit { at });
    }
    Ok((atoms, star))
}

/// A constraint.
pub fn take_constraint(alloc: Global, cursor: &mut Cursor<'_>) -> Result<Constraint, PieceFault>
    ensures { ReadsAs constraint_of result (exact_constraint cursor.old.left) cursor.new.left }
{
    let at = cursor.place();
    let tag = take_byte(cursor)?;
    constraint_behind(alloc, cursor, at, tag)
}

// The same behind its tag, which stands at that place.
fn constraint_behind(
    alloc: Global,
    cursor: &mut Cursor<'_>,
    at: usize,
    tag: u8,
) -> Result<Constraint, PieceFault>
    ensures { ReadsAs constraint_of result (option_and_then (λ (g : ReadsPart _). g cursor.old.left)
        (slice_get constraint_table tag)) cursor.new.left }
{
    match tag {
        tags::CONSTRAINT_RANGES => {
            let (atoms, star) = ranges(alloc, cursor)?;
            Ok(Constraint::Ranges { atoms, star })
        }
        tags::CONSTRAINT_EXACT => Ok(Constraint::Exact(take_name(cursor)?)),
        _ => Err(PieceFault::Misfit { at }),
    }
}

// A place where an import looks for its module.
fn resolve(alloc: Global, cursor: &mut Cursor<'_>) -> Result<Resolve, PieceFault>
    ensures { ReadsAs resolve_of result (exact_resolve cursor.old.left) cursor.new.left }
{
    let at = cursor.place();
    let tag = take_byte(cursor)?;
    resolve_behind(alloc, cursor, at, tag)
}

// The same behind its tag, which stands at that place.
fn resolve_behind(
    alloc: Global,
    cursor: &mut Cursor<'_>,
    at: usize,
    tag: u8,
) -> Result<Resolve, PieceFault>
    ensures { ReadsAs resolve_of result (option_and_then (λ (g : ReadsPart _). g cursor.old.left)
        (slice_get resolve_table tag)) cursor.new.left }
{
    match tag {
        tags::RESOLVE_STATIC_LINK => Ok(Resolve::StaticLink),
        tags::RESOLVE_HERE_ALREADY => Ok(Resolve::HereAlready),
        tags::RESOLVE_URI => Ok(Resolve::Uri(take_text(alloc, cursor, LONGEST_URI)?)),
        _ => Err(PieceFault::Misfit { at }),
    }
}

// So many of them.
fn places(alloc: Global, cursor: &mut Cursor<'_>, count: u8) -> Result<Many<Resolve>, PieceFault>
    ensures { ReadsAs (map resolve_of) result
        (times [] (λ x xs. x ∷ xs) exact_resolve count cursor.old.left) cursor.new.left }
{
    let mut items = Many::new(alloc);
    for _ in 0..count {
        let item = resolve(alloc, cursor)?;
        items.push(item)?;
    }
    Ok(items)
}

/// A resolvespec: 1 to `MOST_RESOLVES` places.
#[tactic(auto, unfolding(crate::specs::ExactReading::exact_resolves))]
pub fn take_resolves(alloc: Global, cursor: &mut Cursor<'_>) -> Result<Many<Resolve>, PieceFault>
    ensures { ReadsAs (map resolve_of) result (exact_resolves cursor.old.left) cursor.new.left }
{
    let n = take_count(cursor, 1, MOST_RESOLVES)?;
    places(alloc, cursor, n)
}

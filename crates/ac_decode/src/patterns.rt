// Patterns. The depth of the recursion is the nesting, which is bounded.

ghost use Rattle.std.specs.Prelude.{List, map};
ghost use Rattle.ac_terms.specs.Terms.{no_patterns, pattern', patterns};
ghost use Rattle.ac_terms.specs.Read.{pattern_of};
ghost use Rattle.ac_terms.specs.PacketReading.{pair, times};
ghost use Rattle.ac_decode_pieces.specs.Readers.{ReadsAs};
ghost use Rattle.ac_decode.specs.inner.ExactTerms.{exact_pattern};

use crate::heads::{PatHead, pattern_head};
use crate::makes::{pat_cons, pat_exn, pat_present, pat_tuple};
use ac_bytes::Cursor;
use ac_decode_pieces::{PieceFault, Types, joined, take_byte};
use ac_terms::Pat;
use ac_types::{Boxed, Many};
use std::alloc::Global;

/// A pattern of at most that nesting.
#[cycle(patterns)]
pub fn take_pattern<T: Types>(
    alloc: Global,
    cursor: &mut Cursor<'_>,
    types: &T,
    depth: u32,
) -> Result<Pat, PieceFault>
    ensures { ReadsAs pattern_of result
        (exact_pattern (T.reads_type types.now) depth cursor.old.left) cursor.new.left }
{
    let at = cursor.place();
    if depth == 0 {
        return Err(PieceFault::Misfit { at });
    }
    let inner = depth - 1;
    let tag = take_byte(cursor)?;
    let head = pattern_head(alloc, cursor, types, at, tag)?;
    match head {
        PatHead::Leaf(pat) => Ok(pat),
        PatHead::Tuple(n) => pat_tuple(all_patterns(alloc, cursor, types, n, inner)),
        PatHead::Cons => pat_cons(two_patterns(alloc, cursor, types, inner)),
        PatHead::Present => pat_present(boxed_pattern(alloc, cursor, types, inner)),
        PatHead::Exn(exn) => pat_exn(exn, boxed_pattern(alloc, cursor, types, inner)),
    }
}

// The same in a box.
#[cycle(patterns)]
fn boxed_pattern<T: Types>(
    alloc: Global,
    cursor: &mut Cursor<'_>,
    types: &T,
    depth: u32,
) -> Result<Boxed<Pat>, PieceFault>
    ensures { ReadsAs pattern_of result
        (exact_pattern (T.reads_type types.now) depth cursor.old.left) cursor.new.left }
{
    let pat = take_pattern(alloc, cursor, types, depth)?;
    Ok(Boxed::new(alloc, pat)?)
}

// Two patterns.
#[cycle(patterns)]
fn two_patterns<T: Types>(
    alloc: Global,
    cursor: &mut Cursor<'_>,
    types: &T,
    depth: u32,
) -> Result<(Boxed<Pat>, Boxed<Pat>), PieceFault>
    ensures { ReadsAs (λ p. (pattern_of p.0, pattern_of p.1)) result
        (pair (exact_pattern (T.reads_type types.now) depth)
        (exact_pattern (T.reads_type types.now) depth) cursor.old.left) cursor.new.left }
{
    let head = boxed_pattern(alloc, cursor, types, depth)?;
    joined(head, boxed_pattern(alloc, cursor, types, depth))
}

// So many patterns.
#[cycle(patterns)]
fn all_patterns<T: Types>(
    alloc: Global,
    cursor: &mut Cursor<'_>,
    types: &T,
    count: u8,
    depth: u32,
) -> Result<Many<Pat>, PieceFault>
    ensures { ReadsAs (λ (ps : List Pat). patterns (map pattern_of ps)) result
        (times no_patterns pattern' (exact_pattern (T.reads_type types.now) depth) count
        cursor.old.left) cursor.new.left }
{
    let mut items = Many::new(alloc);
    for _ in 0..count {
        let item = take_pattern(alloc, cursor, types, depth)?;
        items.push(item)?;
    }
    Ok(items)
}

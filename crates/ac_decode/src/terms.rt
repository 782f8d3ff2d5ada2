// Terms, arms and packed values. The depth of the recursion is the nesting, which is bounded.

ghost use Rattle.std.specs.Prelude.{Bool, true, List, map, option_and_then, slice_get};
ghost use Rattle.ac_terms.specs.Terms.{Expr, no_exprs, expr, exprs, no_arms, arms, no_pvalues, pvalue, pvalues};
ghost use Rattle.ac_terms.specs.Read.{expr_of, arm_of, value_of};
ghost use Rattle.ac_terms.specs.Bounds.{is_lambda};
ghost use Rattle.ac_terms.specs.PacketReading.{ReadsPart, pair, times};
ghost use Rattle.ac_decode_pieces.specs.ExactReading.{passing};
ghost use Rattle.ac_decode_pieces.specs.Readers.{ReadsAs};
ghost use Rattle.ac_decode.specs.inner.ExactTerms.{an_arm, exact_cases, exact_pattern, exact_term_table, exact_term, exact_value};

use crate::heads::{TermHead, ValueHead, term_head, value_head};
use crate::makes::{
    around, captured, cases, choice, joint, row, value_function, value_list, value_present,
    value_tuple,
};
use crate::patterns::take_pattern;
use crate::shapes::lambda;
use ac_bytes::Cursor;
use ac_decode_pieces::{PieceFault, Types, joined, take_byte, take_long_count};
use ac_terms::{Arm, PVal, Term};
use ac_types::limits::MOST_ARMS;
use ac_types::{Boxed, Many};
use std::alloc::Global;

/// A term of at most that nesting; `within` where captured values may stand in it.
#[cycle(terms)]
pub fn take_term<T: Types>(
    alloc: Global,
    cursor: &mut Cursor<'_>,
    types: &T,
    within: bool,
    depth: u32,
) -> Result<Term, PieceFault>
    ensures { ReadsAs expr_of result
        (exact_term (T.reads_type types.now) within depth cursor.old.left) cursor.new.left }
{
    let at = cursor.place();
    if depth == 0 {
        return Err(PieceFault::Misfit { at });
    }
    let inner = depth - 1;
    let tag = take_byte(cursor)?;
    let head = term_head(alloc, cursor, types, within, at, tag)?;
    match head {
        TermHead::Leaf(term) => Ok(term),
        TermHead::Around(kind) => around(kind, boxed_term(alloc, cursor, types, within, inner)),
        TermHead::Joint(kind) => joint(kind, two_terms(alloc, cursor, types, within, inner)),
        TermHead::Choice => choice(three_terms(alloc, cursor, types, within, inner)),
        TermHead::Row(kind, n) => row(kind, all_terms(alloc, cursor, types, within, n, inner)),
        TermHead::Cases(kind) => cases(kind, with_arms(alloc, cursor, types, within, inner)),
        TermHead::Captured(ty) => captured(ty, value(alloc, cursor, types, inner)),
    }
}

// The same in a box.
#[cycle(terms)]
fn boxed_term<T: Types>(
    alloc: Global,
    cursor: &mut Cursor<'_>,
    types: &T,
    within: bool,
    depth: u32,
) -> Result<Boxed<Term>, PieceFault>
    ensures { ReadsAs expr_of result
        (exact_term (T.reads_type types.now) within depth cursor.old.left) cursor.new.left }
{
    let term = take_term(alloc, cursor, types, within, depth)?;
    Ok(Boxed::new(alloc, term)?)
}

// Two terms.
#[cycle(terms)]
fn two_terms<T: Types>(
    alloc: Global,
    cursor: &mut Cursor<'_>,
    types: &T,
    within: bool,
    depth: u32,
) -> Result<(Boxed<Term>, Boxed<Term>), PieceFault>
    ensures { ReadsAs (λ p. (expr_of p.0, expr_of p.1)) result
        (pair (exact_term (T.reads_type types.now) within depth)
        (exact_term (T.reads_type types.now) within depth) cursor.old.left) cursor.new.left }
{
    let first = boxed_term(alloc, cursor, types, within, depth)?;
    joined(first, boxed_term(alloc, cursor, types, within, depth))
}

// Three terms.
#[cycle(terms)]
fn three_terms<T: Types>(
    alloc: Global,
    cursor: &mut Cursor<'_>,
    types: &T,
    within: bool,
    depth: u32,
) -> Result<(Boxed<Term>, (Boxed<Term>, Boxed<Term>)), PieceFault>
    ensures { ReadsAs (λ p. (expr_of p.0, (expr_of p.1.0, expr_of p.1.1))) result
        (pair (exact_term (T.reads_type types.now) within depth)
        (pair (exact_term (T.reads_type types.now) within depth)
        (exact_term (T.reads_type types.now) within depth)) cursor.old.left) cursor.new.left }
{
    let first = boxed_term(alloc, cursor, types, within, depth)?;
    joined(first, two_terms(alloc, cursor, types, within, depth))
}

// So many terms.
#[cycle(terms)]
fn all_terms<T: Types>(
    alloc: Global,
    cursor: &mut Cursor<'_>,
    types: &T,
    within: bool,
    count: u32,
    depth: u32,
) -> Result<Many<Term>, PieceFault>
    ensures { ReadsAs (λ (ts : List Term). exprs (map expr_of ts)) result
        (times no_exprs expr (exact_term (T.reads_type types.now) within depth) count
        cursor.old.left) cursor.new.left }
{
    let mut items = Many::new(alloc);
    for _ in 0..count {
        let item = take_term(alloc, cursor, types, within, depth)?;
        items.push(item)?;
    }
    Ok(items)
}

// A term, and arms behind it.
#[cycle(terms)]
fn with_arms<T: Types>(
    alloc: Global,
    cursor: &mut Cursor<'_>,
    types: &T,
    within: bool,
    depth: u32,
) -> Result<(Boxed<Term>, Many<Arm>), PieceFault>
    ensures { ReadsAs (λ p. (expr_of p.0, arms (map arm_of p.1))) result
        (pair (exact_term (T.reads_type types.now) within depth)
        (exact_cases (exact_pattern (T.reads_type types.now) depth)
        (exact_term (T.reads_type types.now) within depth)) cursor.old.left) cursor.new.left }
{
    let of = boxed_term(alloc, cursor, types, within, depth)?;
    joined(of, counted_arms(alloc, cursor, types, within, depth))
}

// How many arms there are, and each.
#[cycle(terms)]
fn counted_arms<T: Types>(
    alloc: Global,
    cursor: &mut Cursor<'_>,
    types: &T,
    within: bool,
    depth: u32,
) -> Result<Many<Arm>, PieceFault>
    ensures { ReadsAs (λ (cs : List Arm). arms (map arm_of cs)) result
        (exact_cases (exact_pattern (T.reads_type types.now) depth)
        (exact_term (T.reads_type types.now) within depth) cursor.old.left) cursor.new.left }
{
    let count = take_long_count(cursor, 1, MOST_ARMS)?;
    all_arms(alloc, cursor, types, within, count, depth)
}

// So many arms.
#[cycle(terms)]
fn all_arms<T: Types>(
    alloc: Global,
    cursor: &mut Cursor<'_>,
    types: &T,
    within: bool,
    count: u16,
    depth: u32,
) -> Result<Many<Arm>, PieceFault>
    ensures { ReadsAs (λ (cs : List Arm). arms (map arm_of cs)) result
        (times no_arms an_arm (pair (exact_pattern (T.reads_type types.now) depth)
        (exact_term (T.reads_type types.now) within depth)) count cursor.old.left)
        cursor.new.left }
{
    let mut items = Many::new(alloc);
    for _ in 0..count {
        let item = one_arm(alloc, cursor, types, within, depth)?;
        items.push(item)?;
    }
    Ok(items)
}

// An arm.
#[cycle(terms)]
fn one_arm<T: Types>(
    alloc: Global,
    cursor: &mut Cursor<'_>,
    types: &T,
    within: bool,
    depth: u32,
) -> Result<Arm, PieceFault>
    ensures { ReadsAs arm_of result
        (pair (exact_pattern (T.reads_type types.now) depth)
        (exact_term (T.reads_type types.now) within depth) cursor.old.left) cursor.new.left }
{
    let pat = take_pattern(alloc, cursor, types, depth)?;
    let (pat, body) = joined(pat, take_term(alloc, cursor, types, within, depth))?;
    Ok(Arm { pat, body })
}

/// A packed value of at most that nesting.
#[cycle(terms)]
pub fn value<T: Types>(
    alloc: Global,
    cursor: &mut Cursor<'_>,
    types: &T,
    depth: u32,
) -> Result<PVal, PieceFault>
    ensures { ReadsAs value_of result
        (exact_value (T.reads_type types.now) depth cursor.old.left) cursor.new.left }
{
    let at = cursor.place();
    if depth == 0 {
        return Err(PieceFault::Misfit { at });
    }
    let inner = depth - 1;
    let tag = take_byte(cursor)?;
    let head = value_head(alloc, cursor, at, tag)?;
    match head {
        ValueHead::Leaf(value) => Ok(value),
        ValueHead::Tuple(n) => value_tuple(all_values(alloc, cursor, types, n as u32, inner)),
        ValueHead::List(n) => value_list(all_values(alloc, cursor, types, n, inner)),
        ValueHead::Present => value_present(boxed_value(alloc, cursor, types, inner)),
        ValueHead::Fun(home) => value_function(home, function(alloc, cursor, types, inner)),
    }
}

// The same in a box.
#[cycle(terms)]
fn boxed_value<T: Types>(
    alloc: Global,
    cursor: &mut Cursor<'_>,
    types: &T,
    depth: u32,
) -> Result<Boxed<PVal>, PieceFault>
    ensures { ReadsAs value_of result
        (exact_value (T.reads_type types.now) depth cursor.old.left) cursor.new.left }
{
    let value = value(alloc, cursor, types, depth)?;
    Ok(Boxed::new(alloc, value)?)
}

// A function of a packed value.
#[cycle(terms)]
fn function<T: Types>(
    alloc: Global,
    cursor: &mut Cursor<'_>,
    types: &T,
    depth: u32,
) -> Result<Boxed<Term>, PieceFault>
    ensures { ReadsAs expr_of result
        (passing is_lambda (exact_term (T.reads_type types.now) true depth) cursor.old.left)
        cursor.new.left }
{
    let at = cursor.place();
    let term = take_term(alloc, cursor, types, true, depth)?;
    lambda(alloc, at, term)
}

// So many packed values.
#[cycle(terms)]
fn all_values<T: Types>(
    alloc: Global,
    cursor: &mut Cursor<'_>,
    types: &T,
    count: u32,
    depth: u32,
) -> Result<Many<PVal>, PieceFault>
    ensures { ReadsAs (λ (vs : List PVal). pvalues (map value_of vs)) result
        (times no_pvalues pvalue (exact_value (T.reads_type types.now) depth) count
        cursor.old.left) cursor.new.left }
{
    let mut items = Many::new(alloc);
    for _ in 0..count {
        let item = value(alloc, cursor, types, depth)?;
        items.push(item)?;
    }
    Ok(items)
}

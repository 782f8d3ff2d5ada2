// Patterns, by recursive descent. Each parser takes the front of the signs and gives what is left.
// A pattern may have the height `depth` at most: what would be higher is refused on the way down.

ghost use Rattle.std.specs.Prelude.{◌≡◌, ◌<◌, ◌-◌, ◌^◌, ◌∷◌, [], ◌++◌, ℕ, false, max, map, IfOk, MatchOption, Some, None};
ghost use Rattle.ac_syntax.specs.Signs.{Fixed};
ghost use Rattle.ac_syntax.specs.Trees.{PatCons, PatTuple, pat_trees, highest_pat};
ghost use Rattle.ac_syntax.specs.Patterns.{Pattern, Prefixed, Single, IsPatTree, IsPattern};
ghost use Rattle.ac_syntax.specs.ReadSigns.{read_signs};
ghost use Rattle.ac_syntax.specs.ReadTrees.{pat_of, pat_kind_of};
ghost use Rattle.ac_syntax.specs.PartParsing.{NoSymbol};
ghost use Rattle.ac_parser_patterns.specs.Reading.{Nothing, ReadsOr, ReadsKind};
ghost use Rattle.ac_parser_patterns.specs.PatternPieces.{prefixed_pat, base_pat, PatLeafAt, NoPatLeaf, IsPats, PatTupleOf, PatVarAt, pat_measured, ReadsPatOr, ReadsPat, MakesPat, ClosesPat};
ghost use Rattle.ac_parser_patterns.specs.Pieces.{Before, IsTypedBinder, begins_lower, Past};

use crate::binders::typed;
use crate::front::{
    Prefix, begins_name, constant, expect, followed, negated, next_number, next_prefix,
};
use ac_syntax::{
    ParseError, SPat, SPatKind, Sign, SignKind, Symbol, after, here, next, refused_at,
};
use ac_types::limits::HIGHEST_PATTERN;
use ac_types::{BareExn, Boxed, Many, Memory, both};
use std::alloc::Global;

/// A pattern, and its height.
pub struct ParsedPat {
    pub tree: SPat,
    pub height: u32,
}

// One call lets a pattern go; a derived drop would stand part by part where it is let go.
impl Drop for ParsedPat {
    fn drop(self) {
        let ParsedPat { tree: _, height: _ } = self;
    }
}

impl ParsedPat {
    /// The pattern alone.
    pub fn into_tree(self) -> SPat
        ensures { result ≡ self.tree }
    {
        let ParsedPat { tree, height: _ } = self;
        tree
    }
}

// A list's head and tail.
#[tactic(auto, using(crate::proofs::PatLaws::pat_laws))]
fn cons<'s, 't>(
    alloc: Global,
    at: u32,
    head: ParsedPat,
    tail: ParsedPat,
    rest: &'s [Sign<'t>],
) -> Result<(ParsedPat, &'s [Sign<'t>]), ParseError>
    requires low { max head.height tail.height < 2 ^ 32 - 1 }
    requires head { pat_measured head }
    requires tail { pat_measured tail }
    ensures { MakesPat (PatCons at (pat_of head.tree) (pat_of tail.tree)) rest.now result }
{
    let height = head.height.max(tail.height) + 1;
    let head = Boxed::new(alloc, head.into_tree());
    let tail = Boxed::new(alloc, tail.into_tree());
    let (head, tail) = both(head, tail)?;
    let kind = SPatKind::Cons(head, tail);
    let tree = SPat { at, kind };
    Ok((ParsedPat { tree, height }, rest))
}

// A pattern with the word that takes it.
#[tactic(auto, using(crate::proofs::PatLaws::pat_laws))]
fn prefixed_by<'s, 't>(
    alloc: Global,
    at: u32,
    prefix: Prefix,
    item: ParsedPat,
    rest: &'s [Sign<'t>],
) -> Result<(ParsedPat, &'s [Sign<'t>]), ParseError>
    requires low { item.height < 2 ^ 32 - 1 }
    requires item { pat_measured item }
    ensures { MakesPat (prefixed_pat prefix at (pat_of item.tree)) rest.now result }
{
    let height = item.height + 1;
    let item = Boxed::new(alloc, item.into_tree())?;
    match prefix {
        Prefix::Present => {
            let kind = SPatKind::Present(item);
            let tree = SPat { at, kind };
            Ok((ParsedPat { tree, height }, rest))
        }
        Prefix::Exn(exn) => {
            let kind = SPatKind::ExnOf(exn, item);
            let tree = SPat { at, kind };
            Ok((ParsedPat { tree, height }, rest))
        }
    }
}

// A variable with its type and a `)`.
#[tactic(auto, using(crate::proofs::PatLaws::pat_laws))]
fn variable<'s, 't>(
    alloc: Global,
    at: u32,
    signs: &'s [Sign<'t>],
) -> Result<(ParsedPat, &'s [Sign<'t>]), ParseError>
    ensures { ReadsPatOr (Nothing (IsTypedBinder Symbol.Close)) (PatVarAt at) signs.now result }
{
    let (binder, rest) = typed(alloc, Symbol::Close, signs)?;
    let (name, ty) = binder.into_parts();
    let kind = SPatKind::Var(name, ty);
    let tree = SPat { at, kind };
    Ok((ParsedPat { tree, height: 1 }, rest))
}

// The parts, and one more behind them.
fn with_part(mut parts: Many<SPat>, part: ParsedPat) -> Result<Many<SPat>, Memory>
    ensures { IfOk result (λ all. all ≡ parts ++ part.tree ∷ []) }
{
    parts.push(part.into_tree())?;
    Ok(parts)
}

// The trees of two patterns.
fn two(alloc: Global, first: ParsedPat, second: ParsedPat) -> Result<Many<SPat>, Memory>
    ensures { IfOk result (λ parts. parts ≡ first.tree ∷ second.tree ∷ []) }
{
    let parts = with_part(Many::new(alloc), first)?;
    with_part(parts, second)
}

// A tuple of parts, of which the highest has this height, with its `)`.
#[tactic(auto, using(crate::proofs::PatLaws::pat_laws))]
fn closed<'s, 't>(
    at: u32,
    parts: Many<SPat>,
    most: u32,
    signs: &'s [Sign<'t>],
) -> Result<(ParsedPat, &'s [Sign<'t>]), ParseError>
    requires low { most < 2 ^ 32 - 1 }
    requires highest { most ≡ highest_pat (pat_trees (map pat_of parts)) }
    ensures { ClosesPat (PatTuple at (pat_trees (map pat_of parts))) signs.now result }
{
    let rest = expect(Symbol::Close, signs)?;
    let kind = SPatKind::Tuple(parts);
    let tree = SPat { at, kind };
    let height = most + 1;
    Ok((ParsedPat { tree, height }, rest))
}

#[tactic(auto, using(crate::proofs::PatLaws::pat_laws))]
fn base_kind(symbol: Symbol) -> Option<SPatKind>
    ensures { (at : ℕ) → MatchOption result (base_pat symbol at ≡ None)
        (λ kind. base_pat symbol at ≡ Some (pat_kind_of kind at)) }
{
    match symbol {
        Symbol::Wild => Some(SPatKind::Wild),
        Symbol::True => Some(SPatKind::Bool(true)),
        Symbol::False => Some(SPatKind::Bool(false)),
        Symbol::NoneWord => Some(SPatKind::Absent),
        Symbol::NotFound => Some(SPatKind::Exn(BareExn::NotFound)),
        Symbol::DivisionByZero => Some(SPatKind::Exn(BareExn::DivisionByZero)),
        Symbol::MatchFailure => Some(SPatKind::Exn(BareExn::MatchFailure)),
        Symbol::EndOfFile => Some(SPatKind::Exn(BareExn::EndOfFile)),
        _ => None,
    }
}

// A number behind its `-`.
fn negative<'s, 't>(at: u32, signs: &'s [Sign<'t>]) -> Result<(SPat, &'s [Sign<'t>]), ParseError>
    ensures { ReadsOr (λ ts. NoPatLeaf (Fixed at Symbol.Minus ∷ ts))
        (Past (Fixed at Symbol.Minus) PatLeafAt) pat_of signs.now result }
{
    let Some((n, rest)) = next_number(signs) else {
        return Err(refused_at(signs));
    };
    let kind = SPatKind::Int(negated(n)?);
    Ok((SPat { at, kind }, rest))
}

// The empty list: what stands behind a `[`.
fn nil<'s, 't>(at: u32, signs: &'s [Sign<'t>]) -> Result<(SPat, &'s [Sign<'t>]), ParseError>
    ensures { ReadsOr (λ ts. NoPatLeaf (Fixed at Symbol.OpenSquare ∷ ts))
        (Past (Fixed at Symbol.OpenSquare) PatLeafAt) pat_of signs.now result }
{
    let rest = expect(Symbol::CloseSquare, signs)?;
    let kind = SPatKind::Nil;
    Ok((SPat { at, kind }, rest))
}

// A pattern that is one sign.
fn one_sign<'s, 't>(
    alloc: Global,
    signs: &'s [Sign<'t>],
) -> Result<(SPat, &'s [Sign<'t>]), ParseError>
    ensures { ReadsOr (λ ts. NoSymbol Symbol.Open ts → NoSymbol Symbol.Minus ts →
        NoSymbol Symbol.OpenSquare ts → NoPatLeaf ts) PatLeafAt pat_of signs.now result }
{
    let Some((first, rest)) = next(signs) else {
        return Err(refused_at(signs));
    };
    let at = first.at;
    match first.kind {
        SignKind::Int(n) => {
            let kind = SPatKind::Int(constant(n)?);
            Ok((SPat { at, kind }, rest))
        }
        SignKind::Str(text) => {
            let kind = SPatKind::Str(text.copy(alloc)?);
            Ok((SPat { at, kind }, rest))
        }
        SignKind::Fixed(symbol) => match base_kind(symbol) {
            Some(kind) => Ok((SPat { at, kind }, rest)),
            None => Err(refused_at(signs)),
        },
        SignKind::Lower(_) | SignKind::Upper(_) | SignKind::Other => Err(refused_at(signs)),
    }
}

// A pattern that is a leaf and begins with no `(`.
fn leaf<'s, 't>(alloc: Global, signs: &'s [Sign<'t>]) -> Result<(SPat, &'s [Sign<'t>]), ParseError>
    ensures { ReadsOr (λ ts. NoSymbol Symbol.Open ts → NoPatLeaf ts) PatLeafAt pat_of
        signs.now result }
{
    let at = here(signs);
    if let Some(behind) = after(Symbol::Minus, signs) {
        return negative(at, behind);
    }
    if let Some(behind) = after(Symbol::OpenSquare, signs) {
        return nil(at, behind);
    }
    one_sign(alloc, signs)
}

// The tuple of a first pattern and those behind its comma.
#[cycle(patterns)]
fn tuple<'s, 't>(
    alloc: Global,
    depth: u32,
    at: u32,
    first: ParsedPat,
    signs: &'s [Sign<'t>],
) -> Result<(ParsedPat, &'s [Sign<'t>]), ParseError>
    requires low { first.height < depth }
    requires first { pat_measured first }
    ensures { ReadsPatOr (Nothing (IsPats (depth - 1)))
        (PatTupleOf (depth - 1) at (pat_of first.tree)) signs.now result }
{
    let (second, mut rest) = whole(alloc, depth - 1, signs)?;
    let mut height = first.height.max(second.height);
    let mut parts = two(alloc, first, second)?;
    while let Some(behind) = after(Symbol::Comma, rest) {
        let (part, later) = whole(alloc, depth - 1, behind)?;
        height = height.max(part.height);
        parts = with_part(parts, part)?;
        rest = later;
    }
    closed(at, parts, height, rest)
}

// What stands behind a `(` and begins with a pattern that has no name in front.
#[cycle(patterns)]
fn enclosed<'s, 't>(
    alloc: Global,
    depth: u32,
    at: u32,
    signs: &'s [Sign<'t>],
) -> Result<(ParsedPat, &'s [Sign<'t>]), ParseError>
    requires unclosed { NoSymbol Symbol.Close (read_signs signs.now) }
    requires no_name { begins_lower (read_signs signs.now) ≡ false }
    ensures { ReadsPat (Past (Fixed at Symbol.Open) (IsPatTree depth Single)) signs.now result }
{
    let (first, rest) = whole(alloc, depth, signs)?;
    if let Some(end) = after(Symbol::Close, rest) {
        return Ok((first, end));
    }
    let behind = expect(Symbol::Comma, rest)?;
    if first.height >= depth {
        return Err(refused_at(rest));
    }
    tuple(alloc, depth, at, first, behind)
}

// What stands behind a `(`.
#[cycle(patterns)]
fn opened<'s, 't>(
    alloc: Global,
    depth: u32,
    at: u32,
    signs: &'s [Sign<'t>],
) -> Result<(ParsedPat, &'s [Sign<'t>]), ParseError>
    requires { 0 < depth }
    ensures { ReadsPat (Past (Fixed at Symbol.Open) (IsPatTree depth Single)) signs.now result }
{
    if let Some(rest) = after(Symbol::Close, signs) {
        let kind = SPatKind::Unit;
        let tree = SPat { at, kind };
        return Ok((ParsedPat { tree, height: 1 }, rest));
    }
    if begins_name(signs) {
        return variable(alloc, at, signs);
    }
    enclosed(alloc, depth, at, signs)
}

// A leaf, or a pattern in parentheses.
#[cycle(patterns)]
fn single<'s, 't>(
    alloc: Global,
    depth: u32,
    signs: &'s [Sign<'t>],
) -> Result<(ParsedPat, &'s [Sign<'t>]), ParseError>
    ensures { ReadsPat (IsPatTree depth Single) signs.now result }
{
    if depth == 0 {
        return Err(refused_at(signs));
    }
    if let Some(inner) = after(Symbol::Open, signs) {
        return opened(alloc, depth, here(signs), inner);
    }
    let (tree, rest) = leaf(alloc, signs)?;
    Ok((ParsedPat { tree, height: 1 }, rest))
}

// A single pattern, or one behind a word that takes it.
#[cycle(patterns)]
fn prefixed<'s, 't>(
    alloc: Global,
    depth: u32,
    signs: &'s [Sign<'t>],
) -> Result<(ParsedPat, &'s [Sign<'t>]), ParseError>
    ensures { ReadsPat (IsPatTree depth Prefixed) signs.now result }
{
    let Some((prefix, at, behind)) = next_prefix(signs) else {
        return single(alloc, depth, signs);
    };
    if depth == 0 {
        return Err(refused_at(signs));
    }
    let (item, rest) = single(alloc, depth - 1, behind)?;
    prefixed_by(alloc, at, prefix, item, rest)
}

// A pattern of at most this height.
#[cycle(patterns)]
fn whole<'s, 't>(
    alloc: Global,
    depth: u32,
    signs: &'s [Sign<'t>],
) -> Result<(ParsedPat, &'s [Sign<'t>]), ParseError>
    ensures { ReadsPat (IsPatTree depth Pattern) signs.now result }
{
    let (head, rest) = prefixed(alloc, depth, signs)?;
    let Some(behind) = after(Symbol::Cons, rest) else {
        return Ok((head, rest));
    };
    if head.height >= depth {
        return Err(refused_at(rest));
    }
    let (tail, end) = whole(alloc, depth - 1, behind)?;
    cons(alloc, here(signs), head, tail, end)
}

/// The pattern at the front, taken as long as it can be, and what is left. It has a height of at
/// most `HIGHEST_PATTERN`.
/// `Syntax` where no pattern stands there.
pub fn pattern<'s, 't>(
    alloc: Global,
    signs: &'s [Sign<'t>],
) -> Result<(SPat, &'s [Sign<'t>]), ParseError>
    ensures { ReadsKind IsPattern pat_of signs.now result }
{
    let (parsed, rest) = whole(alloc, HIGHEST_PATTERN, signs)?;
    Ok((parsed.into_tree(), rest))
}

/// A pattern, with the `->` behind it.
pub fn arm_pattern<'s, 't>(
    alloc: Global,
    signs: &'s [Sign<'t>],
) -> Result<(SPat, &'s [Sign<'t>]), ParseError>
    ensures { ReadsKind (Before Symbol.Arrow IsPattern) pat_of signs.now result }
{
    let (pat, behind) = pattern(alloc, signs)?;
    followed(Symbol::Arrow, pat, behind)
}

// What stands at the front of the signs.

ghost use Rattle.std.specs.Prelude.{◌≡◌, IfOk, MatchOption, nat_lt, neg_ℤ, pos};
ghost use Rattle.ac_syntax.specs.Expressions.{begins_atom, symbol_begins_atom, front, symbol_front};
ghost use Rattle.ac_syntax.specs.ReadSigns.{read_signs};
ghost use Rattle.ac_syntax.specs.ReadTrees.{name_of};
ghost use Rattle.ac_syntax.specs.PartParsing.{SymbolAt, NoSymbol};
ghost use Rattle.ac_parser_patterns.specs.Reading.{TakenSigns, FindsOr, ReadsKind};
ghost use Rattle.ac_parser_patterns.specs.Pieces.{IsName, NumberAt, NoNumber, LoneNumber, NoLoneNumber, begins_lower, IsPrefix, PrefixAt, NoPrefix};

use ac_syntax::{ParseError, SName, Sign, SignKind, Symbol, after, next, next_name, refused_at};
use ac_types::{Memory, TextExn};
use std::alloc::Global;

/// A word that takes one argument: `Some`, or an exception with a string.
#[derive(Clone, Copy)]
pub enum Prefix {
    Present,
    Exn(TextExn),
}

/// What stands behind this symbol, which must stand here.
pub fn expect<'s, 't>(symbol: Symbol, signs: &'s [Sign<'t>]) -> Result<&'s [Sign<'t>], ParseError>
    ensures { FindsOr result (λ rest. TakenSigns (SymbolAt symbol) signs.now rest.now)
        (NoSymbol symbol (read_signs signs.now)) }
{
    match after(symbol, signs) {
        Some(rest) => Ok(rest),
        None => Err(refused_at(signs)),
    }
}

/// An item and what stands behind this symbol, which must stand behind the item.
pub fn followed<'s, 't, T: Drop>(
    symbol: Symbol,
    item: T,
    signs: &'s [Sign<'t>],
) -> Result<(T, &'s [Sign<'t>]), ParseError>
    ensures { FindsOr result (λ x. (x.0 ≡ item) × TakenSigns (SymbolAt symbol) signs.now x.1.now)
        (NoSymbol symbol (read_signs signs.now)) }
{
    let rest = expect(symbol, signs)?;
    Ok((item, rest))
}

/// A lower name, which must stand here.
pub fn lower_name<'s, 't>(
    alloc: Global,
    signs: &'s [Sign<'t>],
) -> Result<(SName, &'s [Sign<'t>]), ParseError>
    ensures { ReadsKind IsName name_of signs.now result }
{
    match next_name(alloc, signs)? {
        Some(found) => Ok(found),
        None => Err(refused_at(signs)),
    }
}

/// Whether a lower name stands here.
pub fn begins_name(signs: &[Sign<'_>]) -> bool
    ensures { result ≡ begins_lower (read_signs signs.now) }
{
    let Some((first, _)) = next(signs) else {
        return false;
    };
    match first.kind {
        SignKind::Lower(_) => true,
        SignKind::Int(_)
        | SignKind::Str(_)
        | SignKind::Upper(_)
        | SignKind::Fixed(_)
        | SignKind::Other => false,
    }
}

fn symbol_begins_atom(symbol: Symbol) -> bool
    ensures { result ≡ symbol_begins_atom symbol }
{
    matches!(
        symbol,
        Symbol::Open
            | Symbol::True
            | Symbol::False
            | Symbol::Match
            | Symbol::Try
            | Symbol::NotFound
            | Symbol::DivisionByZero
            | Symbol::MatchFailure
            | Symbol::EndOfFile
    )
}

/// Whether an atom may begin here.
pub fn begins_atom(signs: &[Sign<'_>]) -> bool
    ensures { result ≡ begins_atom (read_signs signs.now) }
{
    let Some((first, _)) = next(signs) else {
        return false;
    };
    match first.kind {
        SignKind::Int(_) | SignKind::Str(_) | SignKind::Lower(_) | SignKind::Upper(_) => true,
        SignKind::Fixed(symbol) => symbol_begins_atom(symbol),
        SignKind::Other => false,
    }
}

fn symbol_ends_part(symbol: Symbol) -> bool
    ensures { result ≡ nat_lt 7 (symbol_front symbol) }
{
    !matches!(
        symbol,
        Symbol::Star
            | Symbol::Slash
            | Symbol::Mod
            | Symbol::Plus
            | Symbol::Minus
            | Symbol::Caret
            | Symbol::Cons
            | Symbol::Equals
            | Symbol::Less
            | Symbol::And
            | Symbol::Or
    )
}

/// Whether no atom and no operator stands here, so that a part may end here.
pub fn ends_part(signs: &[Sign<'_>]) -> bool
    ensures { result ≡ nat_lt 7 (front (read_signs signs.now)) }
{
    if begins_atom(signs) {
        return false;
    }
    let Some((first, _)) = next(signs) else {
        return true;
    };
    match first.kind {
        SignKind::Fixed(symbol) => symbol_ends_part(symbol),
        _ => true,
    }
}

/// A number at the front.
pub fn next_number<'s, 't>(signs: &'s [Sign<'t>]) -> Option<(u64, &'s [Sign<'t>])>
    ensures { MatchOption result (NoNumber (read_signs signs.now))
        (λ x. TakenSigns (NumberAt x.0) signs.now x.1.now) }
{
    let (first, rest) = next(signs)?;
    let SignKind::Int(n) = first.kind else {
        return None;
    };
    Some((n, rest))
}

/// A number at the front, behind which no atom begins.
pub fn lone_number<'s, 't>(signs: &'s [Sign<'t>]) -> Option<(u64, &'s [Sign<'t>])>
    ensures { MatchOption result (NoLoneNumber (read_signs signs.now))
        (λ x. TakenSigns (LoneNumber x.0) signs.now x.1.now) }
{
    let (n, rest) = next_number(signs)?;
    if begins_atom(rest) {
        return None;
    }
    Some((n, rest))
}

/// A number as a constant. What is above the highest constant, which no token is, gets no memory.
pub fn constant(n: u64) -> Result<i64, Memory>
    ensures { IfOk result (λ i. i ≡ pos n) }
{
    match i64::try_from(n) {
        Ok(i) => Ok(i),
        Err(_) => Err(Memory),
    }
}

/// A number behind its `-` as a constant; see `constant`.
pub fn negated(n: u64) -> Result<i64, Memory>
    ensures { IfOk result (λ i. i ≡ neg_ℤ (pos n)) }
{
    let i = constant(n)?;
    Ok(-i)
}

fn prefix_of(symbol: Symbol) -> Option<Prefix>
    ensures { MatchOption result ((p : Prefix) → IsPrefix p symbol → ⊥) (λ p. IsPrefix p symbol) }
{
    match symbol {
        Symbol::SomeWord => Some(Prefix::Present),
        Symbol::Failure => Some(Prefix::Exn(TextExn::Failure)),
        Symbol::InvalidArgument => Some(Prefix::Exn(TextExn::InvalidArgument)),
        Symbol::SysError => Some(Prefix::Exn(TextExn::SysError)),
        Symbol::MarshalFailure => Some(Prefix::Exn(TextExn::MarshalFailure)),
        Symbol::UnmarshalFailure => Some(Prefix::Exn(TextExn::UnmarshalFailure)),
        Symbol::ResolveFailure => Some(Prefix::Exn(TextExn::ResolveFailure)),
        _ => None,
    }
}

/// A word that takes one argument at the front, with its place.
pub fn next_prefix<'s, 't>(signs: &'s [Sign<'t>]) -> Option<(Prefix, u32, &'s [Sign<'t>])>
    ensures { MatchOption result (NoPrefix (read_signs signs.now))
        (λ x. TakenSigns (PrefixAt x.0 x.1) signs.now x.2.now) }
{
    let (first, rest) = next(signs)?;
    let SignKind::Fixed(symbol) = first.kind else {
        return None;
    };
    let prefix = prefix_of(symbol)?;
    Some((prefix, first.at, rest))
}

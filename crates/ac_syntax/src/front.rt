// What stands at the front of the signs.

ghost use Rattle.std.specs.Prelude.{◌≡◌, ◌<◌, [], ◌∷◌, length, IfOk, IfSome, MatchOption};
ghost use Rattle.ac_syntax.specs.Signs.{here};
ghost use Rattle.ac_syntax.specs.ReadSigns.{read_sign, read_signs};
ghost use Rattle.ac_syntax.specs.ReadTrees.{name_of};
ghost use Rattle.ac_syntax.specs.PartParsing.{NoFixed, SymbolAt, NoSymbol, LowerAt, NoLower};

use crate::sign::{Sign, SignKind, Symbol};
use crate::surface::SName;
use ac_types::Memory;
use std::alloc::Global;

/// The first sign, and those behind it.
pub fn next<'s, 't>(signs: &'s [Sign<'t>]) -> Option<(Sign<'t>, &'s [Sign<'t>])>
    ensures first { MatchOption result (read_signs signs.now ≡ [])
        (λ x. read_signs signs.now ≡ read_sign x.0 ∷ read_signs x.1.now) }
    ensures shorter { IfSome result (λ x. length x.1.now < length signs.now) }
{
    let (first, rest) = signs.split_first()?;
    Some((*first, rest))
}

/// The place of the first sign, 0 where there is none.
pub fn here(signs: &[Sign<'_>]) -> u32
    ensures { result ≡ here (read_signs signs.now) }
{
    match next(signs) {
        Some((first, _)) => first.at,
        None => 0,
    }
}

/// A symbol or reserved word at the front.
pub fn next_symbol<'s, 't>(signs: &'s [Sign<'t>]) -> Option<(Symbol, &'s [Sign<'t>])>
    ensures found { MatchOption result (NoFixed (read_signs signs.now))
        (λ x. SymbolAt x.0 (read_signs signs.now) (read_signs x.1.now)) }
    ensures shorter { IfSome result (λ x. length x.1.now < length signs.now) }
{
    let (first, rest) = next(signs)?;
    let SignKind::Fixed(symbol) = first.kind else {
        return None;
    };
    Some((symbol, rest))
}

/// What stands behind this symbol.
pub fn after<'s, 't>(symbol: Symbol, signs: &'s [Sign<'t>]) -> Option<&'s [Sign<'t>]>
    ensures found { MatchOption result (NoSymbol symbol (read_signs signs.now))
        (λ rest. SymbolAt symbol (read_signs signs.now) (read_signs rest.now)) }
    ensures shorter { IfSome result (λ rest. length rest.now < length signs.now) }
{
    let (found, rest) = next_symbol(signs)?;
    if found == symbol { Some(rest) } else { None }
}

/// A lower name at the front.
pub fn next_name<'s, 't>(
    alloc: Global,
    signs: &'s [Sign<'t>],
) -> Result<Option<(SName, &'s [Sign<'t>])>, Memory>
    ensures found { IfOk result (λ o. MatchOption o (NoLower (read_signs signs.now))
        (λ x. LowerAt (name_of x.0) (read_signs signs.now) (read_signs x.1.now))) }
    ensures shorter { IfOk result (λ o. IfSome o (λ x. length x.1.now < length signs.now)) }
{
    let Some((first, rest)) = next(signs) else {
        return Ok(None);
    };
    let SignKind::Lower(word) = first.kind else {
        return Ok(None);
    };
    let word = word.copy(alloc)?;
    Ok(Some((SName { at: first.at, word }, rest)))
}

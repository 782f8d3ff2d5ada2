// Words that begin a part, the bar in front of arms, and operators.

ghost use Rattle.std.specs.Prelude.{◌≡◌, ◌≤◌, length, MatchOption};
ghost use Rattle.ac_syntax.specs.Expressions.{after_bar};
ghost use Rattle.ac_syntax.specs.ReadSigns.{read_signs};
ghost use Rattle.ac_syntax.specs.PartParsing.{SymbolAt};
ghost use Rattle.ac_parser_expressions.specs.inner.Levels.{OperatorAt, NoOperator, keyword_symbol, NoKeyword};
ghost use Rattle.ac_parser_patterns.specs.Reading.{TakenSigns};
ghost use Rattle.ac_parser_patterns.specs.Forms.{operator_read};

use ac_parser_patterns::build::{Operator, operator_of};
use ac_syntax::{Sign, SignKind, Symbol, after, next};

/// A word that begins a part.
#[derive(Clone, Copy)]
pub enum Keyword {
    Let,
    Fun,
    Rec,
    If,
    Marshal,
    Unmarshal,
    Raise,
}

fn keyword_of(symbol: Symbol) -> Option<Keyword>
    ensures { MatchOption result ((k : Keyword) → symbol ≡ keyword_symbol k →
        ⊥) (λ k. symbol ≡ keyword_symbol k) }
{
    match symbol {
        Symbol::Let => Some(Keyword::Let),
        Symbol::Fun => Some(Keyword::Fun),
        Symbol::Rec => Some(Keyword::Rec),
        Symbol::If => Some(Keyword::If),
        Symbol::Marshal => Some(Keyword::Marshal),
        Symbol::Unmarshal => Some(Keyword::Unmarshal),
        Symbol::Raise => Some(Keyword::Raise),
        _ => None,
    }
}

/// A word at the front that begins a part.
pub fn next_keyword<'s, 't>(signs: &'s [Sign<'t>]) -> Option<(Keyword, &'s [Sign<'t>])>
    ensures { MatchOption result (NoKeyword (read_signs signs.now))
        (λ x. TakenSigns (SymbolAt (keyword_symbol x.0)) signs.now x.1.now) }
{
    let (first, rest) = next(signs)?;
    let SignKind::Fixed(symbol) = first.kind else {
        return None;
    };
    let keyword = keyword_of(symbol)?;
    Some((keyword, rest))
}

/// What stands behind a `|`, where one stands here.
pub fn after_bar<'s, 't>(signs: &'s [Sign<'t>]) -> &'s [Sign<'t>]
    ensures found { read_signs result.now ≡ after_bar (read_signs signs.now) }
    ensures within { length result.now ≤ length signs.now }
{
    if let Some(rest) = after(Symbol::Bar, signs) {
        return rest;
    }
    signs
}

/// An operator of this level at the front.
pub fn operator<'s, 't>(level: u32, signs: &'s [Sign<'t>]) -> Option<(Operator, &'s [Sign<'t>])>
    ensures { MatchOption result (NoOperator level (read_signs signs.now))
        (λ x. TakenSigns (OperatorAt level (operator_read x.0)) signs.now x.1.now) }
{
    let (first, rest) = next(signs)?;
    let SignKind::Fixed(symbol) = first.kind else {
        return None;
    };
    let (own, operator) = operator_of(symbol)?;
    if own == level {
        Some((operator, rest))
    } else {
        None
    }
}

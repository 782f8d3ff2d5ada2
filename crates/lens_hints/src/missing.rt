// What is missing at a place.

use crate::expected::Expected;
use crate::spot::Spot;
use ac_syntax::{SignKind, Symbol};
use ac_text::Page;
use lens_say::{name_at, write_name};

// Whether what stands here closes something, or nothing does.
fn closes(spot: &Spot<'_, '_, '_>) -> bool {
    spot.is_end()
        || spot.is_here(Symbol::End)
        || spot.is_here(Symbol::Close)
        || spot.is_here(Symbol::In)
        || spot.is_here(Symbol::Then)
        || spot.is_here(Symbol::Else)
        || spot.is_here(Symbol::With)
        || spot.is_here(Symbol::Bar)
        || spot.is_here(Symbol::Comma)
}

fn begins_definition(spot: &Spot<'_, '_, '_>) -> bool {
    spot.is_here(Symbol::Module) || spot.is_here(Symbol::Import) || spot.is_here(Symbol::Mark)
}

// A word that goes on with what was begun.
fn missing_word(spot: &Spot<'_, '_, '_>, expected: &Expected) -> Option<&'static [u8]> {
    if spot.is_back(1, Symbol::Semicolon) && closes(spot) {
        return Some(b"a `;` joins two parts, and none stands behind the last part");
    }
    if expected.has(b"else") {
        return Some(b"an `if` has an `else`: write `else ()` if there is nothing to do");
    }
    if expected.has(b"then") {
        return Some(b"an `if` goes on with `then`");
    }
    if expected.has(b"in") {
        return Some(b"a `let` goes on with `in`");
    }
    if expected.has(b"with") {
        return Some(b"a `match` and a `try` go on with `with`");
    }
    if spot.is_end() && expected.has(b"module") {
        return Some(b"the text ends here: a program has an expression behind its definitions");
    }
    if expected.has(b"end") && (closes(spot) || begins_definition(spot)) {
        return Some(b"an `end` is missing: `match`, `try`, `sig` and `struct` go on up to one");
    }
    if spot.is_end() && expected.has(b")") {
        return Some(b"the text ends here, and a `)` is missing");
    }
    None
}

// Whether no expression has this word.
fn is_of_definitions(symbol: Symbol) -> bool {
    matches!(
        symbol,
        Symbol::NameWord
            | Symbol::Version
            | Symbol::Mark
            | Symbol::Like
            | Symbol::By
            | Symbol::MyName
            | Symbol::ListType
            | Symbol::OptionType
            | Symbol::StringType
            | Symbol::IntType
            | Symbol::BoolType
            | Symbol::UnitType
            | Symbol::ExnType
            | Symbol::Sig
            | Symbol::Struct
            | Symbol::Val
            | Symbol::TypeWord
            | Symbol::Module
            | Symbol::Import
    )
}

// A reserved word where a name may stand.
fn said_of_reserved(page: &mut Page, spot: &Spot<'_, '_, '_>, expected: &Expected) -> bool {
    let Some(sign) = spot.here() else {
        return false;
    };
    match sign.kind {
        SignKind::Fixed(symbol) if is_of_definitions(symbol) && expected.has(b"x") => {
            write_name(page, name_at(spot.text, sign.at));
            page.put(b" is a reserved word, and no name");
            true
        }
        _ => false,
    }
}

/// Adds what is missing at a place, and gives whether there was something to say.
pub fn said_of_missing(page: &mut Page, spot: &Spot<'_, '_, '_>, expected: &Expected) -> bool {
    match missing_word(spot, expected) {
        Some(said) => {
            page.put(said);
            true
        }
        None => said_of_reserved(page, spot, expected),
    }
}

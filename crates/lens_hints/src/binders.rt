// Places where a name is bound.

use crate::expected::Expected;
use crate::spot::Spot;
use ac_syntax::{SignKind, Symbol};
use ac_text::Page;
use ac_types::Word;
use lens_say::{name_at, write_name};

// Adds some bytes, a name, and some more.
fn write_around(page: &mut Page, before: &[u8], word: &Word, behind: &[u8]) {
    page.put(before);
    page.put(word.text().as_slice());
    page.put(behind);
}

// Whether the word that stands here is a reserved one.
fn is_reserved(spot: &Spot<'_, '_, '_>) -> bool {
    match spot.here() {
        Some(sign) => match sign.kind {
            SignKind::Fixed(symbol) => {
                symbol != Symbol::Wild && !name_at(spot.text, sign.at).is_empty()
            }
            _ => false,
        },
        None => false,
    }
}

// Whether the parenthesis so many in front of the place opens a parameter.
fn opens_parameter(spot: &Spot<'_, '_, '_>, count: usize) -> bool {
    spot.is_back(count, Symbol::Open)
        && (spot.is_back(count.saturating_add(1), Symbol::Fun)
            || (spot.lower_back(count.saturating_add(1)).is_some()
                && spot.is_back(count.saturating_add(2), Symbol::Rec)))
}

// Whether a name is bound here.
fn is_bound_here(spot: &Spot<'_, '_, '_>) -> bool {
    spot.is_back(1, Symbol::Let)
        || spot.is_back(1, Symbol::Rec)
        || spot.is_back(1, Symbol::Val)
        || spot.is_back(1, Symbol::TypeWord)
        || spot.is_back(1, Symbol::Dot)
        || opens_parameter(spot, 1)
        || (spot.is_back(1, Symbol::Open) && spot.is_ahead(1, Symbol::Colon))
}

// A reserved word, or an UPPER name, where a small name is bound.
fn said_of_word(page: &mut Page, spot: &Spot<'_, '_, '_>) -> bool {
    let Some(sign) = spot.here() else {
        return false;
    };
    if !is_bound_here(spot) {
        return false;
    }
    if is_reserved(spot) {
        write_name(page, name_at(spot.text, sign.at));
        page.put(b" is a reserved word, and no name");
        return true;
    }
    match sign.kind {
        SignKind::Upper(_) if !spot.is_back(1, Symbol::Dot) => {
            page.put(b"a name that is bound here begins with a small letter");
            true
        }
        _ => false,
    }
}

// A `let` without a plain name, or with parameters.
fn said_of_let(page: &mut Page, spot: &Spot<'_, '_, '_>) -> bool {
    if spot.is_back(1, Symbol::Let) {
        if spot.is_here(Symbol::Open) && spot.is_ahead(1, Symbol::Close) {
            page.put(b"a `let` binds a name: write `e; ..` for a unit `e`");
            return true;
        }
        if spot.is_here(Symbol::Open) {
            page.put(b"a `let` binds one name: write `match e with ((a : T), (b : T)) -> .. end`");
            return true;
        }
        if spot.is_here(Symbol::Wild) {
            page.put(
                b"a `let` binds a name: write `match e with _ -> .. end`, or `e; ..` for a unit `e`",
            );
            return true;
        }
    }
    if !spot.is_back(2, Symbol::Let) {
        return false;
    }
    match spot.lower_back(1) {
        Some(word) if spot.is_here(Symbol::Open) || spot.lower_here().is_some() => {
            let before = b"a `let` has no parameters: write `let ";
            write_around(page, before, word, b" : T -> U = fun (x : T) -> ..`");
            write_around(page, b", or `let rec ", word, b" (x : T) : U = ..`");
            true
        }
        _ => false,
    }
}

// A `let` or a field without its type.
fn said_of_untyped(page: &mut Page, spot: &Spot<'_, '_, '_>) -> bool {
    let Some(word) = spot.lower_back(1) else {
        return false;
    };
    if !spot.is_here(Symbol::Equals) {
        return false;
    }
    let before: &[u8] = if spot.is_back(2, Symbol::Let) {
        b"every binder says its type: write `let "
    } else if spot.is_back(2, Symbol::Val) {
        b"every field says its type: write `val "
    } else {
        return false;
    };
    write_around(page, before, word, b" : T = ..`");
    true
}

// Whether a parameter in parentheses ends in front of the place.
fn follows_parameter(spot: &Spot<'_, '_, '_>) -> bool {
    match spot.opener_back() {
        Some(count) => opens_parameter(spot, count),
        None => false,
    }
}

// A function without a parameter, with an untyped one, or with several.
fn said_of_parameters(page: &mut Page, spot: &Spot<'_, '_, '_>) -> bool {
    if opens_parameter(spot, 1) && spot.is_here(Symbol::Close) {
        page.put(b"a function has one parameter: write `fun (u : unit) -> ..`");
        return true;
    }
    if spot.is_back(1, Symbol::Fun) && !spot.is_here(Symbol::Open) {
        page.put(b"every binder says its type: write `fun (x : T) -> ..`");
        return true;
    }
    if spot.is_back(2, Symbol::Rec) && spot.lower_back(1).is_some() && spot.lower_here().is_some() {
        page.put(b"every binder says its type: write `(x : T)`");
        return true;
    }
    if spot.is_here(Symbol::Open) && follows_parameter(spot) {
        page.put(
            b"a function has one parameter: take a tuple, or write `fun (y : T) -> ..` inside",
        );
        return true;
    }
    false
}

// A variable without its type, in a pattern or in parentheses.
fn said_of_variable(page: &mut Page, spot: &Spot<'_, '_, '_>, expected: &Expected) -> bool {
    let before = b"every binder says its type: write `(";
    if let Some(word) = spot.lower_here()
        && expected.has(b"_")
    {
        write_around(page, before, word, b" : T)`");
        return true;
    }
    if let Some(word) = spot.lower_back(1)
        && spot.is_back(2, Symbol::Open)
        && expected.is_only(b":")
    {
        write_around(page, before, word, b" : T)`");
        return true;
    }
    false
}

/// Adds what is said where a name is bound, and gives whether there was something to say.
pub fn said_of_binder(page: &mut Page, spot: &Spot<'_, '_, '_>, expected: &Expected) -> bool {
    said_of_word(page, spot)
        || said_of_let(page, spot)
        || said_of_untyped(page, spot)
        || said_of_parameters(page, spot)
        || said_of_variable(page, spot, expected)
}

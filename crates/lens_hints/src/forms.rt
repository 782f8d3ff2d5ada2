// Forms of other languages.

use crate::expected::Expected;
use crate::spot::{Spot, is_symbol};
use ac_syntax::{SignKind, Symbol};
use ac_text::Page;
use lens_say::{name_at, write_name};

// So many signs in front of a place are looked at for a word of another language.
const NEAR: usize = 40;

fn is_slashes(spot: &Spot<'_, '_, '_>) -> bool {
    spot.is_here(Symbol::Slash)
        && (spot.is_ahead(1, Symbol::Slash) || (spot.is_back(1, Symbol::Slash) && spot.touches()))
}

// Two symbols that are one in another language.
fn of_symbols(spot: &Spot<'_, '_, '_>) -> Option<&'static [u8]> {
    if is_slashes(spot) {
        return Some(b"a comment is written `(* text *)`");
    }
    if !spot.touches() {
        return None;
    }
    if spot.is_here(Symbol::Semicolon) && spot.is_back(1, Symbol::Semicolon) {
        return Some(b"there is no `;;`: a `let` goes on with `in`, and one `;` joins two parts");
    }
    if !spot.is_here(Symbol::Equals) {
        return None;
    }
    if spot.is_back(1, Symbol::Equals) {
        return Some(b"equality is one `=`");
    }
    if spot.is_back(1, Symbol::Less) {
        return Some(b"there is no `<=`: write `not (b < a)`");
    }
    if spot.is_back(1, Symbol::Colon) {
        return Some(b"there are no assignments: bind a new name by `let x : T = ..`");
    }
    None
}

const EMPTY_LIST: &[u8] = b"the empty list says its type: write `([] : int list)`";

const NONE: &[u8] = b"`None` says its type: write `(None : int option)`";

// Lists and options.
fn of_values(spot: &Spot<'_, '_, '_>, expected: &Expected) -> Option<&'static [u8]> {
    if spot.is_here(Symbol::OpenSquare) {
        if spot.is_ahead(1, Symbol::CloseSquare) {
            return Some(EMPTY_LIST);
        }
        return Some(b"a list is written `1 :: 2 :: ([] : int list)`");
    }
    if spot.is_back(1, Symbol::OpenSquare) {
        return Some(b"the pattern of a list is written `(x : T) :: []`");
    }
    if spot.is_here(Symbol::NoneWord) {
        return Some(NONE);
    }
    if expected.is_only(b":") && spot.is_back(1, Symbol::CloseSquare) {
        return Some(EMPTY_LIST);
    }
    if expected.is_only(b":") && spot.is_back(1, Symbol::NoneWord) {
        return Some(NONE);
    }
    None
}

// Words of other languages.
fn of_words(spot: &Spot<'_, '_, '_>, expected: &Expected) -> Option<&'static [u8]> {
    if let Some(word) = spot.lower_here()
        && word.text().as_slice() == b"when".as_slice()
        && expected.has(b"->")
    {
        return Some(b"there is no `when`: write an `if` in the arm");
    }
    let is_arm = spot.is_here(Symbol::Arrow) || spot.is_here(Symbol::Bar);
    if is_arm && spot.has_word_back(NEAR, b"function") {
        return Some(b"there is no `function`: write `fun (x : T) -> match x with .. end`");
    }
    if spot.is_here(Symbol::End) && spot.has_word_back(NEAR, b"begin") {
        return Some(b"there is no `begin`: write parentheses in place of `begin` and `end`");
    }
    None
}

// Whether a type may go on at the place, and no expression.
fn is_in_type(expected: &Expected) -> bool {
    expected.has(b"list") && expected.has(b"option") && !expected.has(b"mod")
}

// Types and patterns.
fn of_types(spot: &Spot<'_, '_, '_>, expected: &Expected) -> Option<&'static [u8]> {
    let variants = b"there are no variants: write an abstract type with a maker for each case";
    if spot.is_here(Symbol::Comma) && is_in_type(expected) {
        return Some(b"the type of a tuple is written `int * string`");
    }
    let is_definition = spot.is_back(1, Symbol::Equals) && spot.is_back(3, Symbol::TypeWord);
    if is_definition && (spot.is_here(Symbol::Bar) || spot.upper_here().is_some()) {
        return Some(variants);
    }
    if spot.is_here(Symbol::Bar) && is_in_type(expected) {
        return Some(variants);
    }
    if spot.is_here(Symbol::Bar) && expected.has(b"->") {
        return Some(b"an arm has one pattern: write an arm for each pattern");
    }
    if spot.is_here(Symbol::Dot) && is_int(spot) {
        return Some(b"there are no floats: count in a smaller unit, as in cents");
    }
    None
}

fn is_int(spot: &Spot<'_, '_, '_>) -> bool {
    match spot.back(1) {
        Some(sign) => matches!(sign.kind, SignKind::Int(_)),
        None => false,
    }
}

// Definitions at another place than their own.
fn of_definitions(spot: &Spot<'_, '_, '_>, expected: &Expected) -> Option<&'static [u8]> {
    if spot.is_here(Symbol::TypeWord) && expected.has(b"module") {
        return Some(
            b"a type is defined in a module: `module M : sig type t = int end = struct type t = int end`",
        );
    }
    if spot.is_here(Symbol::Val) && expected.has(b"module") {
        return Some(b"a value of a program is bound by `let x : T = .. in ..`");
    }
    if spot.is_here(Symbol::Let) && expected.has(b"val") {
        return Some(b"a field of a struct is written `val x : T = ..`");
    }
    None
}

// A module without a signature.
fn said_of_module(page: &mut Page, spot: &Spot<'_, '_, '_>) -> bool {
    match spot.upper_back(1) {
        Some(word) if spot.is_here(Symbol::Equals) && spot.is_back(2, Symbol::Module) => {
            page.put(b"a module has a signature: write `module ");
            page.put(word.text().as_slice());
            page.put(b" : sig .. end = struct .. end`");
            true
        }
        _ => false,
    }
}

// How many signs in front of the place the `raise` stands whose exception ends there.
fn raise_back(spot: &Spot<'_, '_, '_>) -> Option<usize> {
    let front = match spot.opener_back() {
        Some(count) => count.saturating_add(1),
        None if spot.is_back(2, Symbol::Dot) => 4,
        None => 2,
    };
    if spot.is_back(front, Symbol::Raise) {
        Some(front)
    } else {
        None
    }
}

// A `raise` without its type, or with an exception that isn't in parentheses.
fn said_of_raise(page: &mut Page, spot: &Spot<'_, '_, '_>, expected: &Expected) -> bool {
    if spot.is_back(1, Symbol::Raise) {
        page.put(b"what is raised stands in parentheses: write `raise (Failure \"..\") : T`");
        return true;
    }
    if !expected.is_only(b":") {
        return false;
    }
    match raise_back(spot) {
        None => false,
        Some(count) => {
            page.put(b"a `raise` says its type: write `");
            page.put(spot.bytes_from(count));
            page.put(b" : T`");
            true
        }
    }
}

// Forms that stand in parentheses where they are operands.
fn is_wide(spot: &Spot<'_, '_, '_>) -> bool {
    let here = spot.here();
    is_symbol(here, Symbol::Raise)
        || is_symbol(here, Symbol::If)
        || is_symbol(here, Symbol::Let)
        || is_symbol(here, Symbol::Fun)
        || is_symbol(here, Symbol::Rec)
        || is_symbol(here, Symbol::Marshal)
        || is_symbol(here, Symbol::Unmarshal)
}

// Whether a word goes on here with what was begun.
fn goes_on(expected: &Expected) -> bool {
    expected.has(b"in") || expected.has(b"then") || expected.has(b"else") || expected.has(b"with")
}

fn said_of_wide(page: &mut Page, spot: &Spot<'_, '_, '_>, expected: &Expected) -> bool {
    let is_operand = expected.has(b"(") && expected.has(b"1") && !expected.has(b"_");
    if !is_wide(spot) || !is_operand || goes_on(expected) {
        return false;
    }
    let Some(sign) = spot.here() else {
        return false;
    };
    page.put(b"put this ");
    write_name(page, name_at(spot.text, sign.at));
    page.put(b" and what belongs to it into parentheses");
    true
}

fn written(page: &mut Page, said: Option<&[u8]>) -> bool {
    match said {
        Some(said) => {
            page.put(said);
            true
        }
        None => false,
    }
}

/// Adds what is said of a form of another language, and gives whether there was something to say.
pub fn said_of_form(page: &mut Page, spot: &Spot<'_, '_, '_>, expected: &Expected) -> bool {
    written(page, of_symbols(spot))
        || written(page, of_values(spot, expected))
        || written(page, of_words(spot, expected))
        || written(page, of_types(spot, expected))
        || written(page, of_definitions(spot, expected))
        || said_of_module(page, spot)
        || said_of_raise(page, spot, expected)
        || said_of_wide(page, spot, expected)
}

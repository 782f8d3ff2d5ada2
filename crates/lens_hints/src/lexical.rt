// What is said of a byte at which no token begins.

use ac_text::Page;
use ac_types::limits::{LITERALS_END, LONGEST_WORD};
use lens_say::Message;
use std::alloc::Global;

const BYTE_ORDER_MARK: &[u8] = b"\xEF\xBB\xBF";

// The byte in front of a place, if there is one.
fn byte_in_front(text: &[u8], at: usize) -> Option<u8> {
    text.get(at.checked_sub(1)?).copied()
}

fn greater(text: &[u8], at: usize) -> &'static [u8] {
    match (byte_in_front(text, at), text.get(at.saturating_add(1))) {
        (Some(b'<'), _) => b"there is no `<>`: write `not (a = b)`",
        (Some(b'|'), _) => b"there is no `|>`: write the function in front, `f a`",
        (Some(b'='), _) => b"there is no `=>`: write `->`, and for `a >= b` `not (a < b)`",
        (_, Some(b'=')) => b"there is no `>=`: write `not (a < b)`",
        _ => b"there is no `>`: write `b < a`",
    }
}

fn exclamation(text: &[u8], at: usize) -> &'static [u8] {
    match text.get(at.saturating_add(1)) {
        Some(b'=') => b"there is no `!=`: write `not (a = b)`",
        _ => b"there is no `!`: write `not a`, and pass values on in place of references",
    }
}

// The first fault of a string that begins at a place.
fn string(text: &[u8], at: usize) -> &'static [u8] {
    let start = at.saturating_add(1).min(text.len());
    let rest = &text[start..];
    let mut escaped = false;
    for i in 0..rest.len() {
        let byte = rest[i];
        if escaped {
            match byte {
                b'\\' | b'"' | b'n' | b't' | b'r' | b'x' => escaped = false,
                _ => return bad_escape(),
            }
            if byte == b'x' && !is_byte(&rest[i..]) {
                return bad_escape();
            }
        } else {
            match byte {
                b'\\' => escaped = true,
                b'"' => break,
                b'\n' => {
                    return b"a string stays in its line: write `\\n` for a line feed, and join strings by `^`";
                }
                _ => {}
            }
        }
    }
    b"this string isn't closed by `\"`"
}

fn bad_escape() -> &'static [u8] {
    b"escapes are `\\\\`, `\\\"`, `\\n`, `\\t`, `\\r` and two hexadecimal digits behind `\\x`, as in `\"\\x41\"`"
}

// Whether an `x` and two hexadecimal digits stand there.
fn is_byte(rest: &[u8]) -> bool {
    match rest {
        [_, high, low, ..] => high.is_ascii_hexdigit() && low.is_ascii_hexdigit(),
        _ => false,
    }
}

fn parenthesis(text: &[u8], at: usize) -> Option<&'static [u8]> {
    match text.get(at.saturating_add(1)) {
        Some(b'*') => Some(b"this comment isn't closed by `*)`"),
        _ => None,
    }
}

// What is said of a byte, by itself and its neighbours.
fn said_of(text: &[u8], at: usize) -> Option<&'static [u8]> {
    if at == 0 && text.starts_with(BYTE_ORDER_MARK) {
        return Some(b"the text begins with a byte order mark: save it without one");
    }
    let said: &'static [u8] = match text.get(at)? {
        b'>' => greater(text, at),
        b'!' => exclamation(text, at),
        b'"' => string(text, at),
        b'(' => return parenthesis(text, at),
        b'@' =>
            b"there is no `@`: write a function that goes over the first list and puts its elements in front of the second",
        b'\'' =>
            b"there are no chars and no type variables: a string of length 1 is written `\"a\"`",
        b'#' => b"a comment is written `(* text *)`",
        b'%' => b"a remainder is written `a mod b`",
        b'&' => b"`and` is written `&&`",
        b'{' | b'}' => b"there are no records: write a tuple, or an abstract type over one",
        b'~' | b'?' => b"there are no labels: write `fun (x : T) -> ..`",
        b'$' | b'`' | b'\\' => b"no token begins with this byte",
        128..=255 => b"letters beyond ASCII stand in strings and comments alone",
        _ => return None,
    };
    Some(said)
}

// Adds what is said of a number or a name that is too large.
fn write_large(page: &mut Page, first: u8) {
    if first.is_ascii_digit() {
        page.put(b"an int is below ");
        page.number(LITERALS_END);
    } else {
        page.put(b"a name has at most ");
        page.number(LONGEST_WORD as u64);
        page.put(b" bytes");
    }
}

/// What is said of a place at which no token, separator or whole comment begins.
pub fn why_lexical(alloc: Global, text: &[u8], at: u32) -> Message {
    let place = at as usize;
    if let Some(said) = said_of(text, place) {
        return Message::saying(alloc, at, said);
    }
    let mut message = Message::new(alloc, at);
    match text.get(place) {
        Some(first) if first.is_ascii_alphanumeric() || *first == b'_' => {
            write_large(&mut message.why, *first);
        }
        _ => message
            .why
            .put(b"no token, separator or whole comment begins here"),
    }
    message
}

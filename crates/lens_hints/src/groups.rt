// What may stand at a place, said in few words.

use crate::expected::Expected;
use ac_text::Page;

// No more than so many words are listed.
const LISTED: usize = 12;

// The tokens with which an operand begins, and those with which an expression begins besides.
const OPERANDS: &[&[u8]] = &[
    b"x",
    b"X",
    b"1",
    b"\"s\"",
    b"(",
    b"true",
    b"false",
    b"match",
    b"try",
    b"Not_found",
    b"Some",
    b"Failure",
    b"-",
    b"not",
];

const EXPRESSIONS: &[&[u8]] = &[
    b"let",
    b"fun",
    b"rec",
    b"if",
    b"marshal",
    b"unmarshal",
    b"raise",
];

const ARGUMENTS: &[&[u8]] = &[
    b"x",
    b"X",
    b"1",
    b"\"s\"",
    b"(",
    b"true",
    b"false",
    b"match",
    b"try",
    b"Not_found",
];

const OPERATORS: &[&[u8]] = &[
    b"=", b"<", b"+", b"-", b"*", b"/", b"^", b"::", b"&&", b"||", b"mod",
];

const TYPES: &[&[u8]] = &[
    b"x", b"X", b"(", b"bool", b"exn", b"int", b"string", b"unit",
];

const PATTERNS: &[&[u8]] = &[
    b"_",
    b"(",
    b"1",
    b"-",
    b"\"s\"",
    b"true",
    b"false",
    b"[",
    b"None",
    b"Not_found",
    b"Some",
    b"Failure",
];

fn is_in(words: &[&[u8]], token: &[u8]) -> bool {
    for word in words {
        if *word == token {
            return true;
        }
    }
    false
}

// What is told as one: a group of tokens by its name, and those that go with it.
#[derive(Drop)]
struct Group {
    said: &'static [u8],
    tokens: &'static [&'static [u8]],
    others: &'static [&'static [u8]],
}

// The groups of which one begins here.
fn begun(expected: &Expected) -> Option<Group> {
    if expected.has(b"_") {
        return Some(Group {
            said: b"a pattern",
            tokens: PATTERNS,
            others: &[],
        });
    }
    if expected.has(b"let") {
        return Some(Group {
            said: b"an expression",
            tokens: OPERANDS,
            others: EXPRESSIONS,
        });
    }
    if expected.has(b"Some") {
        return Some(Group {
            said: b"an operand",
            tokens: OPERANDS,
            others: &[],
        });
    }
    if expected.has(b"int") {
        return Some(Group {
            said: b"a type",
            tokens: TYPES,
            others: &[],
        });
    }
    if expected.has(b"try") {
        return Some(Group {
            said: b"an argument",
            tokens: ARGUMENTS,
            others: &[],
        });
    }
    None
}

fn word_of(token: &[u8]) -> Option<&'static [u8]> {
    match token {
        b"x" => Some(b"a small name"),
        b"X" => Some(b"an UPPER name"),
        b"1" => Some(b"a number"),
        b"\"s\"" => Some(b"a string"),
        b"Failure" | b"Not_found" => Some(b"an exception"),
        _ => None,
    }
}

fn write_token(page: &mut Page, token: &[u8]) {
    match word_of(token) {
        Some(said) => page.put(said),
        None => {
            page.put(b"`");
            page.put(token);
            page.put(b"`");
        }
    }
}

// Adds the tokens that no group has.
fn write_rest(page: &mut Page, expected: &Expected, group: Option<&Group>, start: &[u8]) {
    let operators = expected.has(b"mod") && expected.has(b"*");
    let mut between = start;
    if operators {
        page.put(between);
        page.put(b"an operator");
        between = b", ";
    }
    let mut listed = 0usize;
    for token in expected.as_slice() {
        let is_told = match group {
            Some(group) => is_in(group.tokens, token) || is_in(group.others, token),
            None => false,
        };
        let is_operator = operators && is_in(OPERATORS, token);
        if !is_told && !is_operator && listed < LISTED {
            page.put(between);
            write_token(page, token);
            between = b", ";
            listed = listed.saturating_add(1);
        }
    }
}

/// Adds a line with what may stand at a place, where anything may.
pub fn write_expected(page: &mut Page, expected: &Expected) {
    if expected.as_slice().is_empty() {
        return;
    }
    page.put(b"  expected: ");
    match begun(expected) {
        Some(group) => {
            page.put(group.said);
            write_rest(page, expected, Some(&group), b", ");
        }
        None => write_rest(page, expected, None, b""),
    }
    page.put(b"\n");
}

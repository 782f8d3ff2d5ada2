// The tokens that may stand at a place, each tried behind what stands in front of it.

use crate::syntax::Grammar;
use ac_syntax::ParseFault;
use ac_types::{Many, Memory, Text};
use std::alloc::Global;

// Of a text without a definition behind this length nothing is tried.
const LONGEST_FRONT: usize = 60_000;

/// A token of each kind, as it is spelled.
pub const TOKENS: &[&[u8]] = &[
    b"x",
    b"X",
    b"1",
    b"\"s\"",
    b"(",
    b")",
    b"[",
    b"]",
    b",",
    b";",
    b":",
    b".",
    b"=",
    b"<",
    b"+",
    b"-",
    b"*",
    b"/",
    b"^",
    b"::",
    b"->",
    b"&&",
    b"||",
    b"|",
    b"_",
    b"as",
    b"bool",
    b"by",
    b"else",
    b"end",
    b"exn",
    b"false",
    b"fun",
    b"if",
    b"import",
    b"in",
    b"int",
    b"let",
    b"like",
    b"list",
    b"mark",
    b"marshal",
    b"match",
    b"mod",
    b"module",
    b"myname",
    b"name",
    b"not",
    b"option",
    b"raise",
    b"rec",
    b"sig",
    b"string",
    b"struct",
    b"then",
    b"true",
    b"try",
    b"type",
    b"unit",
    b"unmarshal",
    b"val",
    b"version",
    b"with",
    b"Some",
    b"None",
    b"Static_Link",
    b"Here_Already",
    b"Failure",
    b"Not_found",
];

/// The tokens that may stand at a place.
#[derive(Drop)]
pub struct Expected {
    tokens: Many<&'static [u8]>,
}

impl Expected {
    /// None.
    pub fn none(alloc: Global) -> Expected {
        Expected {
            tokens: Many::new(alloc),
        }
    }

    /// Those with which some text goes on behind this front. The front of a text begins at a
    /// definition, or is the whole front.
    pub fn behind(alloc: Global, grammar: Grammar, front: &[u8]) -> Result<Expected, Memory> {
        let mut found = Expected::none(alloc);
        if front.len() > LONGEST_FRONT {
            return Ok(found);
        }
        for token in TOKENS {
            if goes_on(alloc, grammar, front, token)? {
                found.tokens.push(*token)?;
            }
        }
        Ok(found)
    }

    /// The tokens, as they are spelled.
    pub fn as_slice(&self) -> &[&'static [u8]] {
        self.tokens.as_slice()
    }

    /// Whether this token may stand there.
    pub fn has(&self, token: &[u8]) -> bool {
        for other in self.tokens.as_slice() {
            if *other == token {
                return true;
            }
        }
        false
    }

    /// Whether this token alone may stand there.
    pub fn is_only(&self, token: &[u8]) -> bool {
        self.tokens.len() == 1 && self.has(token)
    }
}

// Whether some text goes on behind this front with a token: no fault stands in front of its end.
fn goes_on(alloc: Global, grammar: Grammar, front: &[u8], token: &[u8]) -> Result<bool, Memory> {
    let mut text = Text::from_slice(alloc, front)?;
    text.extend(b" ")?;
    text.extend(token)?;
    match grammar.parse(alloc, text.as_slice()) {
        Ok(surface) => {
            drop(surface);
            Ok(true)
        }
        Err(ParseFault::Syntax { at }) => Ok(at as usize >= text.as_slice().len()),
        Err(ParseFault::Memory) => Err(Memory),
        Err(_) => Ok(false),
    }
}

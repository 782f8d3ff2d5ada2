// What is said of tokens that have no tree.

use crate::binders::said_of_binder;
use crate::expected::Expected;
use crate::forms::said_of_form;
use crate::groups::write_expected;
use crate::missing::said_of_missing;
use crate::spot::Spot;
use ac_lexer::lex;
use ac_parser::{parse_module, parse_program};
use ac_syntax::{ParseFault, Sign, SignKind, Surface, Symbol, signs};
use ac_text::Page;
use ac_types::Memory;
use lens_say::Message;
use std::alloc::Global;

/// What a text is to be.
#[derive(Clone, Copy, PartialEq, Eq)]
pub enum Grammar {
    /// A program.
    Program,
    /// A module by itself.
    Module,
}

impl Grammar {
    /// The tree of a text.
    pub fn parse(self, alloc: Global, text: &[u8]) -> Result<Surface, ParseFault> {
        match self {
            Grammar::Program => parse_program(alloc, text),
            Grammar::Module => parse_module(alloc, text),
        }
    }
}

fn begins_definition(sign: &Sign<'_>) -> bool {
    match sign.kind {
        SignKind::Fixed(symbol) => matches!(symbol, Symbol::Module | Symbol::Import | Symbol::Mark),
        _ => false,
    }
}

// The front of a text from the last definition on that begins there.
fn front_of<'t>(text: &'t [u8], signs: &[Sign<'_>], at: u32) -> &'t [u8] {
    let mut start = 0;
    for sign in signs {
        if sign.at < at && begins_definition(sign) {
            start = sign.at;
        }
    }
    text.get(start as usize..at as usize).unwrap_or(b"")
}

// Adds what to write here, or that nothing goes on.
fn write_said(page: &mut Page, spot: &Spot<'_, '_, '_>, expected: &Expected) {
    if said_of_binder(page, spot, expected)
        || said_of_form(page, spot, expected)
        || said_of_missing(page, spot, expected)
    {
        return;
    }
    if spot.is_end() {
        page.put(b"the text ends here, and the program doesn't");
    } else {
        page.put(b"no program goes on here");
    }
}

// The place that is shown: the end of a text is behind its last byte that isn't blank.
fn place_shown(text: &[u8], at: u32) -> u32 {
    if (at as usize) < text.len() {
        return at;
    }
    let mut place = at;
    for byte in text.iter().rev() {
        if !matches!(byte, b' ' | b'\t' | b'\r' | b'\n') {
            return place;
        }
        place = place.saturating_sub(1);
    }
    place
}

/// What is said of the place at which no program, or no module by itself, goes on.
pub fn why_syntax(
    alloc: Global,
    grammar: Grammar,
    text: &[u8],
    at: u32,
) -> Result<Message, Memory> {
    let mut message = Message::new(alloc, place_shown(text, at));
    let Ok(tokens) = lex(alloc, text) else {
        return Err(Memory);
    };
    let signs = signs(alloc, tokens.as_slice())?;
    let front = front_of(text, signs.as_slice(), at);
    let expected = Expected::behind(alloc, grammar, front)?;
    let spot = Spot::new(text, signs.as_slice(), at);
    write_said(&mut message.why, &spot, &expected);
    write_expected(&mut message.more, &expected);
    Ok(message)
}

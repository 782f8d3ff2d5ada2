// From the bytes of a text to its tree.

ghost use Rattle.std.specs.Prelude.{◌≤◌, IfOk, IfErr};
ghost use Rattle.ac_types.specs.Limits.{longest_text};
ghost use Rattle.ac_syntax.specs.Programs.{IsProgram, IsModule};
ghost use Rattle.ac_syntax.specs.ReadTrees.{surface_of};
ghost use Rattle.ac_syntax.specs.Texts.{IsRead, HasTree, IsPlace, IsUnread, IsTextFault, FaultAt};

use crate::programs::{module_alone, program};
use ac_lexer::{LexFault, Token, lex};
use ac_syntax::{ParseError, ParseFault, Surface, deep, signs};
use ac_types::Many;
use std::alloc::Global;

// The tokens of a text, where it is not too long, has tokens and is shallow.
fn tokens(alloc: Global, text: &[u8]) -> Result<Many<Token>, ParseFault>
    ensures read { IfOk result (λ tokens. IsRead text.now tokens) }
    ensures fault { IfErr result (λ e. IsUnread text.now e) }
{
    let found = match lex(alloc, text) {
        Ok(found) => found,
        Err(LexFault::TooLong { len }) => return Err(ParseFault::TooLong { len }),
        Err(LexFault::Lexical { at }) => return Err(ParseFault::Lexical { at }),
        Err(LexFault::Memory) => return Err(ParseFault::Memory),
    };
    match deep(found.as_slice()) {
        Some(at) => Err(ParseFault::TooDeep { at }),
        None => Ok(found),
    }
}

// The place of the token before which so many are left, the end of the text where none is left.
fn place(tokens: &[Token], left: usize, end: u32) -> u32
    ensures { IsPlace tokens.now end result }
{
    match tokens.get(tokens.len().saturating_sub(left)) {
        Some(token) => token.at,
        None => end,
    }
}

// Why the tokens of a text of this length have no tree.
fn fault(tokens: &[Token], len: usize, stop: ParseError) -> ParseFault
    requires { len ≤ longest_text }
    ensures { FaultAt tokens.now len stop result }
{
    match stop {
        ParseError::Memory => ParseFault::Memory,
        ParseError::Syntax(left) => ParseFault::Syntax {
            at: place(tokens, left, len as u32),
        },
    }
}

/// The program that a text is. A text has exactly one of these answers, but that memory may run out
/// at any text that is not too long: its tree; `TooLong`, with its length in bytes; `Lexical`,
/// where it has no tokens; `TooDeep`, at the first opener at which too many are unclosed;
/// `Syntax`, where its signs are no program, heights past their bounds included, at the place of
/// the token at which no program can go on, or the text's length.
pub fn parse_program(alloc: Global, bytes: &[u8]) -> Result<Surface, ParseFault>
    ensures tree { IfOk result (λ x. HasTree IsProgram bytes.now (surface_of x)) }
    ensures fault { IfErr result (λ e. IsTextFault IsProgram bytes.now e) }
{
    let found = tokens(alloc, bytes)?;
    let all = signs(alloc, found.as_slice())?;
    match program(alloc, all.as_slice()) {
        Ok(surface) => Ok(surface),
        Err(stop) => Err(fault(found.as_slice(), bytes.len(), stop)),
    }
}

/// The one module that a text is, with no expression. The faults are as those of a program.
pub fn parse_module(alloc: Global, bytes: &[u8]) -> Result<Surface, ParseFault>
    ensures tree { IfOk result (λ x. HasTree IsModule bytes.now (surface_of x)) }
    ensures fault { IfErr result (λ e. IsTextFault IsModule bytes.now e) }
{
    let found = tokens(alloc, bytes)?;
    let all = signs(alloc, found.as_slice())?;
    match module_alone(alloc, all.as_slice()) {
        Ok(surface) => Ok(surface),
        Err(stop) => Err(fault(found.as_slice(), bytes.len(), stop)),
    }
}

// From bytes to tokens.

ghost use Rattle.std.specs.Prelude.{◌≡◌, ◌<◌, ◌≤◌, length, List, ℕ, IfSome, IfOk, IfErr, MatchOption};
ghost use Rattle.ac_types.specs.Limits.{longest_text};
ghost use Rattle.ac_lexer.specs.declared.tokens.Token.{Token};
ghost use Rattle.ac_lexer.specs.Tokens.{TokenAt, NoToken, Tokens, IsFault, OnLexical};

use crate::gaps::{behind_gap, opens};
use crate::quoted::string;
use crate::tokens::{LexFault, Token, TokenKind};
use crate::words::{is_digit, is_start, name, number, symbol};
use ac_types::limits::LONGEST_TEXT;
use ac_types::{Many, Memory};
use std::alloc::Global;

// The token that the text begins with, and what is behind it.
fn first_token(alloc: Global, text: &[u8]) -> Result<Option<(TokenKind, &[u8])>, Memory>
    requires { 0 < length text.now }
    ensures token { IfOk result (λ o. MatchOption o (NoToken text.now)
        (λ x. TokenAt text.now x.0 x.1.now)) }
    ensures shorter { IfOk result (λ o. IfSome o (λ x. length x.1.now < length text.now)) }
{
    if opens(text) {
        return Ok(None);
    }
    let first = text[0];
    if is_digit(first) {
        return Ok(number(text));
    }
    if is_start(first) {
        return name(alloc, text);
    }
    if first == b'"' {
        return string(alloc, text);
    }
    symbol(alloc, text)
}

/// The tokens of a text of at most `LONGEST_TEXT` bytes, with the places of their first bytes.
pub fn lex(alloc: Global, text: &[u8]) -> Result<Many<Token>, LexFault>
    ensures tokens { IfOk result (λ tokens. (length text.now ≤ longest_text) ×
        Tokens text.now tokens) }
    ensures only { IfOk result (λ tokens. (others : List Token) → Tokens text.now others →
        others ≡ tokens) }
    ensures fault { IfErr result (IsFault text.now) }
    ensures none { IfErr result (λ fault. OnLexical fault
        ((others : List Token) → Tokens text.now others → ⊥)) }
{
    if text.len() > LONGEST_TEXT {
        return Err(LexFault::TooLong {
            len: text.len() as u64,
        });
    }
    let mut tokens = Many::new(alloc);
    let mut rest = text;
    while !rest.is_empty() {
        if let Some(after) = behind_gap(rest) {
            rest = after;
            continue;
        }
        let at = (text.len() - rest.len()) as u32;
        let Some((kind, after)) = first_token(alloc, rest)? else {
            return Err(LexFault::Lexical { at });
        };
        tokens.push(Token { kind, at })?;
        rest = after;
    }
    Ok(tokens)
}

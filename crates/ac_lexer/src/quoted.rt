// Strings.

ghost use Rattle.std.specs.Prelude.{◌≡◌, ◌∷◌, ◌<◌, ◌≤◌, length, List, ℕ, IfSome, IfOk, MatchOption, slice_index, false};
ghost use Rattle.ac_lexer.specs.Gaps.{begins_comment};
ghost use Rattle.ac_lexer.specs.Spellings.{is_plain, escaped_byte, hex_value, Piece, Quoted};
ghost use Rattle.ac_lexer.specs.Tokens.{TokenAt, NoToken};

use crate::tokens::TokenKind;
use ac_types::{Many, Memory, Text};
use std::alloc::Global;

fn is_plain(c: u8) -> bool
    ensures { result ≡ is_plain c }
{
    c != b'"' && c != b'\\' && c != b'\n'
}

fn escaped(c: u8) -> Option<u8>
    ensures { result ≡ escaped_byte c }
{
    match c {
        b'\\' => Some(b'\\'),
        b'"' => Some(b'"'),
        b'n' => Some(b'\n'),
        b't' => Some(b'\t'),
        b'r' => Some(b'\r'),
        _ => None,
    }
}

fn hex_value(c: u8) -> Option<u8>
    ensures value { result ≡ hex_value c }
    ensures small { IfSome result (λ n. n < 16) }
{
    match c {
        b'0'..=b'9' => Some(c - b'0'),
        b'A'..=b'F' => Some(c - b'A' + 10),
        b'a'..=b'f' => Some(c - b'a' + 10),
        _ => None,
    }
}

// The byte whose two hexadecimal digits begin the text.
fn hex(text: &[u8]) -> Option<(u8, &[u8])>
    ensures piece { MatchOption result ((b : ℕ) (rest : List ℕ) →
        Piece (92 ∷ 120 ∷ text.now) b rest → ⊥)
        (λ x. Piece (92 ∷ 120 ∷ text.now) x.0 x.1.now) }
    ensures shorter { IfSome result (λ x. length x.1.now < length text.now) }
{
    let (high, rest) = text.split_first()?;
    let (low, rest) = rest.split_first()?;
    Some((16 * hex_value(*high)? + hex_value(*low)?, rest))
}

// What a `\` and the front of the text stand for.
fn escape(text: &[u8]) -> Option<(u8, &[u8])>
    ensures piece { MatchOption result ((b : ℕ) (rest : List ℕ) → Piece (92 ∷ text.now) b rest → ⊥)
        (λ x. Piece (92 ∷ text.now) x.0 x.1.now) }
    ensures shorter { IfSome result (λ x. length x.1.now < length text.now) }
{
    let (first, rest) = text.split_first()?;
    if *first == b'x' {
        return hex(rest);
    }
    Some((escaped(*first)?, rest))
}

// The byte that the front of a string's text stands for.
fn piece(text: &[u8]) -> Option<(u8, &[u8])>
    ensures piece { MatchOption result ((b : ℕ) (rest : List ℕ) → Piece text.now b rest → ⊥)
        (λ x. Piece text.now x.0 x.1.now) }
    ensures shorter { IfSome result (λ x. length x.1.now < length text.now) }
{
    let (first, rest) = text.split_first()?;
    if is_plain(*first) {
        return Some((*first, rest));
    }
    if *first == b'\\' { escape(rest) } else { None }
}

// The bytes of a string up to its last quote, from behind its first one on.
fn quoted(alloc: Global, text: &[u8]) -> Result<Option<(Text, &[u8])>, Memory>
    ensures quoted { IfOk result (λ o. MatchOption o ((content rest : List ℕ) →
        Quoted text.now content rest → ⊥)
        (λ x. Quoted text.now x.0.0 x.1.now)) }
    ensures shorter { IfOk result (λ o. IfSome o (λ x. length x.1.now < length text.now)) }
{
    let mut content = Many::new(alloc);
    let mut rest = text;
    while let Some((first, after)) = rest.split_first() {
        if *first == b'"' {
            return Ok(Some((Text(content), after)));
        }
        let Some((byte, after)) = piece(rest) else {
            return Ok(None);
        };
        content.push(byte)?;
        rest = after;
    }
    Ok(None)
}

/// The string that the text begins with.
pub(crate) fn string(alloc: Global, text: &[u8]) -> Result<Option<(TokenKind, &[u8])>, Memory>
    requires quote { slice_index text.now 0 ≡ 34 }
    ensures token { IfOk result (λ o. MatchOption o (NoToken text.now)
        (λ x. TokenAt text.now x.0 x.1.now)) }
    ensures shorter { IfOk result (λ o. IfSome o (λ x. length x.1.now < length text.now)) }
{
    let (_, inside) = text.split_at(1);
    let Some((content, rest)) = quoted(alloc, inside)? else {
        return Ok(None);
    };
    Ok(Some((TokenKind::Str(content), rest)))
}

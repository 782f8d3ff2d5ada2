// Numbers, names and symbols.

ghost use Rattle.std.specs.Prelude.{◌≡◌, ◌<◌, ◌≤◌, length, take, List, ℕ, IfSome, IfOk, MatchOption, slice_index, true, false, bytes_eq};
ghost use Rattle.std.specs.List.{prefix_len, list_any};
ghost use Rattle.ac_types.specs.Limits.{literals_end};
ghost use Rattle.ac_types.specs.Words.{is_start, is_part};
ghost use Rattle.ac_lexer.specs.Gaps.{begins_comment};
ghost use Rattle.ac_lexer.specs.Spellings.{is_digit, value, is_identifier, name_kind, is_within_limits, is_symbol, SymbolBegins};
ghost use Rattle.ac_lexer.specs.Tokens.{TokenAt, NoToken};

use crate::tokens::TokenKind;
use ac_types::limits::{LITERALS_END, LONGEST_WORD};
use ac_types::{Memory, Text, Word};
use std::alloc::Global;

pub(crate) fn is_digit(c: u8) -> bool
    ensures { result ≡ is_digit c }
{
    c.is_ascii_digit()
}

pub(crate) fn is_start(c: u8) -> bool
    ensures { result ≡ is_start c }
{
    c.is_ascii_lowercase() || c.is_ascii_uppercase() || c == b'_'
}

fn is_part(c: u8) -> bool
    ensures { result ≡ is_part c }
{
    is_start(c) || is_digit(c) || c == b'\''
}

// How many digits begin the text.
fn count_digits(text: &[u8]) -> usize
    ensures count { result ≡ prefix_len is_digit text.now }
    ensures within { result ≤ length text.now }
{
    text.iter().take_while(|c| is_digit(**c)).count()
}

// How many bytes of a name begin the text.
fn count_parts(text: &[u8]) -> usize
    ensures count { result ≡ prefix_len is_part text.now }
    ensures within { result ≤ length text.now }
{
    text.iter().take_while(|c| is_part(**c)).count()
}

// The number that digits write, if it has at most 63 bits.
fn value(digits: &[u8]) -> Option<u64>
    ensures { MatchOption result (literals_end ≤ value digits.now) (λ n. (n ≡ value digits.now) ×
        (value digits.now < literals_end)) }
{
    let mut value = 0u64;
    for digit in digits {
        let digit = u64::from(digit.saturating_sub(b'0'));
        value = value.checked_mul(10)?.checked_add(digit)?;
    }
    if value < LITERALS_END {
        Some(value)
    } else {
        None
    }
}

/// The number that the text begins with.
pub(crate) fn number(text: &[u8]) -> Option<(TokenKind, &[u8])>
    requires digit { is_digit (slice_index text.now 0) ≡ true }
    requires no_comment { begins_comment text.now ≡ false }
    ensures token { MatchOption result (NoToken text.now) (λ x. TokenAt text.now x.0 x.1.now) }
    ensures shorter { IfSome result (λ x. length x.1.now < length text.now) }
{
    let (digits, rest) = text.split_at(count_digits(text));
    Some((TokenKind::Int(value(digits)?), rest))
}

// What a name is, if it is no longer than names may be.
fn name_kind(alloc: Global, name: &[u8]) -> Result<Option<TokenKind>, Memory>
    requires { is_identifier name.now ≡ true }
    ensures { IfOk result (λ o. MatchOption o (is_within_limits (name_kind name.now) ≡ false)
        (λ kind. (kind ≡ name_kind name.now) × (is_within_limits kind ≡ true))) }
{
    if name.len() > LONGEST_WORD {
        return Ok(None);
    }
    let Some(word) = Word::new(Text::from_slice(alloc, name)?) else {
        return Ok(Some(TokenKind::Fixed(Text::from_slice(alloc, name)?)));
    };
    if name[0].is_ascii_uppercase() {
        Ok(Some(TokenKind::Upper(word)))
    } else {
        Ok(Some(TokenKind::Lower(word)))
    }
}

/// The name that the text begins with.
pub(crate) fn name(alloc: Global, text: &[u8]) -> Result<Option<(TokenKind, &[u8])>, Memory>
    requires start { is_start (slice_index text.now 0) ≡ true }
    requires no_comment { begins_comment text.now ≡ false }
    ensures token { IfOk result (λ o. MatchOption o (NoToken text.now)
        (λ x. TokenAt text.now x.0 x.1.now)) }
    ensures shorter { IfOk result (λ o. IfSome o (λ x. length x.1.now < length text.now)) }
{
    let (name, rest) = text.split_at(count_parts(text));
    let Some(kind) = name_kind(alloc, name)? else {
        return Ok(None);
    };
    Ok(Some((kind, rest)))
}

const SYMBOLS: [&[u8]; 20] = [
    b"(", b")", b"[", b"]", b",", b";", b":", b".", b"=", b"<", b"+", b"-", b"*", b"/", b"^",
    b"::", b"->", b"&&", b"||", b"|",
];

#[tactic(auto, unfolding(crate::specs::Spellings::is_symbol))]
fn is_symbol(text: &[u8]) -> bool
    ensures { result ≡ is_symbol text.now }
{
    let symbols: [&[u8]; 20] = SYMBOLS;
    is_any(symbols.as_slice(), text)
}

fn is_any(words: &[&[u8]], text: &[u8]) -> bool
    ensures { result ≡ list_any (λ word. bytes_eq word.now text.now) words.now }
{
    words.iter().any(|word| *word == text)
}

// How many bytes the longest symbol has that begins the text, 0 where none does.
fn count_symbol(text: &[u8]) -> usize
    ensures { SymbolBegins text.now result }
{
    if text.len() >= 2 && is_symbol(&text[..2]) {
        2
    } else if !text.is_empty() && is_symbol(&text[..1]) {
        1
    } else {
        0
    }
}

/// The symbol that the text begins with.
pub(crate) fn symbol(alloc: Global, text: &[u8]) -> Result<Option<(TokenKind, &[u8])>, Memory>
    requires no_digit { is_digit (slice_index text.now 0) ≡ false }
    requires no_start { is_start (slice_index text.now 0) ≡ false }
    requires no_quote { slice_index text.now 0 ≡ 34 → ⊥ }
    requires no_comment { begins_comment text.now ≡ false }
    ensures token { IfOk result (λ o. MatchOption o (NoToken text.now)
        (λ x. TokenAt text.now x.0 x.1.now)) }
    ensures shorter { IfOk result (λ o. IfSome o (λ x. length x.1.now < length text.now)) }
{
    let count = count_symbol(text);
    if count == 0 {
        return Ok(None);
    }
    let (symbol, rest) = text.split_at(count);
    Ok(Some((TokenKind::Fixed(Text::from_slice(alloc, symbol)?), rest)))
}

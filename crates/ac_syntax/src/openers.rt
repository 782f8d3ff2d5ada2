// Where too many openers are unclosed.

ghost use Rattle.std.specs.Prelude.{◌≡◌, ◌≤◌, MatchOption};
ghost use Rattle.ac_types.specs.Limits.{most_openers};
ghost use Rattle.ac_syntax.specs.Signs.{sign_of, signs};
ghost use Rattle.ac_syntax.specs.Openers.{opens_part, closes_part, open_after, IsShallow, IsDeep};

use crate::sign::{Symbol, symbol_of};
use ac_lexer::{Token, TokenKind};
use ac_types::limits::MOST_OPENERS;

impl Symbol {
    /// Whether it is `(`, `[`, `sig`, `struct`, `match` or `try`.
    pub fn opens(self) -> bool
        ensures { result ≡ opens_part self }
    {
        matches!(
            self,
            Symbol::Open
                | Symbol::OpenSquare
                | Symbol::Sig
                | Symbol::Struct
                | Symbol::Match
                | Symbol::Try
        )
    }

    /// Whether it is `)`, `]` or `end`.
    pub fn closes(self) -> bool
        ensures { result ≡ closes_part self }
    {
        matches!(self, Symbol::Close | Symbol::CloseSquare | Symbol::End)
    }
}

fn open_after(count: u32, token: &Token) -> u32
    requires { count ≤ most_openers }
    ensures { result ≡ open_after count (sign_of token.now) }
{
    let TokenKind::Fixed(text) = &token.kind else {
        return count;
    };
    let Some(symbol) = symbol_of(text.as_slice()) else {
        return count;
    };
    if symbol.opens() {
        count + 1
    } else if symbol.closes() {
        count.saturating_sub(1)
    } else {
        count
    }
}

/// The place of the first opener at which more than `MOST_OPENERS` are unclosed. Takes no memory.
pub fn deep(tokens: &[Token]) -> Option<u32>
    ensures { MatchOption result (IsShallow (signs tokens.now)) (λ at.
        IsDeep (signs tokens.now) at) }
{
    let mut count = 0;
    for token in tokens {
        count = open_after(count, token);
        if count > MOST_OPENERS {
            return Some(token.at);
        }
    }
    None
}

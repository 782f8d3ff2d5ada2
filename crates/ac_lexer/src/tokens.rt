// Tokens, and why a text has none.

use ac_types::{Memory, Text, Word};

/// What a token is. `Fixed` holds the bytes of a symbol, of a reserved word or of `_`.
pub enum TokenKind {
    Lower(Word),
    Upper(Word),
    Int(u64),
    Str(Text),
    Fixed(Text),
}

impl Drop for TokenKind {
    fn drop(self) {
        match self {
            TokenKind::Lower(_)
            | TokenKind::Upper(_)
            | TokenKind::Int(_)
            | TokenKind::Str(_)
            | TokenKind::Fixed(_) => {}
        }
    }
}

/// A token, and the place of its first byte.
pub struct Token {
    pub kind: TokenKind,
    pub at: u32,
}

impl Drop for Token {
    fn drop(self) {
        let Token { kind: _, at: _ } = self;
    }
}

/// Why a text gives no tokens.
#[derive(Clone, Copy, Debug, PartialEq, Eq)]
pub enum LexFault {
    /// The text has more than `LONGEST_TEXT` bytes: its length.
    TooLong { len: u64 },
    /// The place of the first byte at which no token, separator or whole comment begins.
    Lexical { at: u32 },
    Memory,
}

impl From<Memory> for LexFault {
    ghost use Rattle.std.specs.Prelude.{◌≡◌};
    ghost use Rattle.ac_lexer.specs.declared.tokens.LexFault.TheVariants as fault;

    ghost from_gives = { λ _ e. e ≡ fault.Memory };

    fn from(_e: Memory) -> LexFault {
        LexFault::Memory
    }
}

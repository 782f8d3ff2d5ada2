// Why a text has no tree.

use ac_types::Memory;

/// Why a text has no tree.
#[derive(Clone, Copy, Debug, PartialEq, Eq)]
pub enum ParseFault {
    /// The text has more than `LONGEST_TEXT` bytes: its length.
    TooLong { len: u64 },
    /// The place of the first byte at which no token, separator or whole comment begins.
    Lexical { at: u32 },
    /// The place of the first opener at which more than `MOST_OPENERS` are unclosed.
    TooDeep { at: u32 },
    /// The tokens have no tree: the place of a token, or the text's length.
    Syntax { at: u32 },
    Memory,
}

impl From<Memory> for ParseFault {
    ghost use Rattle.std.specs.Prelude.{◌≡◌};
    ghost use Rattle.ac_syntax.specs.declared.fault.ParseFault.TheVariants as fault;

    ghost from_gives = { λ _ e. e ≡ fault.Memory };

    fn from(_e: Memory) -> ParseFault {
        ParseFault::Memory
    }
}

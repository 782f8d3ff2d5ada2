// Why a parser gives no tree.

ghost use Rattle.std.specs.Prelude.{◌≡◌, length};

use crate::sign::Sign;
use ac_types::Memory;

/// Why a parser gives no tree: want of memory, or no tree stands there, which shows where so many
/// signs are left.
#[derive(Clone, Copy, Debug, PartialEq, Eq)]
pub enum ParseError {
    Memory,
    Syntax(usize),
}

impl From<Memory> for ParseError {
    ghost use Rattle.std.specs.Prelude.{◌≡◌};
    ghost use Rattle.ac_syntax.specs.declared.stop.ParseError.TheVariants as stop;

    ghost from_gives = { λ _ e. e ≡ stop.Memory };

    fn from(_e: Memory) -> ParseError {
        ParseError::Memory
    }
}

/// No tree stands here.
pub fn refused_at(signs: &[Sign<'_>]) -> ParseError
    ensures { result ≡ ParseError.Syntax (length signs.now) }
{
    ParseError::Syntax(signs.len())
}

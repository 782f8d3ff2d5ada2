// Why nothing is read.

ghost use Rattle.std.specs.Prelude.{◌≡◌, MatchResult};

use ac_types::Memory;

/// Why nothing is read.
#[derive(Clone, Copy, Debug, PartialEq, Eq)]
pub enum PieceFault {
    /// The piece that begins at this byte doesn't fit.
    Misfit {
        /// Its place.
        at: usize,
    },
    /// The bytes end within a piece.
    Short,
    /// Memory ran out.
    Memory,
}

impl From<Memory> for PieceFault {
    ghost use Rattle.std.specs.Prelude.{◌≡◌};
    ghost use Rattle.ac_decode_pieces.specs.declared.fault.PieceFault.TheVariants as fault;

    ghost from_gives = { λ _ e. e ≡ fault.Memory };

    fn from(_e: Memory) -> PieceFault {
        PieceFault::Memory
    }
}

/// A first thing, with a second that was read behind it.
pub fn joined<A: Drop, B: Drop>(a: A, b: Result<B, PieceFault>) -> Result<(A, B), PieceFault>
    ensures { MatchResult result (λ p. (b ≡ Ok p.1) × (p.0 ≡ a)) (λ e. b ≡ Err e) }
{
    let b = b?;
    Ok((a, b))
}

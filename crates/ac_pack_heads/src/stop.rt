// Why a walk stops.

use ac_types::Memory;

/// Why a walk stops before its end.
#[derive(Clone, Copy, Debug, PartialEq, Eq)]
pub enum Stop {
    /// A part nests over `DEEPEST_NESTING`.
    Depth,
    /// A function can't travel.
    Function,
    /// The parts so far have more bytes than a packet may have.
    Size,
    /// Memory ran out.
    Memory,
}

impl From<Memory> for Stop {
    ghost use Rattle.std.specs.Prelude.{◌≡◌};
    ghost use Rattle.ac_pack_heads.specs.declared.stop.Stop.TheVariants as stop;

    ghost from_gives = { λ _ e. e ≡ stop.Memory };

    fn from(_e: Memory) -> Stop {
        Stop::Memory
    }
}

// Why a packet is refused.

use ac_types::Memory;

/// Why `admit` refuses a packet: the first cause that applies, each over all definitions before the
/// next.
#[derive(Clone, Copy, Debug, PartialEq, Eq)]
pub enum AdmitFault {
    /// That definition isn't well formed among the packet's definitions, and is the first such.
    Definition {
        /// Its number in the packet.
        i: u32,
    },
    /// An entry or an earlier definition has the name of that definition and another text.
    Clash {
        /// The number of the definition in the packet, the first such.
        i: u32,
        /// What it clashes with, the least: entries are counted first, then the packet's
        /// definitions.
        j: u32,
    },
    /// The environment would have more than `MOST_ENTRIES` entries.
    Full {
        /// How many it would have.
        count: u32,
    },
    /// That import links to nothing, and is the first such.
    Unresolved {
        /// Its number in the packet.
        i: u32,
    },
    /// The packet's type is not the expected one.
    WrongType,
    /// The value is not of the type, or type and value speak of what the packet doesn't have.
    Value,
    /// Memory ran out.
    Memory,
}

impl From<Memory> for AdmitFault {
    ghost use Rattle.std.specs.Prelude.{◌≡◌};
    ghost use Rattle.ac_admit.specs.declared.fault.AdmitFault.TheVariants as fault;

    ghost from_gives = { λ _ e. e ≡ fault.Memory };

    fn from(_e: Memory) -> AdmitFault {
        AdmitFault::Memory
    }
}

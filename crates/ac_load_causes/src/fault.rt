// Why the entries of a part are refused.

use ac_types::Memory;

/// Why the entries of a part, or its term, are refused. Where several apply, the first of them in
/// this order. Definitions are counted in the part, entries among all that are there.
#[derive(Clone, Copy, Debug, PartialEq, Eq)]
pub enum PartFault {
    /// The first definition with an ill-typed field; the term counts as the one behind the last.
    IllTyped { def: u32 },
    /// The first struct that doesn't cover its signature, and the first spec that it doesn't
    /// cover, types first.
    Signature { def: u32, spec: u32 },
    /// The first field that isn't valuable.
    NotValuable { def: u32, field: u32 },
    /// The first abstract type, of an import by version, without a likespec.
    LikeMissing { def: u32, spec: u32 },
    /// The first import without a link.
    Unresolved { def: u32 },
    /// Two entries with one name and two texts: the least second, and for it the least first.
    Clash { first: u32, second: u32 },
    Memory,
}

impl From<Memory> for PartFault {
    ghost use Rattle.std.specs.Prelude.{◌≡◌};
    ghost use Rattle.ac_load_causes.specs.declared.fault.PartFault.TheVariants as fault;

    ghost from_gives = { λ _ e. e ≡ fault.Memory };

    fn from(_e: Memory) -> PartFault {
        PartFault::Memory
    }
}

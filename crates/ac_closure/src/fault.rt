// Why no needed definitions are given.

use ac_types::Memory;

/// Why `needed` gives no entries.
#[derive(Clone, Copy, Debug, PartialEq, Eq)]
pub enum NeedFault {
    /// No mark has that name.
    NoMark,
    /// Memory ran out.
    Memory,
}

impl From<Memory> for NeedFault {
    ghost use Rattle.std.specs.Prelude.{◌≡◌};
    ghost use Rattle.ac_closure.specs.declared.fault.NeedFault.TheVariants as fault;

    ghost from_gives = { λ _ e. e ≡ fault.Memory };

    fn from(_e: Memory) -> NeedFault {
        NeedFault::Memory
    }
}

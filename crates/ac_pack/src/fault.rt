// Why nothing crosses.

ghost use Rattle.std.specs.Prelude.{◌≡◌};

use ac_types::{Exn, Memory};

/// Why nothing crosses.
#[derive(Drop)]
pub enum CrossFault {
    /// The exception that the program gets.
    Raise(Exn),
    /// Memory ran out.
    Memory,
}

impl From<Memory> for CrossFault {
    ghost use Rattle.ac_pack.specs.declared.fault.CrossFault.TheVariants as fault;

    ghost from_gives = { λ _ e. e ≡ fault.Memory };

    fn from(_e: Memory) -> CrossFault {
        CrossFault::Memory
    }
}

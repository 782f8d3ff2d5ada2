// Why a surface is refused.

ghost use Rattle.std.specs.Prelude.{◌≡◌, Some};
ghost use Rattle.sha2.specs.Sha256.{sha256};
ghost use Rattle.ac_terms.specs.Defs.{Environment};
ghost use Rattle.ac_syntax.specs.Trees.{ProgramTree};
ghost use Rattle.ac_resolve_scopes.specs.Surfaces.{surface_fault};
ghost use Rattle.ac_resolve_faults.specs.Answers.{surface_fault_of};
ghost use Rattle.ac_resolve.specs.ScopeFaults.{RefusesScopes};

use ac_resolve_faults::FirstFault;
use ac_types::Memory;

/// Why a surface has no entries. Where several stand, the first of them in this order.
#[derive(Clone, Copy, Debug, PartialEq, Eq)]
pub enum ScopeFault {
    /// The place of the first name that isn't in scope.
    Unbound { at: u32 },
    /// The place of the first name that is repeated.
    Repeated { at: u32 },
    /// One more than the least limit that a count passes.
    TooMany { count: u32 },
    Memory,
}

impl From<Memory> for ScopeFault {
    ghost use Rattle.std.specs.Prelude.{◌≡◌};
    ghost use Rattle.ac_resolve.specs.declared.fault.ScopeFault.TheVariants as fault;

    ghost from_gives = { λ _ e. e ≡ fault.Memory };

    fn from(_e: Memory) -> ScopeFault {
        ScopeFault::Memory
    }
}

/// A fault that was found, as a refusal.
pub fn refusal(found: FirstFault) -> ScopeFault
    ensures { (E : Environment) (p : ProgramTree) → surface_fault sha256 E p
        ≡ Some (surface_fault_of found) → RefusesScopes E p result }
{
    match found {
        FirstFault::Unbound { at } => ScopeFault::Unbound { at },
        FirstFault::Repeated { at } => ScopeFault::Repeated { at },
        FirstFault::TooMany { count } => ScopeFault::TooMany { count },
    }
}

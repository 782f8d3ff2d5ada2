// Why a surface is refused.

ghost use Rattle.std.specs.Prelude.{◌≡◌, option_map};
ghost use Rattle.ac_resolve_faults.specs.Answers.{surface_fault_of};
ghost use Rattle.ac_resolve_faults.specs.inner.SurfaceFlaws.{first_fault};

use ac_resolve_signatures::Flaws;

/// Why a surface is refused for its names and counts. Where several stand, the first of them in this
/// order.
#[derive(Clone, Copy, Debug, PartialEq, Eq)]
pub enum FirstFault {
    /// The place of the first name that isn't in scope.
    Unbound { at: u32 },
    /// The place of the first name that is repeated.
    Repeated { at: u32 },
    /// One more than the least limit that a count passes.
    TooMany { count: u32 },
}

/// The first of the three kinds that is there.
pub fn first(found: Flaws) -> Option<FirstFault>
    ensures { option_map surface_fault_of result ≡ first_fault found }
{
    if let Some(at) = found.unbound {
        return Some(FirstFault::Unbound { at });
    }
    if let Some(at) = found.repeated {
        return Some(FirstFault::Repeated { at });
    }
    let count = found.count?;
    Some(FirstFault::TooMany { count })
}

// The strings that cross between programs.

ghost use Rattle.std.specs.Prelude.{◌≡◌, IfOk};

use ac_types::{Memory, Text};
use std::alloc::Global;

/// A string on its way between programs.
#[derive(Drop)]
pub enum Crossing {
    /// `marshal` gave it.
    Made(Text),
    /// `unmarshal` read it, and accepted it or not.
    Read(Text),
}

impl Crossing {
    /// A copy that equals this one.
    pub fn copy(&self, alloc: Global) -> Result<Crossing, Memory>
        ensures { IfOk result (λ c. c ≡ self.now) }
    {
        match self {
            Crossing::Made(text) => Ok(Crossing::Made(text.copy(alloc)?)),
            Crossing::Read(text) => Ok(Crossing::Read(text.copy(alloc)?)),
        }
    }
}

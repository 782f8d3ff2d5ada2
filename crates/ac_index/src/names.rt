// Numbers that are noted under names.

ghost use Rattle.std.specs.Prelude.{◌≡◌, Some, OnOk, OnErr};
ghost use Rattle.std.specs.Option.{option_or};
ghost use Rattle.ac_types.specs.Types.{Bytes, same_bytes};
ghost use Rattle.ac_types.specs.Partial.{given};
ghost use Rattle.ac_index.specs.Noted.{first_under, forgetting};

use crate::firsts::Firsts;
use ac_types::Memory;

impl Firsts<[u8; 32]> {
    /// The number that was noted first under the name, `None` exactly where none was.
    pub fn first(&self, name: &[u8; 32]) -> Option<usize>
        ensures { result ≡ first_under self.now name.now }
    {
        self.found.get(name).copied()
    }

    /// Notes a number under a name that has none, and leaves one that has. An `Err` leaves all.
    pub fn note(&mut self, name: [u8; 32], number: usize) -> Result<(), Memory>
        ensures ok { OnOk result ((k : Bytes) → first_under self.new k ≡
            option_or (first_under self.old k) (given (same_bytes name k) (Some number))) }
        ensures err { OnErr result (self.new ≡ self.old) }
    {
        if self.first(&name).is_some() {
            return Ok(());
        }
        self.found.insert(name, number)?;
        Ok(())
    }

    /// Forgets a name that has this number. It takes no memory.
    pub fn forget(&mut self, name: &[u8; 32], number: usize)
        ensures { (k : Bytes) → first_under self.new k ≡ forgetting (same_bytes name.now k) number
            (first_under self.old k) }
    {
        if let Some(first) = self.first(name) {
            if first == number {
                self.found.remove(name);
            }
        }
    }
}

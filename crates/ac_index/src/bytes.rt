// Numbers that are noted under byte strings.

ghost use Rattle.std.specs.Prelude.{◌≡◌, Some, OnOk, OnErr};
ghost use Rattle.std.specs.Option.{option_or};
ghost use Rattle.ac_types.specs.Types.{Bytes, same_bytes};
ghost use Rattle.ac_types.specs.Partial.{given};
ghost use Rattle.ac_index.specs.Noted.{first_under, forgetting};

use crate::firsts::Firsts;
use ac_types::Memory;

impl Firsts<Vec<u8>> {
    /// The number that was noted first under the key, `None` exactly where none was.
    pub fn first(&self, key: &[u8]) -> Option<usize>
        ensures { result ≡ first_under self.now key.now }
    {
        self.found.get(key).copied()
    }

    /// Notes a number under a key that has none, and leaves one that has. An `Err` leaves all.
    pub fn note(&mut self, key: Vec<u8>, number: usize) -> Result<(), Memory>
        ensures ok { OnOk result ((k : Bytes) → first_under self.new k ≡
            option_or (first_under self.old k) (given (same_bytes key.items k) (Some number))) }
        ensures err { OnErr result (self.new ≡ self.old) }
    {
        if self.first(key.as_slice()).is_some() {
            return Ok(());
        }
        self.found.insert(key, number)?;
        Ok(())
    }

    /// Forgets a key that has this number. It takes no memory.
    pub fn forget(&mut self, key: &[u8], number: usize)
        ensures { (k : Bytes) → first_under self.new k ≡ forgetting (same_bytes key.now k) number
            (first_under self.old k) }
    {
        if let Some(first) = self.first(key) {
            if first == number {
                self.found.remove(key);
            }
        }
    }
}

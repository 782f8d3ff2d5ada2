// A name with a word, as a key.

ghost use Rattle.std.specs.Prelude.{◌≡◌, ◌++◌, IfOk, length};

use ac_types::limits::LONGEST_WORD;
use ac_types::{Memory, Name, Word};
use std::alloc::Global;
use std::marker::Model;

const NAME_BYTES: usize = 32;

const LONGEST_KEY: usize = NAME_BYTES + LONGEST_WORD;

/// The bytes of a name, and behind them those of a word. No two pairs have one key.
#[derive(Drop)]
pub struct NamedWord {
    bytes: [u8; LONGEST_KEY],
    len: usize,
}

impl Model for NamedWord {
    ghost use Rattle.std.specs.Prelude.{List, ℕ, take, ◌≤◌, ◌+◌};
    ghost use Rattle.ac_types.specs.Limits.{longest_word};

    ghost Value = { List ℕ };

    ghost view = { λ key. take key.len key.bytes };

    ghost invariant = { λ key. key.len ≤ 32 + longest_word };
}

impl NamedWord {
    /// The key of a name and a word.
    pub fn new(name: &Name, word: &Word) -> NamedWord
        ensures key { result ≡ name.now.0 ++ word.now }
        ensures name { length name.now.0 ≡ 32 }
    {
        let behind = word.text().as_slice();
        let len = NAME_BYTES + behind.len();
        let mut bytes = [0; LONGEST_KEY];
        bytes[..NAME_BYTES].copy_from_slice(&name.0);
        bytes[NAME_BYTES..len].copy_from_slice(behind);
        NamedWord { bytes, len }
    }

    /// The bytes.
    pub fn as_slice(&self) -> &[u8]
        ensures { result.now ≡ self.now }
    {
        &self.bytes[..self.len]
    }

    /// The bytes, in memory of their own.
    pub fn to_vec(&self, alloc: Global) -> Result<Vec<u8>, Memory>
        ensures { IfOk result (λ bytes. bytes.items ≡ self.now) }
    {
        Ok(Vec::from_slice(alloc, self.as_slice())?)
    }
}

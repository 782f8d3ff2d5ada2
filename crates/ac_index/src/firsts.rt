// Keys, and the number that was noted first under each.

ghost use Rattle.std.specs.Prelude.{◌≡◌, []};
ghost use Rattle.ac_types.specs.Types.{Bytes};

use std::alloc::Global;
use std::collections::BTreeMap;
use std::marker::Model;

/// What a number is noted under. Contracts see a key as its bytes.
pub trait Key: Ord {
    /// The bytes.
    ghost bytes: { Self → Bytes };
}

impl Key for [u8; 32] {
    ghost bytes = { λ key. key };
}

impl Key for Vec<u8> {
    ghost bytes = { λ key. key.items };
}

/// The number that was noted first under each key. Contracts see the keys, each with its number.
#[derive(Drop)]
pub struct Firsts<K: Key> {
    pub(crate) found: BTreeMap<K, usize>,
}

impl<K: Key> Model for Firsts<K> {
    ghost use Rattle.std.specs.Prelude.{map};
    ghost use Rattle.ac_index.specs.Noted.{Noted};

    ghost Value = { Noted };

    ghost view = { λ it. map (λ e. (K.bytes e.0, e.1)) it.found.entries };
}

impl<K: Key> Firsts<K> {
    /// Nothing is noted. It takes no memory.
    pub fn new(alloc: Global) -> Firsts<K>
        ensures { result ≡ [] }
    {
        Firsts {
            found: BTreeMap::new(alloc),
        }
    }
}

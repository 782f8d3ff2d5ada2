// Maps from keys to the least entries that have them.

ghost use Rattle.std.specs.Prelude.{◌≡◌, ◌<◌, ◌^◌, Some, length, map, IfOk, OnOk};
ghost use Rattle.std.specs.Option.{option_or};
ghost use Rattle.ac_types.specs.Types.{same_bytes};
ghost use Rattle.ac_types.specs.Partial.{given};
ghost use Rattle.ac_terms.specs.Read.{entry_of};
ghost use Rattle.ac_admit_placing.specs.inner.Keys.{keyed};
ghost use Rattle.ac_admit_placing.specs.inner.Maps.{Key, key_found};

use crate::keys::key_of;
use ac_terms::Entry;
use ac_types::Memory;
use std::alloc::Global;
use std::collections::BTreeMap;

/// The number of the least entry of each key.
pub type Keys = BTreeMap<Vec<u8>, u32>;

/// The entry of a key, `None` exactly where it has none.
#[tactic(auto, unfolding(crate::specs::inner::Maps::key_found))]
pub fn found(keys: &Keys, key: &Vec<u8>) -> Option<u32>
    ensures { result ≡ key_found keys.now key.now }
{
    keys.get(key).copied()
}

/// Notes an entry under a key that has none, and leaves one that has.
#[tactic(auto, using(crate::proofs::FindLaws::noted))]
pub fn note(keys: &mut Keys, key: Vec<u8>, i: u32) -> Result<(), Memory>
    ensures { OnOk result ((k : Key) → key_found keys.new k ≡ option_or (key_found keys.old k)
        (given (same_bytes key.items k.items) (Some i))) }
{
    if found(keys, &key).is_some() {
        return Ok(());
    }
    keys.insert(key, i)?;
    Ok(())
}

/// The keys of the entries.
pub fn keys_of(alloc: Global, entries: &[Entry]) -> Result<Keys, Memory>
    requires { length entries.now < 2 ^ 32 }
    ensures { IfOk result (λ keys. (k : Key) → key_found keys k ≡ keyed
        (map entry_of entries.now) k.items) }
{
    let mut keys = BTreeMap::new(alloc);
    for i in 0..entries.len() {
        let entry = &entries[i];
        let key = key_of(alloc, &entry.def, entry.link)?;
        note(&mut keys, key, i as u32)?;
    }
    Ok(keys)
}

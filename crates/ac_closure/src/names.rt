// The entries by their names.

ghost use Rattle.std.specs.Prelude.{◌≡◌, ◌<◌, ◌^◌, Some, length, map, IfOk, OnOk, if◌then◌else◌};
ghost use Rattle.ac_types.specs.Types.{Bytes};
ghost use Rattle.ac_terms.specs.Defs.{names as is_named, find_name};
ghost use Rattle.ac_terms.specs.Read.{entry_of};
ghost use Rattle.ac_closure.specs.inner.Names.{entry_named};

use ac_terms::Entry;
use ac_types::{Memory, Name};
use std::alloc::Global;
use std::collections::BTreeMap;

/// The number of the first entry of each name.
pub type Names = BTreeMap<[u8; 32], u32>;

/// The names of some entries.
pub fn names_of(alloc: Global, entries: &[Entry]) -> Result<Names, Memory>
    requires { length entries.now < 2 ^ 32 }
    ensures { IfOk result (λ names. (name : Bytes) →
        entry_named names name ≡ find_name (map entry_of entries.now) name) }
{
    let mut names = BTreeMap::new(alloc);
    let mut i = entries.len();
    while i > 0 {
        i -= 1;
        put_name(&mut names, &entries[i], i as u32)?;
    }
    Ok(names)
}

// Puts the name of entry `i`, if it has one, in the place of a later entry's.
fn put_name(names: &mut Names, entry: &Entry, i: u32) -> Result<(), Memory>
    ensures { OnOk result ((name : Bytes) → entry_named names.new name ≡
        (if is_named (entry_of entry.now).name name then Some i else entry_named names.old name)) }
{
    match &entry.name {
        None => Ok(()),
        Some(name) => {
            names.insert(name.0, i)?;
            Ok(())
        }
    }
}

/// The first entry of a name, `None` exactly where there is none.
#[tactic(auto, unfolding(crate::specs::inner::Names::entry_named))]
pub fn entry_named(names: &Names, name: &Name) -> Option<u32>
    ensures { result ≡ entry_named names.now name.now.0 }
{
    names.get(&name.0).copied()
}

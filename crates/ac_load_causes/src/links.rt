// Entries of a part, linked.

ghost use Rattle.std.specs.Prelude.{◌≡◌, ◌++◌, ◌+◌, ◌<◌, ◌≤◌, ◌^◌, length, map, take, drop, IfOk, IsTrue};
ghost use Rattle.std.specs.List.{list_all};
ghost use Rattle.ac_terms.specs.Read.{environment_of, entry_of, seen_of, def_of_code};
ghost use Rattle.ac_load_rules.specs.Causes.{link_of, linked_entry, linked_behind};
ghost use Rattle.ac_load_rules.specs.Counted.{has_counted, is_counted};
ghost use Rattle.ac_load_causes.specs.inner.Turned.{turned};

use ac_link::{When, resolve};
use ac_terms::{Def, Entry, Env, Seen};
use ac_types::Memory;
use std::alloc::Global;

/// The entries of a part behind the first `front`, linked: each comes from `seen`, and an import
/// has the link that its resolvespec gives over the entries in front of it, or none.
pub fn linked(alloc: Global, env: Env, front: usize, seen: &Seen) -> Result<Env, Memory>
    requires few { length env.entries < 2 ^ 32 }
    requires within { front ≤ length env.entries }
    requires counted { IsTrue (list_all has_counted (environment_of env)) }
    ensures entries { IfOk result (λ e. environment_of e ≡ take front (environment_of env) ++
        linked_behind (seen_of seen.now) (take front (environment_of env))
        (drop front (environment_of env))) }
{
    let mut env = env;
    let mut behind = Vec::new(alloc);
    while env.len() > front {
        if let Some(entry) = env.pop() {
            behind.push(entry)?;
        }
    }
    put_back(alloc, env, behind, seen)
}

// Entries with those of a part, the first of which stands last, behind them and linked.
fn put_back(alloc: Global, env: Env, part: Vec<Entry>, seen: &Seen) -> Result<Env, Memory>
    requires few { length env.entries + length part.items < 2 ^ 32 }
    requires counted { IsTrue (list_all has_counted (map entry_of (turned part.items))) }
    ensures { IfOk result (λ e. environment_of e ≡ environment_of env ++
        linked_behind (seen_of seen.now) (environment_of env) (map entry_of (turned part.items))) }
{
    let mut env = env;
    let mut part = part;
    while let Some(entry) = part.pop() {
        let entry = linked_entry(alloc, &env, entry, seen)?;
        env.push(entry)?;
    }
    Ok(env)
}

// An entry of a part behind these.
fn linked_entry(alloc: Global, env: &Env, entry: Entry, seen: &Seen) -> Result<Entry, Memory>
    requires few { length env.now.entries < 2 ^ 32 }
    requires counted { IsTrue (has_counted (entry_of entry)) }
    ensures { IfOk result (λ e. entry_of e ≡ linked_entry (seen_of seen.now)
        (environment_of env.now) (entry_of entry)) }
{
    let mut entry = entry;
    entry.link = link_of(env, &entry.def);
    match seen.copy(alloc) {
        Ok(seen) => {
            entry.seen = seen;
            Ok(entry)
        }
        Err(memory) => {
            drop(entry);
            Err(memory)
        }
    }
}

// The link of a definition behind these entries.
fn link_of(env: &Env, def: &Def) -> Option<u32>
    requires few { length env.now.entries < 2 ^ 32 }
    requires counted { IsTrue (is_counted (def_of_code def.now)) }
    ensures { result ≡ link_of (environment_of env.now) (def_of_code def.now) }
{
    match def {
        Def::Module(_) => None,
        Def::Import(import) => resolve(env, import, When::Load),
        Def::Mark(_) => None,
    }
}

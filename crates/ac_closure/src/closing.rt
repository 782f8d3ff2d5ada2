// The needed definitions.

ghost use Rattle.std.specs.Prelude.{◌≡◌, ◌↔◌, ◌<◌, ◌^◌, ℕ, None, Some, Contains, IfOk, IsErrOf, length, map};
ghost use Rattle.ac_terms.specs.Read.{entry_of, environment_of};
ghost use Rattle.ac_rules.specs.Coherent.{IsCoherent};
ghost use Rattle.ac_rules.specs.Needed.{is_mark, mark_at, needed_by, AreNeeded};
ghost use Rattle.ac_closure.specs.inner.Chosen.{with_entries};
ghost use Rattle.ac_closure.specs.inner.Names.{entry_named};
ghost use Rattle.ac_closure.specs.inner.Pass.{chosen_below};

use crate::fault::NeedFault;
use crate::forms::add_form;
use crate::names::{Names, names_of};
use crate::set::add_entries;
use ac_terms::{Def, Entry, Env};
use ac_types::{Many, Memory, Text};
use std::alloc::Global;

/// The needed entries of some roots, in the order of the environment: the roots, and what the
/// packet form of a needed entry speaks of. `NoMark` exactly where no mark has that name. In a
/// coherent environment each entry speaks of earlier ones alone, so that one pass from the last
/// entry to the first finds them.
pub fn needed(
    alloc: Global,
    env: &Env,
    mark: &Text,
    roots: &Many<u32>,
) -> Result<Many<u32>, NeedFault>
    requires { length env.now.entries < 2 ^ 32 }
    ensures needed { IsCoherent (environment_of env.now) →
        ((i : ℕ) → Contains roots.now i → i < length env.now.entries) →
        IfOk result (λ is. (m : ℕ) × (mark_at (environment_of env.now) mark.now.0 ≡ Some m) ×
        AreNeeded (environment_of env.now) m roots.now is) }
    ensures computed { IfOk result (λ is. (m : ℕ) ×
        (mark_at (environment_of env.now) mark.now.0 ≡ Some m) ×
        (is ≡ needed_by (environment_of env.now) m roots.now)) }
    ensures no_mark { IsErrOf result NeedFault.NoMark ↔
        mark_at (environment_of env.now) mark.now.0 ≡ None }
{
    match mark_at(env.entries(), mark) {
        None => Err(NeedFault::NoMark),
        Some(at) => Ok(needed_by(alloc, env.entries(), at, roots.as_slice())?),
    }
}

/// The first entry that is the mark of that name; `None` where there is none.
pub fn mark_at(entries: &[Entry], mark: &Text) -> Option<usize>
    ensures { result ≡ mark_at (map entry_of entries.now) mark.now.0 }
{
    entries.iter().position(|entry| is_mark(mark, entry))
}

// Whether an entry is the mark of that name.
fn is_mark(mark: &Text, entry: &Entry) -> bool
    ensures { result ≡ is_mark mark.now.0 (entry_of entry.now) }
{
    match &entry.def {
        Def::Module(_) => false,
        Def::Import(_) => false,
        Def::Mark(name) => name.as_slice() == mark.as_slice(),
    }
}

// The needed entries, where the mark is entry `mark`.
fn needed_by(
    alloc: Global,
    entries: &[Entry],
    mark: usize,
    roots: &[u32],
) -> Result<Many<u32>, Memory>
    requires { length entries.now < 2 ^ 32 }
    ensures { IfOk result (λ is. is ≡ needed_by (map entry_of entries.now) mark roots.now) }
{
    let names = names_of(alloc, entries)?;
    let mut set = vec![in alloc; false; entries.len()]?;
    let chosen = chosen_from(alloc, entries, &names, mark, roots, &mut set)?;
    Ok(Many::from_vec(chosen))
}

// The entries of a set and roots, where each adds to it what its packet form speaks of.
fn chosen_from(
    alloc: Global,
    entries: &[Entry],
    names: &Names,
    mark: usize,
    roots: &[u32],
    set: &mut [bool],
) -> Result<Vec<u32>, Memory>
    requires entries { length entries.now < 2 ^ 32 }
    requires flags { length set.old ≡ length entries.now }
    ensures { IfOk result (λ is. is.items ≡ chosen_below (entry_named names.now)
        (map entry_of entries.now) mark (length entries.now) (with_entries set.old roots.now)) }
{
    add_entries(set, roots);
    chosen_of(alloc, entries, names, mark, set)
}

// The entries of a set, where each adds to it what its packet form speaks of.
fn chosen_of(
    alloc: Global,
    entries: &[Entry],
    names: &Names,
    mark: usize,
    set: &mut [bool],
) -> Result<Vec<u32>, Memory>
    requires entries { length entries.now < 2 ^ 32 }
    requires flags { length set.old ≡ length entries.now }
    ensures { IfOk result (λ is. is.items ≡ chosen_below (entry_named names.now)
        (map entry_of entries.now) mark (length entries.now) set.old) }
{
    let mut chosen = Vec::new(alloc);
    let mut k = entries.len();
    while k > 0 {
        k -= 1;
        if set[k] {
            chosen.push(k as u32)?;
            add_form(set, names, &entries[k], k < mark);
        }
    }
    chosen.reverse();
    Ok(chosen)
}

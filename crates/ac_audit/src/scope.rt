// What a type means behind the own entries of an environment.

ghost use Rattle.std.specs.Prelude.{◌≡◌, ◌<◌, ◌^◌, [], IfErr, IfOk, IsTrue, None, OnOk, length};
ghost use Rattle.std.specs.List.{list_all};
ghost use Rattle.ac_types.specs.ReadTypes.{typ_of};
ghost use Rattle.ac_terms.specs.Read.{entry_of, environment_of};
ghost use Rattle.ac_rules.specs.Links.{is_own};
ghost use Rattle.ac_syntax.specs.ReadTrees.{type_tree_of};
ghost use Rattle.ac_resolve_scopes.specs.Scopes.{after_all, scope_behind, with_entry};
ghost use Rattle.ac_resolve_scopes.specs.Written.{type_in};
ghost use Rattle.ac_resolve_names.specs.Entries.{keeps_name};
ghost use Rattle.ac_resolve_names.specs.Fronts.{front_of};
ghost use Rattle.ac_audit.specs.TypeFaults.{RefusesTree};
ghost use Rattle.ac_audit.specs.TypeTexts.{own_entries, own_scope, type_fault};
ghost use Rattle.ac_audit.specs.inner.Faults.{type_faults};

use ac_resolve::ScopeFault;
use ac_resolve_names::{Front, Scope, ty};
use ac_resolve_signatures::{Flaws, Scan, entries_in_front, type_flaws};
use ac_syntax::SType;
use ac_terms::{Entry, Env, Seen};
use ac_types::{Memory, Ty};
use std::alloc::Global;

/// The type that a tree is behind the last own entry of some entries, which keep their names. `Err`
/// with its first fault exactly where it has one: a name that isn't in scope, or a count that passes
/// its limit. `Repeated` never comes.
pub fn elaborate_type(alloc: Global, tree: &SType, env: &Env) -> Result<Ty, ScopeFault>
    requires names { IsTrue (list_all keeps_name (environment_of env.now)) }
    requires few { length env.now.entries < 2 ^ 32 }
    ensures sound { OnOk result (type_fault (own_scope (environment_of env.now))
        (type_tree_of tree.now) ≡ None) }
    ensures means { IfOk result (λ ty. typ_of ty ≡ type_in (own_scope (environment_of env.now))
        (type_tree_of tree.now)) }
    ensures refused { IfErr result (λ fault. RefusesTree (own_scope (environment_of env.now))
        (type_tree_of tree.now) fault) }
{
    let own = own_entries(alloc, env)?;
    check_type(alloc, tree, &own)?;
    let front = Front::seeing(alloc, own)?;
    let ty = written(alloc, tree, &front)?;
    Ok(ty)
}

// Copies of the own entries.
fn own_entries(alloc: Global, env: &Env) -> Result<Env, Memory>
    ensures { IfOk result (λ own. environment_of own ≡ own_entries (environment_of env.now)) }
{
    let mut own = Env::new(alloc);
    for entry in env.entries() {
        if is_own(entry) {
            own.push(entry.copy(alloc)?)?;
        }
    }
    Ok(own)
}

fn is_own(entry: &Entry) -> bool
    ensures { result ≡ is_own (entry_of entry.now).seen }
{
    match &entry.seen {
        Seen::Own => true,
        Seen::Shelf(_) | Seen::Arrived => false,
    }
}

// Nothing where a type has no fault behind entries that are all called by their names.
fn check_type(alloc: Global, tree: &SType, own: &Env) -> Result<(), ScopeFault>
    ensures sound { OnOk result (type_fault
        (after_all with_entry (scope_behind []) (environment_of own.now))
        (type_tree_of tree.now) ≡ None) }
    ensures refused { IfErr result (λ fault. RefusesTree
        (after_all with_entry (scope_behind []) (environment_of own.now))
        (type_tree_of tree.now) fault) }
{
    let flaws = flaws(alloc, tree, own)?;
    if let Some(at) = flaws.unbound {
        return Err(ScopeFault::Unbound { at });
    }
    match flaws.count {
        Some(count) => Err(ScopeFault::TooMany { count }),
        None => Ok(()),
    }
}

// What is wrong with a type there.
fn flaws(alloc: Global, tree: &SType, own: &Env) -> Result<Flaws, Memory>
    ensures { IfOk result (λ f. f ≡ type_faults
        (after_all with_entry (scope_behind []) (environment_of own.now))
        (type_tree_of tree.now)) }
{
    let externals = entries_in_front(alloc, own.entries())?;
    let scan = Scan::new(alloc, &externals);
    Ok(type_flaws(tree, &scan))
}

// What a type means at a front.
fn written(alloc: Global, tree: &SType, front: &Front) -> Result<Ty, Memory>
    ensures { IfOk result (λ ty. typ_of ty ≡ type_in (front_of front.now) (type_tree_of tree.now)) }
{
    let outer = front.outer(alloc);
    let scope = Scope::new(&outer);
    ty(alloc, tree, &scope)
}

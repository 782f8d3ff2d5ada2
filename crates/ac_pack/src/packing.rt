// Packing.

ghost use Rattle.std.specs.Prelude.{◌≡◌, ◌≤◌, Some, Err, length, MatchResult};
ghost use Rattle.ac_types.specs.Limits.{most_entries};
ghost use Rattle.ac_types.specs.ReadTypes.{typ_of};
ghost use Rattle.ac_terms.specs.Read.{environment_of};
ghost use Rattle.ac_terms.specs.Terms.{PValue};
ghost use Rattle.ac_code.specs.ReadCode.{table_code};
ghost use Rattle.ac_values.specs.Values.{stands_as};
ghost use Rattle.ac_rules.specs.Coherent.{IsCoherent};
ghost use Rattle.ac_terms.specs.Defs.{Packet};
ghost use Rattle.ac_rules.specs.Faults.{whole, whole_fault, marshalled};
ghost use Rattle.ac_rules.specs.Needed.{mark_at, packet_of_entries};
ghost use Rattle.ac_meaning.specs.BarePacking.{bare_packed};
ghost use Rattle.ac_machine_meaning.specs.Stands.{stands};
ghost use Rattle.ac_pack.specs.Packs.{Packed};
ghost use Rattle.ac_pack.specs.inner.PackFaults.{of_stop, of_need};
ghost use Rattle.ac_pack.specs.inner.Needs.{AreChosen};
ghost use Rattle.ac_pack.specs.inner.Ready.{IsReady};

use crate::packet::bytes;
use ac_closure::{NeedFault, mark_at, needed};
use ac_code::CodeTable;
use ac_pack_definitions::forms_nest;
use ac_pack_heads::Stop;
use ac_pack_values::write;
use ac_terms::Env;
use ac_types::{Many, Text, Ty};
use ac_values::{Store, Value};
use std::alloc::Global;

/// Why a value is not packed.
#[derive(Clone, Copy, Debug, PartialEq, Eq)]
pub enum PackFault {
    /// No mark has that name.
    Mark,
    /// A function can't travel.
    Function,
    /// It nests too far.
    Depth,
    /// It is too long.
    Size,
    /// Memory ran out.
    Memory,
}

// The fault at which a walk stops.
fn of_stop(stop: Stop) -> PackFault
    ensures { result ≡ of_stop stop }
{
    match stop {
        Stop::Depth => PackFault::Depth,
        Stop::Function => PackFault::Function,
        Stop::Size => PackFault::Size,
        Stop::Memory => PackFault::Memory,
    }
}

// The fault for which no entries are chosen.
fn of_need(fault: NeedFault) -> PackFault
    ensures { result ≡ of_need fault }
{
    match fault {
        NeedFault::NoMark => PackFault::Mark,
        NeedFault::Memory => PackFault::Memory,
    }
}

/// The string of the value of this node at the type, with what it needs, as cut by the mark of this
/// name; or the fault for which there is none.
pub fn pack(
    alloc: Global,
    env: &Env,
    table: &CodeTable,
    store: &Store,
    mark: &Text,
    value: &Value,
    ty: &Ty,
) -> Result<Text, PackFault>
    requires { IsCoherent (environment_of env.now) }
    ensures { Packed (marshalled (environment_of env.now) mark.now.0 (typ_of ty.now)
        (bare_packed (environment_of env.now)
        (stands (table_code table.now) (stands_as store.now value.now.0)) (typ_of ty.now)))
        result }
{
    match mark_at(env.entries(), mark) {
        None => Err(PackFault::Mark),
        Some(at) => marked(alloc, env, table, store, mark, at, *value, ty),
    }
}

// The string, where the mark is entry `at`.
fn marked(
    alloc: Global,
    env: &Env,
    table: &CodeTable,
    store: &Store,
    mark: &Text,
    at: usize,
    value: Value,
    ty: &Ty,
) -> Result<Text, PackFault>
    requires few { length env.now.entries ≤ most_entries }
    requires marked { mark_at (environment_of env.now) mark.now.0 ≡ Some at }
    ensures { Packed (marshalled (environment_of env.now) mark.now.0 (typ_of ty.now)
        (bare_packed (environment_of env.now)
        (stands (table_code table.now) (stands_as store.now value.0)) (typ_of ty.now)))
        result }
{
    match chosen(alloc, env, table, store, mark, at, value, ty) {
        Err(fault) => Err(fault),
        Ok(chosen) => whole(alloc, env, table, store, at, chosen.as_slice(), value, ty),
    }
}

// The entries that a type and a value at it need, where no part of them fails. Their numbers aren't
// known yet: the parts are written without them.
fn chosen(
    alloc: Global,
    env: &Env,
    table: &CodeTable,
    store: &Store,
    mark: &Text,
    at: usize,
    value: Value,
    ty: &Ty,
) -> Result<Many<u32>, PackFault>
    requires few { length env.now.entries ≤ most_entries }
    requires marked { mark_at (environment_of env.now) mark.now.0 ≡ Some at }
    ensures { let v : PValue = bare_packed (environment_of env.now)
        (stands (table_code table.now) (stands_as store.now value.0)) (typ_of ty.now) in
        MatchResult result
        (λ is. AreChosen (environment_of env.now) at (typ_of ty.now) v is)
        (λ e. Packed (marshalled (environment_of env.now) mark.now.0 (typ_of ty.now) v)
        (Err e)) }
{
    match write(alloc, env, table, store, &[], value, ty) {
        Err(stop) => Err(of_stop(stop)),
        Ok(written) => match needed(alloc, env, mark, &written.roots) {
            Err(fault) => Err(of_need(fault)),
            Ok(chosen) => Ok(chosen),
        },
    }
}

// The string of the packet of the chosen entries, a type and a value at it, of which no part fails;
// or the fault for which there is none: that a definition nests too far, then the size.
fn whole(
    alloc: Global,
    env: &Env,
    table: &CodeTable,
    store: &Store,
    mark: usize,
    chosen: &[u32],
    value: Value,
    ty: &Ty,
) -> Result<Text, PackFault>
    requires { IsReady (length env.now.entries) chosen.now (typ_of ty.now)
        (bare_packed (environment_of env.now)
        (stands (table_code table.now) (stands_as store.now value.0)) (typ_of ty.now)) }
    ensures { let p : Packet = packet_of_entries (environment_of env.now) mark chosen.now
        (typ_of ty.now) (bare_packed (environment_of env.now)
        (stands (table_code table.now) (stands_as store.now value.0)) (typ_of ty.now)) in
        Packed (whole p (whole_fault p)) result }
{
    if !forms_nest(env, mark, chosen) {
        return Err(PackFault::Depth);
    }
    match bytes(alloc, env, table, store, mark, chosen, value, ty) {
        Err(stop) => Err(of_stop(stop)),
        Ok(text) => Ok(text),
    }
}

// What a packet is asked before any entry comes: its definitions, their links, and what its type and
// value speak of.

ghost use Rattle.std.specs.Prelude.{◌≡◌, ◌<◌, ◌+◌, ◌^◌, None, Some, true, length, map, nat_lt, option_map, position, IfOk, IfErr, OnOk, IsTrue};
ghost use Rattle.std.specs.List.{list_all};
ghost use Rattle.sha2.specs.Sha256.{sha256};
ghost use Rattle.ac_types.specs.Limits.{most_entries};
ghost use Rattle.ac_types.specs.Partial.{first_wrong, given};
ghost use Rattle.ac_types.specs.ReadTypes.{typ_of};
ghost use Rattle.ac_types.specs.Types.{same};
ghost use Rattle.ac_terms.specs.Bounds.{fits_def, fits_packet};
ghost use Rattle.ac_terms.specs.Defs.{Entry};
ghost use Rattle.ac_terms.specs.Read.{environment_of, packet_of};
ghost use Rattle.ac_rules.specs.Coherent.{IsCoherent};
ghost use Rattle.ac_rules.specs.Modules.{is_well_formed};
ghost use Rattle.ac_rules.specs.Packets.{PacketCause, alone, cause, first_clash, places};
ghost use Rattle.ac_admit_clashes.specs.inner.Known.{all_known};
ghost use Rattle.ac_admit_placing.specs.Placed.{state_of, place_number};
ghost use Rattle.ac_admit.specs.Refusing.{IsFor};
ghost use Rattle.ac_admit.specs.inner.Judging.{front_cause, Judges};
ghost use Rattle.ac_admit.specs.inner.Spoken.{defs_of, is_spoken};

use crate::fault::AdmitFault;
use crate::spoken::speaks_of_its_own;
use ac_admit_clashes::clash;
use ac_admit_formed::{alone, ill_formed};
use ac_admit_placing::{Place, Placing, placed};
use ac_terms::{Env, Packet};
use ac_types::limits::MOST_ENTRIES;
use ac_types::{Ty, same_types};
use std::alloc::Global;

// Nothing where each definition is well formed among them.
fn formed(alloc: Global, own: &Env) -> Result<(), AdmitFault>
    requires entries { length own.now.entries < 2 ^ 32 }
    requires fits { IsTrue (list_all (λ (e : Entry). fits_def e.def) (environment_of own.now)) }
    ensures { Judges result (option_map PacketCause.Definition
        (first_wrong 0 (is_well_formed (environment_of own.now))
        (defs_of (environment_of own.now)))) }
{
    match ill_formed(alloc, own)? {
        None => Ok(()),
        Some(i) => Err(AdmitFault::Definition { i }),
    }
}

// Nothing where no name is known with another text.
fn unclashed(alloc: Global, env: &Env, own: &Env) -> Result<(), AdmitFault>
    requires coherent { IsCoherent (environment_of env.now) }
    requires few { length env.now.entries + length own.now.entries < 2 ^ 32 }
    ensures { Judges result (first_clash sha256 (all_known (environment_of env.now)) 0
        (all_known (environment_of own.now))) }
{
    match clash(alloc, env, own)? {
        None => Ok(()),
        Some((i, j)) => Err(AdmitFault::Clash { i, j }),
    }
}

// Nothing where there is room for the entries that come.
#[tactic(auto, using(crate::proofs::CauseLaws::full, crate::proofs::CauseLaws::room))]
fn has_room(env: &Env, more: usize) -> Result<(), AdmitFault>
    requires { length env.now.entries + more < 2 ^ 32 }
    ensures { let n = length env.now.entries + more in
        Judges result (given (nat_lt most_entries n) (Some (PacketCause.Full n))) }
{
    let count = env.len() + more;
    if count > MOST_ENTRIES {
        return Err(AdmitFault::Full {
            count: count as u32,
        });
    }
    Ok(())
}

fn first_unresolved(places: &[Place]) -> Option<usize>
    ensures { result ≡ position (λ q. q.unresolved) places.now }
{
    places.iter().position(|place| place.unresolved)
}

// Nothing where each import has a link.
fn resolved(places: &[Place]) -> Result<(), AdmitFault>
    requires { length places.now < 2 ^ 32 }
    ensures { Judges result (option_map PacketCause.Unresolved
        (position (λ q. q.unresolved) places.now)) }
{
    match first_unresolved(places) {
        None => Ok(()),
        Some(i) => Err(AdmitFault::Unresolved { i: i as u32 }),
    }
}

// The places of the definitions, where none of the first four causes applies.
fn placing(alloc: Global, env: &Env, p: &Packet, own: &Env) -> Result<Placing, AdmitFault>
    requires coherent { IsCoherent (environment_of env.now) }
    requires fits { IsTrue (fits_packet (packet_of p.now)) }
    requires own { environment_of own.now ≡ alone sha256 (packet_of p.now).defs }
    ensures judged { Judges result (front_cause (environment_of env.now) (packet_of p.now).defs) }
    ensures placed { IfOk result (λ q. state_of (environment_of env.now) q ≡ places sha256
        (environment_of env.now) (packet_of p.now).defs) }
    ensures numbers { IfOk result (λ q. q.numbers ≡ map place_number (places sha256
        (environment_of env.now) (packet_of p.now).defs).1) }
{
    formed(alloc, own)?;
    unclashed(alloc, env, own)?;
    let placing = placed(alloc, env, p.defs.as_slice())?;
    has_room(env, placing.more.len())?;
    resolved(placing.places.as_slice())?;
    Ok(placing)
}

/// The places of a packet's definitions, where none of the causes applies but that the value may
/// not be of the type. An `Err` is the first that applies, or want of memory.
pub fn judged(alloc: Global, env: &Env, p: &Packet, expected: &Ty) -> Result<Placing, AdmitFault>
    requires coherent { IsCoherent (environment_of env.now) }
    requires fits { IsTrue (fits_packet (packet_of p.now)) }
    ensures front { OnOk result (front_cause (environment_of env.now) (packet_of p.now).defs ≡
        None) }
    ensures of_type { OnOk result (same (packet_of p.now).ty (typ_of expected.now) ≡ true) }
    ensures spoken { OnOk result (is_spoken (packet_of p.now) ≡ true) }
    ensures placed { IfOk result (λ q. state_of (environment_of env.now) q ≡ places sha256
        (environment_of env.now) (packet_of p.now).defs) }
    ensures numbers { IfOk result (λ q. q.numbers ≡ map place_number (places sha256
        (environment_of env.now) (packet_of p.now).defs).1) }
    ensures refused { IfErr result (λ f. IsFor f (cause sha256 (environment_of env.now)
        (packet_of p.now) (typ_of expected.now))) }
{
    let own = alone(alloc, p.defs.as_slice())?;
    let placing = placing(alloc, env, p, &own)?;
    if !same_types(&p.ty, expected) {
        drop(placing);
        return Err(AdmitFault::WrongType);
    }
    if !speaks_of_its_own(&own, p) {
        drop(placing);
        return Err(AdmitFault::Value);
    }
    Ok(placing)
}

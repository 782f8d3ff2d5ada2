// Packets are accepted or refused.

ghost use Rattle.std.specs.Prelude.{◌≡◌, ◌++◌, map, is_none, nat_le, IfOk, IfErr, OnOk, OnErr, IsTrue};
ghost use Rattle.std.specs.List.{list_all};
ghost use Rattle.sha2.specs.Sha256.{sha256};
ghost use Rattle.ac_types.specs.Limits.{deepest_nesting};
ghost use Rattle.ac_types.specs.ReadTypes.{typ_of};
ghost use Rattle.ac_terms.specs.Bounds.{fits_packet};
ghost use Rattle.ac_terms.specs.Defs.{Environment, Entry};
ghost use Rattle.ac_terms.specs.Nesting.{value_nesting};
ghost use Rattle.ac_terms.specs.Read.{environment_of, packet_of, value_of};
ghost use Rattle.ac_rules.specs.Coherent.{IsCoherent, mark_of};
ghost use Rattle.ac_rules.specs.Links.{has_arrived};
ghost use Rattle.ac_rules.specs.Packets.{places, cause, Accepts};
ghost use Rattle.ac_rules.specs.RoundTrip.{IsPackable};
ghost use Rattle.ac_rules.specs.Widened.{Widens, IsKept};
ghost use Rattle.ac_admit_placing.specs.Placed.{place_number};
ghost use Rattle.ac_admit.specs.Refusing.{IsFor};

use crate::commit::commit;
use crate::fault::AdmitFault;
use crate::judging::judged;
use ac_check::CheckFault;
use ac_terms::{Env, PVal, Packet};
use ac_terms_renumber::value_renumbered;
use ac_types::{Many, Ty};
use std::alloc::Global;

/// What an accepted packet gives.
#[derive(Drop)]
pub struct Admitted {
    /// The entry of each definition of the packet.
    pub entries: Many<u32>,
    /// The value, whose references and homes are entries.
    pub value: PVal,
}

// The entries and the value of a packet, where no cause applies.
fn take_in(alloc: Global, env: &mut Env, p: &Packet, expected: &Ty) -> Result<Admitted, AdmitFault>
    requires coherent { IsCoherent (environment_of env.old) }
    requires packet { IsTrue (fits_packet (packet_of p.now)) }
    ensures accepted { IfOk result (λ a. Accepts (environment_of env.old) (packet_of p.now)
        (typ_of expected.now) (environment_of env.new) (value_of a.value)) }
    ensures entries { IfOk result (λ a. a.entries ≡ map place_number (places sha256
        (environment_of env.old) (packet_of p.now).defs).1) }
    ensures refused { IfErr result (λ f. IsFor f (cause sha256 (environment_of env.old)
        (packet_of p.now) (typ_of expected.now))) }
    ensures kept { OnErr result (env.new ≡ env.old) }
{
    let placing = judged(alloc, env, p, expected)?;
    let (entries, more) = placing.into_parts();
    let value = value_renumbered(alloc, &p.value, entries.as_slice())?;
    match commit(alloc, env, more, expected, &value) {
        Ok(()) => Ok(Admitted { entries, value }),
        Err(CheckFault::IllTyped) => {
            drop(value);
            Err(AdmitFault::Value)
        }
        Err(CheckFault::Memory) => {
            drop(value);
            Err(AdmitFault::Memory)
        }
    }
}

/// A packet accepted into an environment at the expected type: its definitions become entries, and
/// its value is of the type there. An `Err` is the first cause of refusal that applies, or want of
/// memory, and leaves the environment as it was.
pub fn admit(
    alloc: Global,
    env: &mut Env,
    p: &Packet,
    expected: &Ty,
) -> Result<Admitted, AdmitFault>
    requires coherent { IsCoherent (environment_of env.old) }
    requires packet { IsTrue (fits_packet (packet_of p.now)) }
    ensures accepted { IfOk result (λ a. Accepts (environment_of env.old) (packet_of p.now)
        (typ_of expected.now) (environment_of env.new) (value_of a.value)) }
    ensures entries { IfOk result (λ a. a.entries ≡ map place_number (places sha256
        (environment_of env.old) (packet_of p.now).defs).1) }
    ensures refused { IfErr result (λ f. IsFor f (cause sha256 (environment_of env.old)
        (packet_of p.now) (typ_of expected.now))) }
    ensures kept { OnErr result (env.new ≡ env.old) }
    ensures coherent { OnOk result (IsCoherent (environment_of env.new)) }
    ensures longer { OnOk result ((more : Environment) ×
        (environment_of env.new ≡ environment_of env.old ++ more) ×
        IsTrue (list_all (λ (e : Entry). has_arrived e.seen) more) ×
        IsTrue (list_all (λ (e : Entry). is_none (mark_of e)) more)) }
    ensures packable { IfOk result (λ a. IsPackable (environment_of env.new)
        (typ_of expected.now) (value_of a.value) ×
        IsTrue (nat_le (value_nesting (value_of a.value)) deepest_nesting)) }
    ensures widened { OnOk result ((F : Environment) → Widens (environment_of env.old) F →
        IsCoherent F → IsKept (cause sha256 F (packet_of p.now) (typ_of expected.now))) }
{
    take_in(alloc, env, p, expected)
}

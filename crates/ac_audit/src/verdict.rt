// What a string comes to at a type.

ghost use Rattle.std.specs.Prelude.{◌≡◌, ◌<◌, IfOk, IsTrue, length};
ghost use Rattle.ac_types.specs.ReadTypes.{typ_of};
ghost use Rattle.ac_terms.specs.Bounds.{fits_packet};
ghost use Rattle.ac_terms.specs.Read.{environment_of, packet_of};
ghost use Rattle.ac_rules.specs.Coherent.{IsCoherent};
ghost use Rattle.ac_audit.specs.FrameVerdicts.{HasVerdict, external_name_at, packet_verdict};

use ac_admit::{AdmitFault, admit};
use ac_decode::{DecodeFault, decode};
use ac_terms::{Env, PDef, Packet};
use ac_types::{Memory, Ty, Word};
use std::alloc::Global;

/// What a string comes to at a type: it is accepted, or the first cause that refuses it.
#[derive(Drop)]
pub enum AuditVerdict {
    /// Its packet is accepted.
    Accepted,
    /// It spells no packet.
    Format,
    /// A definition isn't well formed.
    Definition,
    /// A definition has the name of another one with another text.
    Clash,
    /// There would be too many entries.
    Full,
    /// An import has no link: the external name of the first such.
    Unresolved(Word),
    /// The packet is of another type.
    WrongType,
    /// The value isn't of the type.
    Value,
}

/// The verdict of a string at the expected type. The environment keeps the entries that it had, and
/// no more. `Err` for want of memory.
pub fn frame_verdict(
    alloc: Global,
    env: &mut Env,
    frame: &[u8],
    expected: &Ty,
) -> Result<AuditVerdict, Memory>
    requires { IsCoherent (environment_of env.old) }
    ensures verdict { IfOk result (HasVerdict (environment_of env.old) (typ_of expected.now)
        frame.now) }
    ensures same { environment_of env.new ≡ environment_of env.old }
{
    match decode(alloc, frame) {
        Ok(packet) => packet_verdict(alloc, env, &packet, expected),
        Err(DecodeFault::Format { .. }) => Ok(AuditVerdict::Format),
        Err(DecodeFault::Memory) => Err(Memory),
    }
}

/// The verdict of a packet at the expected type. The environment keeps the entries that it had, and
/// no more: what the packet brings is cut off behind them. `Err` for want of memory.
pub fn packet_verdict(
    alloc: Global,
    env: &mut Env,
    p: &Packet,
    expected: &Ty,
) -> Result<AuditVerdict, Memory>
    requires coherent { IsCoherent (environment_of env.old) }
    requires packet { IsTrue (fits_packet (packet_of p.now)) }
    ensures verdict { IfOk result (λ v. v ≡ packet_verdict (environment_of env.old)
        (packet_of p.now) (typ_of expected.now)) }
    ensures same { environment_of env.new ≡ environment_of env.old }
{
    let many = env.len();
    match admit(alloc, env, p, expected) {
        Ok(admitted) => {
            drop(admitted);
            env.cut(many);
            Ok(AuditVerdict::Accepted)
        }
        Err(AdmitFault::Definition { .. }) => Ok(AuditVerdict::Definition),
        Err(AdmitFault::Clash { .. }) => Ok(AuditVerdict::Clash),
        Err(AdmitFault::Full { .. }) => Ok(AuditVerdict::Full),
        Err(AdmitFault::Unresolved { i }) => {
            let name = external_name(alloc, p, i)?;
            Ok(AuditVerdict::Unresolved(name))
        }
        Err(AdmitFault::WrongType) => Ok(AuditVerdict::WrongType),
        Err(AdmitFault::Value) => Ok(AuditVerdict::Value),
        Err(AdmitFault::Memory) => Err(Memory),
    }
}

// The external name of a definition of a packet.
fn external_name(alloc: Global, p: &Packet, i: u32) -> Result<Word, Memory>
    requires { i < length p.now.defs }
    ensures { IfOk result (λ name. name ≡ external_name_at (packet_of p.now).defs i) }
{
    match &p.defs.as_slice()[i as usize] {
        PDef::Module(module) => module.name.copy(alloc),
        PDef::Import(import) => import.name.copy(alloc),
    }
}

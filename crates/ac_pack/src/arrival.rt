// Strings that come.

ghost use Rattle.std.specs.Prelude.{◌≡◌, ◌<◌, ◌≤◌, ◌^◌, IfOk, OnOk, IsTrue, length, drop};
ghost use Rattle.sha2.specs.Sha256.{sha256};
ghost use Rattle.ac_types.specs.ReadTypes.{typ_of};
ghost use Rattle.ac_terms.specs.Bounds.{fits_packet};
ghost use Rattle.ac_terms.specs.PacketReading as reading;
ghost use Rattle.ac_terms.specs.Read.{environment_of, value_of, packet_of};
ghost use Rattle.ac_code.specs.ReadCode.{table_code};
ghost use Rattle.ac_generate.specs.Generated.{entries_generated, value_generated, value_number};
ghost use Rattle.ac_rules.specs.Coherent.{IsCoherent};
ghost use Rattle.ac_rules.specs.Packets.{cause};
ghost use Rattle.ac_meaning.specs.Packing.{admitted, landing};
ghost use Rattle.ac_pack.specs.Crossing.{Enters};
ghost use Rattle.ac_pack.specs.inner.Landed.{HasRead, Landed};

use crate::fault::CrossFault;
use crate::raising::{of_admission, of_format};
use ac_admit::admit;
use ac_code::{CodeId, CodeTable};
use ac_decode::{DecodeFault, decode};
use ac_generate::{generate_entries, generate_value};
use ac_terms::{Env, PVal, Packet};
use ac_types::{Memory, Text, Ty};
use std::alloc::Global;

/// Adds the definitions that a string brings, and their code and that of its value at the type.
/// Gives the block of the value. An `Err` has the exception of why it brings nothing, and then
/// nothing has changed, or tells that memory ran out.
pub fn unmarshal(
    alloc: Global,
    env: &mut Env,
    table: &mut CodeTable,
    text: &Text,
    ty: &Ty,
) -> Result<CodeId, CrossFault>
    requires { IsCoherent (environment_of env.old) }
    ensures { Enters (landing (environment_of env.old) (typ_of ty.now) text.now.0)
        (environment_of env.old) (table_code table.old) (environment_of env.new)
        (table_code table.new) result }
{
    let first = env.len();
    let value = land(alloc, env, text, ty)?;
    Ok(generate_arrived(alloc, env, first, &value, table)?)
}

// Adds the definitions that a string brings. Gives its value at the type.
fn land(alloc: Global, env: &mut Env, text: &Text, ty: &Ty) -> Result<PVal, CrossFault>
    requires { IsCoherent (environment_of env.old) }
    ensures { Landed (landing (environment_of env.old) (typ_of ty.now) text.now.0)
        (environment_of env.old) (environment_of env.new) result }
{
    match read(alloc, text) {
        Ok(packet) => take_in(alloc, env, &packet, ty),
        Err(fault) => Err(fault),
    }
}

// The packet that a string spells.
fn read(alloc: Global, text: &Text) -> Result<Packet, CrossFault>
    ensures { HasRead (reading.packet_of text.now.0) result }
{
    match decode(alloc, text.as_slice()) {
        Ok(packet) => Ok(packet),
        Err(DecodeFault::Format { .. }) => Err(of_format(alloc)),
        Err(DecodeFault::Memory) => Err(CrossFault::Memory),
    }
}

// Adds the definitions of a packet. Gives its value at the type.
fn take_in(alloc: Global, env: &mut Env, packet: &Packet, ty: &Ty) -> Result<PVal, CrossFault>
    requires coherent { IsCoherent (environment_of env.old) }
    requires fits { IsTrue (fits_packet (packet_of packet.now)) }
    ensures { Landed (admitted (environment_of env.old) (packet_of packet.now)
        (cause sha256 (environment_of env.old) (packet_of packet.now) (typ_of ty.now)))
        (environment_of env.old) (environment_of env.new) result }
{
    match admit(alloc, env, packet, ty) {
        Ok(admitted) => Ok(admitted.value),
        Err(fault) => Err(of_admission(alloc, packet, fault)),
    }
}

// Adds the code of the entries from number `first` on and then that of a packed value. Gives the
// block of the value.
fn generate_arrived(
    alloc: Global,
    env: &Env,
    first: usize,
    value: &PVal,
    table: &mut CodeTable,
) -> Result<CodeId, Memory>
    requires few { length env.now.entries < 2 ^ 32 }
    requires within { first ≤ length env.now.entries }
    ensures code { OnOk result (table_code table.new ≡ value_generated (value_of value.now)
        (entries_generated (environment_of env.now) first (drop first (environment_of env.now))
        (table_code table.old))) }
    ensures block { IfOk result (λ id. id.0 ≡ value_number (value_of value.now)
        (entries_generated (environment_of env.now) first (drop first (environment_of env.now))
        (table_code table.old))) }
{
    generate_entries(alloc, env, first, table)?;
    generate_value(alloc, env, value, table)
}

// The spelling of packets.

ghost use Rattle.std.specs.Prelude.{◌≡◌, ◌++◌, map, IfOk, OnOk};
ghost use Rattle.ac_terms.specs.Read.{pdef_of, packet_of, bytes_of};
ghost use Rattle.ac_types.specs.Types.{Bytes};
ghost use Rattle.ac_terms.specs.Spelling.{two_written, listed, def_bytes, packet_bytes};
ghost use Rattle.ac_terms.specs.Bounds.{Spells};

use ac_bytes::Out;
use ac_canon::{
    ByNumber, put_count_u16, put_import, put_module, put_resolves, put_type, put_value,
};
use ac_terms::{PDef, Packet, tags};
use ac_types::{Memory, Text};
use std::alloc::Global;

// A definition.
#[tactic(auto, using(ac_canon::proofs::Lists::lists))]
fn put_def(out: &mut Out, def: &PDef) -> Result<(), Memory>
    ensures { OnOk result (out.new ≡ out.old ++ def_bytes (pdef_of def.now)) }
{
    match def {
        PDef::Module(module) => put_module(out, &ByNumber, module),
        PDef::Import(import) => {
            put_import(out, &ByNumber, import)?;
            put_resolves(out, import.by.as_slice())
        }
    }
}

// The definitions of a packet.
#[tactic(auto, using(ac_canon::proofs::Lists::lists))]
fn put_defs(out: &mut Out, defs: &[PDef]) -> Result<(), Memory>
    ensures { OnOk result (out.new ≡ out.old ++
        listed two_written def_bytes (map pdef_of defs.now)) }
{
    put_count_u16(out, defs.len())?;
    for def in defs {
        put_def(out, def)?;
    }
    Ok(())
}

// The bytes of a packet.
#[tactic(auto, using(ac_canon::proofs::Lists::lists))]
fn bytes_of_packet(alloc: Global, packet: &Packet) -> Result<Text, Memory>
    ensures { IfOk result (λ text. bytes_of text ≡ packet_bytes (packet_of packet.now)) }
{
    let mut out = Out::new(alloc);
    out.put_u32(tags::PACKET_MARK)?;
    out.put_u8(tags::PACKET_IN_FULL)?;
    put_defs(&mut out, packet.defs.as_slice())?;
    put_type(&mut out, &packet.ty)?;
    put_value(&mut out, &ByNumber, &packet.value)?;
    Ok(out.into_text())
}

/// The bytes that spell the packet, which asks that some do. They are read as it again.
pub fn encode(alloc: Global, packet: &Packet) -> Result<Text, Memory>
    requires { (bytes : Bytes) × Spells bytes (packet_of packet.now) }
    ensures { IfOk result (λ text. Spells (bytes_of text) (packet_of packet.now)) }
{
    bytes_of_packet(alloc, packet)
}

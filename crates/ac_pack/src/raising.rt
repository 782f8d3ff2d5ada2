// The exceptions of faults.

ghost use Rattle.std.specs.Prelude.{◌≡◌, [], Some, MatchOption, codes, option_map, unwrap_or, slice_get};
ghost use Rattle.ac_types.specs.ReadNumbers.{texted_number};
ghost use Rattle.ac_terms.specs.Read.{packet_of};
ghost use Rattle.ac_meaning.specs.Worlds.{exception};
ghost use Rattle.ac_meaning.specs.Packing.{of_fault, of_cause, import_name, unmarshal_failure_exn};
ghost use Rattle.ac_pack.specs.inner.Landed.{IsRaised, fault_told, cause_told};

use crate::fault::CrossFault;
use crate::packing::PackFault;
use ac_admit::AdmitFault;
use ac_terms::{PDef, Packet};
use ac_types::{Exn, Text, TextExn};
use std::alloc::Global;

/// The exception of why a value is not packed.
pub fn of_packing(alloc: Global, fault: PackFault) -> CrossFault
    ensures { MatchOption (fault_told fault) (result ≡ CrossFault.Memory)
        (λ f. IsRaised (of_fault f) result) }
{
    match fault {
        PackFault::Mark => raise(alloc, TextExn::MarshalFailure, b"mark"),
        PackFault::Function => raise(alloc, TextExn::MarshalFailure, b"function"),
        PackFault::Depth => raise(alloc, TextExn::MarshalFailure, b"depth"),
        PackFault::Size => raise(alloc, TextExn::MarshalFailure, b"size"),
        PackFault::Memory => CrossFault::Memory,
    }
}

/// The exception of a string that spells no packet.
pub fn of_format(alloc: Global) -> CrossFault
    ensures { IsRaised (unmarshal_failure_exn (codes "format")) result }
{
    raise(alloc, TextExn::UnmarshalFailure, b"format")
}

/// The exception of why a packet is refused.
pub fn of_admission(alloc: Global, packet: &Packet, fault: AdmitFault) -> CrossFault
    ensures { MatchOption (cause_told fault) (result ≡ CrossFault.Memory)
        (λ c. IsRaised (of_cause (packet_of packet.now).defs c) result) }
{
    match fault {
        AdmitFault::Definition { .. } => raise(alloc, TextExn::UnmarshalFailure, b"definition"),
        AdmitFault::Clash { .. } => raise(alloc, TextExn::UnmarshalFailure, b"clash"),
        AdmitFault::Full { .. } => raise(alloc, TextExn::UnmarshalFailure, b"full"),
        AdmitFault::Unresolved { i } => raise(alloc, TextExn::ResolveFailure, imported(packet, i)),
        AdmitFault::WrongType => raise(alloc, TextExn::UnmarshalFailure, b"type"),
        AdmitFault::Value => raise(alloc, TextExn::UnmarshalFailure, b"value"),
        AdmitFault::Memory => CrossFault::Memory,
    }
}

// The external name of import `i` of a packet, or nothing.
fn imported(packet: &Packet, i: u32) -> &[u8]
    ensures { result.now ≡ unwrap_or
        (option_map import_name (slice_get (packet_of packet.now).defs i)) [] }
{
    match packet.defs.get(i as usize) {
        Some(PDef::Import(import)) => import.name.text().as_slice(),
        _ => b"",
    }
}

// An exception with a text.
fn raise(alloc: Global, exn: TextExn, why: &[u8]) -> CrossFault
    ensures { IsRaised (exception (texted_number exn) (Some why.now)) result }
{
    match Text::from_slice(alloc, why) {
        Ok(text) => CrossFault::Raise(Exn::Text(exn, text)),
        Err(_) => CrossFault::Memory,
    }
}

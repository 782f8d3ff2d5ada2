// Environments and packets, from texts and bytes. Want of memory ends the test.

ghost use Rattle.std.specs.Prelude.{IsTrue};
ghost use Rattle.ac_terms.specs.Bounds.{fits_packet};
ghost use Rattle.ac_terms.specs.Read.{environment_of, packet_of};
ghost use Rattle.ac_rules.specs.Coherent.{IsCoherent};

use ac_admit::{AdmitFault, Admitted, admit};
use ac_decode::decode;
use ac_load::{Shelf, load};
use ac_rules::Loaded;
use ac_terms::{Env, Packet};
use ac_types::Ty;
use std::alloc::Global;
use std::process::Abort;

/// A program without definitions.
pub const NOTHING: &[u8] = b"()";

/// A program with the module `M1` of version 2, whose int `y` is 7.
pub const OWN_M1: &[u8] =
    b"module M1 : sig val y : int end version 2 = struct val y : int = 7 end ()";

/// The packet of a function of `M1`, imported, and of `M2`.
pub const PAIR: &[u8] =
    b"ACUP\x01\x00\x02\x02\x02M1\x00\x00\x00\x01\x01y\x01\x01\x00\x01\x00\x00\x01\x02\x01\x02M2\x01\x02\x00\x00\x00\x01\x01z\x01\x00\x00\x00\x01\x01z\x01\x01\x00\x00\x00\x00\x00\x00\x00\x03\x09\x04\x06\x02\x01\x01\x0A\x00\x00\x0E\x04\x06\x02\x0D\x00\x00\x01y\x0D\x00\x01\x01z";

/// A packet that brings `M1` of version 3, with the int 5.
pub const BRINGS_M1: &[u8] =
    b"ACUP\x01\x00\x01\x01\x02M1\x01\x01\x00\x00\x00\x03\x00\x00\x00\x01\x01y\x01\x00\x00\x00\x01\x01y\x01\x01\x00\x00\x00\x00\x00\x00\x00\x09\x01\x01\x00\x00\x00\x00\x00\x00\x00\x05";

/// The packet of the int 5.
pub const FIVE: &[u8] = b"ACUP\x01\x00\x00\x01\x01\x00\x00\x00\x00\x00\x00\x00\x05";

/// The type that a packet is asked at.
#[derive(Clone, Copy)]
pub enum Asked {
    /// Its own.
    Own,
    Int,
    Bool,
    Unit,
}

/// What is to come of a packet.
#[derive(Clone, Copy)]
pub enum Want {
    /// Its definitions become these entries, each with its link.
    Entries(&'static [(u32, Option<u32>)]),
    /// It is accepted.
    Accepted,
    /// It is refused.
    Refused(AdmitFault),
}

/// A packet, the type that it is asked at, what is to come of it, and the number of entries then.
pub type Row = (&'static [u8], Asked, Want, usize);

/// The definitions of a program.
pub fn own(rt: &impl Abort, alloc: Global, text: &[u8]) -> Env
    ensures { IsCoherent (environment_of result) }
{
    let Loaded { env, main, ty } = load(alloc, text, &Shelf::empty(alloc)).expect(rt, "a program");
    drop(main);
    drop(ty);
    env
}

// The packet that the bytes spell.
fn packet(rt: &impl Abort, alloc: Global, bytes: &[u8]) -> Packet
    ensures { IsTrue (fits_packet (packet_of result)) }
{
    decode(alloc, bytes).expect(rt, "a packet")
}

fn type_of(rt: &impl Abort, alloc: Global, packet: &Packet, asked: Asked) -> Ty {
    match asked {
        Asked::Own => packet.ty.copy(alloc).expect(rt, "memory"),
        Asked::Int => Ty::Int,
        Asked::Bool => Ty::Bool,
        Asked::Unit => Ty::Unit,
    }
}

fn admitted(
    rt: &impl Abort,
    alloc: Global,
    env: &mut Env,
    bytes: &[u8],
    asked: Asked,
) -> Result<Admitted, AdmitFault>
    requires { IsCoherent (environment_of env.old) }
    ensures { IsCoherent (environment_of env.new) }
{
    let packet = packet(rt, alloc, bytes);
    let ty = type_of(rt, alloc, &packet, asked);
    let admitted = admit(alloc, env, &packet, &ty);
    drop(packet);
    drop(ty);
    admitted
}

fn is_entry(env: &Env, number: u32, (wanted, link): (u32, Option<u32>)) -> bool {
    match env.entry(number) {
        Some(entry) => number == wanted && entry.link == link,
        None => false,
    }
}

fn are_entries(env: &Env, numbers: &[u32], wanted: &[(u32, Option<u32>)]) -> bool {
    for (number, entry) in numbers.iter().zip(wanted) {
        if !is_entry(env, *number, *entry) {
            return false;
        }
    }
    numbers.len() == wanted.len()
}

fn is_wanted(env: &Env, found: &Result<Admitted, AdmitFault>, want: Want) -> bool {
    match (found, want) {
        (Ok(it), Want::Entries(wanted)) => are_entries(env, it.entries.as_slice(), wanted),
        (Ok(_), Want::Accepted) => true,
        (Err(fault), Want::Refused(wanted)) => *fault == wanted,
        _ => false,
    }
}

/// Checks what comes of a packet, and how many entries there are then.
pub fn check(
    rt: &impl Abort,
    alloc: Global,
    env: &mut Env,
    bytes: &[u8],
    asked: Asked,
    want: Want,
    many: usize,
)
    requires { IsCoherent (environment_of env.old) }
    ensures { IsCoherent (environment_of env.new) }
{
    let found = admitted(rt, alloc, env, bytes, asked);
    let holds = is_wanted(env, &found, want);
    drop(found);
    assert!(rt; holds);
    assert!(rt; env.len() == many);
}

/// Checks what comes of packets, one after the other.
pub fn check_all(rt: &impl Abort, alloc: Global, program: &[u8], rows: &[Row]) {
    let mut env = own(rt, alloc, program);
    for row in rows {
        let (bytes, asked, want, many) = *row;
        check(rt, alloc, &mut env, bytes, asked, want, many);
    }
    drop(env);
}

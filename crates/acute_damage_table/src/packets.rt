// Strings that a program takes in as packets.

ghost use Rattle.std.specs.Prelude.{IfOk, IfSome, IsTrue};
ghost use Rattle.ac_terms.specs.Bounds.{fits_packet};
ghost use Rattle.ac_terms.specs.Read.{environment_of, packet_of};
ghost use Rattle.ac_rules.specs.Coherent.{IsCoherent};

use crate::Subject;
use crate::entries::written;
use ac_admit::{AdmitFault, admit};
use ac_decode::{DecodeFault, decode, encode};
use ac_load::{Kind, Shelf, load};
use ac_rules::Loaded;
use ac_terms::{Env, Packet};
use ac_text::Page;
use ac_types::{Memory, Text, Ty};
use std::alloc::Global;

/// What comes of each string where the receiver of a packet takes it in at the packet's type. No
/// answer comes where the packet is none, or its receiver is refused.
pub fn taken_in(alloc: Global, subject: &Subject, strings: &[Text]) -> Result<Vec<Text>, Memory> {
    let mut answers = Vec::new(alloc);
    let Some(env) = definitions(alloc, subject.receiver.as_slice())? else {
        return Ok(answers);
    };
    let Some(packet) = packet_in(alloc, subject.packet.as_slice())? else {
        return Ok(answers);
    };
    for string in strings {
        answers.push(answer(alloc, &env, &packet.ty, string.as_slice())?)?;
    }
    Ok(answers)
}

// The definitions of a program, if it isn't refused.
fn definitions(alloc: Global, text: &[u8]) -> Result<Option<Env>, Memory>
    ensures { IfOk result (λ o. IfSome o (λ env. IsCoherent (environment_of env))) }
{
    match load(alloc, text, &Shelf::empty(alloc)) {
        Ok(Loaded { env, main, ty }) => {
            drop(main);
            drop(ty);
            Ok(Some(env))
        }
        Err(refusal) if refusal.kind == Kind::Memory => Err(Memory),
        Err(_) => Ok(None),
    }
}

// The packet that bytes spell, if they spell one.
fn packet_in(alloc: Global, bytes: &[u8]) -> Result<Option<Packet>, Memory> {
    match decode(alloc, bytes) {
        Ok(packet) => Ok(Some(packet)),
        Err(DecodeFault::Format { at: _ }) => Ok(None),
        Err(DecodeFault::Memory) => Err(Memory),
    }
}

fn answer(alloc: Global, env: &Env, expected: &Ty, bytes: &[u8]) -> Result<Text, Memory>
    requires { IsCoherent (environment_of env.now) }
{
    let packet = match decode(alloc, bytes) {
        Ok(packet) => packet,
        Err(DecodeFault::Format { at: _ }) => return Text::from_slice(alloc, b"format"),
        Err(DecodeFault::Memory) => return Err(Memory),
    };
    let mut page = Page::new(alloc);
    put_taken(alloc, &mut page, env, expected, &packet)?;
    if encode(alloc, &packet)?.as_slice() != bytes {
        page.put(b" and otherwise spelled");
    }
    text_on(alloc, &page)
}

fn text_on(alloc: Global, page: &Page) -> Result<Text, Memory> {
    match page.bytes() {
        Some(bytes) => Text::from_slice(alloc, bytes),
        None => Err(Memory),
    }
}

// Takes a packet in among these definitions.
fn put_taken(
    alloc: Global,
    page: &mut Page,
    env: &Env,
    expected: &Ty,
    packet: &Packet,
) -> Result<(), Memory>
    requires coherent { IsCoherent (environment_of env.now) }
    requires packet { IsTrue (fits_packet (packet_of packet.now)) }
{
    let mut env = env.copy(alloc)?;
    let before = written(alloc, &env);
    match admit(alloc, &mut env, packet, expected) {
        Ok(_) => page.put(b"accepted"),
        Err(AdmitFault::Memory) => return Err(Memory),
        Err(fault) => {
            put_fault(page, fault);
            if written(alloc, &env).bytes() != before.bytes() {
                page.put(b" and left entries");
            }
        }
    }
    Ok(())
}

fn put_fault(page: &mut Page, fault: AdmitFault) {
    match fault {
        AdmitFault::Definition { i } => put_numbered(page, b"definition ", i),
        AdmitFault::Clash { i, j: _ } => put_numbered(page, b"clash ", i),
        AdmitFault::Full { count } => put_numbered(page, b"full ", count),
        AdmitFault::Unresolved { i } => put_numbered(page, b"unresolved ", i),
        AdmitFault::WrongType => page.put(b"type"),
        AdmitFault::Value => page.put(b"value"),
        AdmitFault::Memory => page.lose(),
    }
}

fn put_numbered(page: &mut Page, cause: &[u8], number: u32) {
    page.put(cause);
    page.number(u64::from(number));
}

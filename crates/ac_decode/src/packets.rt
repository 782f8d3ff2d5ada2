// Packets.

ghost use Rattle.std.specs.Prelude.{◌≡◌, ℕ, [], IfOk};
ghost use Rattle.ac_terms.specs.Read.{packet_of};
ghost use Rattle.ac_terms.specs.Bounds.{Spells};
ghost use Rattle.ac_types.specs.Types.{Bytes};
ghost use Rattle.ac_decode_pieces.specs.ExactTypes.{exact_type};
ghost use Rattle.ac_decode_pieces.specs.Readers.{ReadsAs};
ghost use Rattle.ac_decode.specs.inner.ExactPackets.{exact_mark, exact_first, exact_packet};
ghost use Rattle.ac_decode.specs.inner.Ends.{to_the_end};
ghost use Rattle.ac_decode.specs.Decoding.{OnFormat};

use crate::defs::defs;
use crate::terms::value;
use ac_bytes::Cursor;
use ac_decode_pieces::{InFull, PieceFault, Types, joined, take_byte, take_four};
use ac_terms::{Packet, tags};
use ac_types::Memory;
use ac_types::limits::{DEEPEST_NESTING, LONGEST_PACKET};
use std::alloc::Global;

/// Why bytes are not read as a packet.
#[derive(Clone, Copy, Debug, PartialEq, Eq)]
pub enum DecodeFault {
    /// The bytes spell no packet.
    Format {
        /// The first byte of the first piece that doesn't fit, or the end.
        at: u32,
    },
    /// Memory ran out.
    Memory,
}

// What a packet begins with.
#[tactic(auto, unfolding(crate::specs::inner::ExactPackets::exact_mark))]
fn mark(cursor: &mut Cursor<'_>) -> Result<u32, PieceFault>
    ensures { ReadsAs (λ (n : ℕ). n) result (exact_mark cursor.old.left) cursor.new.left }
{
    let at = cursor.place();
    let n = take_four(cursor)?;
    if n != tags::PACKET_MARK {
        return Err(PieceFault::Misfit { at });
    }
    Ok(n)
}

// The version behind it.
#[tactic(auto, unfolding(crate::specs::inner::ExactPackets::exact_first))]
fn first(cursor: &mut Cursor<'_>) -> Result<u8, PieceFault>
    ensures { ReadsAs (λ (n : ℕ). n) result (exact_first cursor.old.left) cursor.new.left }
{
    let at = cursor.place();
    let n = take_byte(cursor)?;
    if n != tags::PACKET_IN_FULL {
        return Err(PieceFault::Misfit { at });
    }
    Ok(n)
}

// A packet.
#[tactic(auto, unfolding(crate::specs::inner::ExactPackets::exact_packet))]
fn packet<T: Types>(alloc: Global, cursor: &mut Cursor<'_>, types: &T) -> Result<Packet, PieceFault>
    ensures { ReadsAs packet_of result (exact_packet (T.reads_type types.now) cursor.old.left)
        cursor.new.left }
{
    let _mark = mark(cursor)?;
    let _version = first(cursor)?;
    let defs = defs(alloc, cursor, types)?;
    let front = joined(defs, types.read_type(alloc, cursor, false))?;
    let ((defs, ty), value) = joined(front, value(alloc, cursor, types, DEEPEST_NESTING))?;
    Ok(Packet { defs, ty, value })
}

// The packet, where nothing is left behind it.
fn whole(alloc: Global, bytes: &[u8]) -> Result<Packet, PieceFault>
    ensures { ReadsAs packet_of result (to_the_end (exact_packet exact_type) bytes.now) [] }
{
    let mut cursor = Cursor::new(bytes);
    let packet = packet(alloc, &mut cursor, &InFull)?;
    if !cursor.at_end() {
        let at = cursor.place();
        drop(packet);
        return Err(PieceFault::Misfit { at });
    }
    Ok(packet)
}

/// The packet that the bytes spell. `Format` exactly where they spell none.
pub fn decode(alloc: Global, bytes: &[u8]) -> Result<Packet, DecodeFault>
    ensures packet { IfOk result (λ p. Spells bytes.now (packet_of p)) }
    ensures format { OnFormat result ((p : _) → Spells bytes.now p → ⊥) }
{
    if bytes.len() > LONGEST_PACKET {
        return Err(DecodeFault::Format {
            at: LONGEST_PACKET as u32,
        });
    }
    match whole(alloc, bytes) {
        Ok(packet) => Ok(packet),
        Err(PieceFault::Misfit { at }) => Err(DecodeFault::Format { at: place(at) }),
        Err(PieceFault::Short) => Err(DecodeFault::Format {
            at: place(bytes.len()),
        }),
        Err(PieceFault::Memory) => Err(DecodeFault::Memory),
    }
}

// A place in bytes, of which there are fewer than 2^32.
fn place(at: usize) -> u32 {
    u32::try_from(at).unwrap_or(u32::MAX)
}

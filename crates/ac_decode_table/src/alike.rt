// Bytes read as a packet, and others that are nearly the same.

use ac_decode::{DecodeFault, decode, encode};
use ac_terms::Packet;
use ac_text::Page;
use ac_types::{Memory, Text};
use std::alloc::Global;

/// The packet that bytes spell, and whether it is spelled as just these bytes again.
pub fn read_again(alloc: Global, bytes: &[u8]) -> Result<(Packet, bool), DecodeFault> {
    let packet = decode(alloc, bytes)?;
    match encode(alloc, &packet) {
        Err(Memory) => Err(DecodeFault::Memory),
        Ok(text) => {
            let same = text.as_slice() == bytes;
            Ok((packet, same))
        }
    }
}

// How many strings spell packets.
#[derive(Clone, Copy, Default)]
struct Tally {
    // No packet, with the end as the place, and with another.
    ended: u64,
    misfit: u64,
    // A packet that is spelled as just these bytes, and otherwise.
    same: u64,
    other: u64,
}

fn counted(count: &mut u64) {
    *count = count.saturating_add(1);
}

impl Tally {
    fn add(&mut self, alloc: Global, bytes: &[u8]) -> Result<(), Memory> {
        match read_again(alloc, bytes) {
            Err(DecodeFault::Format { at }) => {
                if at as usize == bytes.len() {
                    counted(&mut self.ended);
                } else {
                    counted(&mut self.misfit);
                }
            }
            Err(DecodeFault::Memory) => return Err(Memory),
            Ok((_, true)) => counted(&mut self.same),
            Ok((_, false)) => counted(&mut self.other),
        }
        Ok(())
    }

    fn write(&self, page: &mut Page) {
        page.put(b" ");
        page.number(self.ended.saturating_add(self.misfit));
        page.put(b" no packet, ");
        page.number(self.ended);
        page.put(b" of them at their end, ");
        page.number(self.same);
        page.put(b" as they stand, ");
        page.number(self.other);
        page.put(b" otherwise");
    }
}

/// Adds what the proper prefixes of bytes are, the empty one among them.
pub fn write_prefixes(alloc: Global, page: &mut Page, bytes: &[u8]) -> Result<(), Memory> {
    let mut tally = Tally::default();
    for length in 0..bytes.len() {
        tally.add(alloc, &bytes[..length])?;
    }
    tally.write(page);
    Ok(())
}

/// Adds what these bytes are where one of them is another, at each place each of the 255 others.
pub fn write_changes(alloc: Global, page: &mut Page, bytes: &[u8]) -> Result<(), Memory> {
    let mut tally = Tally::default();
    for at in 0..bytes.len() {
        for byte in 0..=255u8 {
            if byte != bytes[at] {
                let mut text = Text::from_slice(alloc, &bytes[..at])?;
                text.extend(&[byte])?;
                text.extend(&bytes[at + 1..])?;
                tally.add(alloc, text.as_slice())?;
            }
        }
    }
    tally.write(page);
    Ok(())
}

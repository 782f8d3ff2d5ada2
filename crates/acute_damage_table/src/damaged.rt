// Strings that are a packet but for some damage.

ghost use Rattle.std.specs.Prelude.{◌<◌, length};

use ac_types::{Memory, Text};
use std::alloc::Global;

/// The proper fronts of a packet, the empty one among them.
pub fn fronts(alloc: Global, packet: &[u8]) -> Result<Vec<Text>, Memory> {
    let mut all = Vec::new(alloc);
    for length in 0..packet.len() {
        all.push(Text::from_slice(alloc, &packet[..length])?)?;
    }
    Ok(all)
}

/// The packet with each byte at one place, its own among them.
pub fn changes(alloc: Global, packet: &[u8], at: usize) -> Result<Vec<Text>, Memory>
    requires { at < length packet.now }
{
    let mut all = Vec::new(alloc);
    for byte in 0..=255u8 {
        let mut text = Text::from_slice(alloc, &packet[..at])?;
        text.extend(&[byte])?;
        text.extend(&packet[at + 1..])?;
        all.push(text)?;
    }
    Ok(all)
}

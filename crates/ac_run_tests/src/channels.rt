// Channels that are read whole, at their limits.

use ac_channels::{ChannelFault, read_channel};
use ac_outside::SureSource;
use ac_types::Text;
use std::alloc::Global;
use std::process::Abort;

// How many frames a channel of these bytes has.
fn count(alloc: Global, bytes: Text) -> Result<usize, ChannelFault> {
    let texts = read_channel(alloc, &mut SureSource::new(bytes))?;
    Ok(texts.len())
}

// So many frames of no bytes.
fn empty_frames(rt: &impl Abort, alloc: Global, many: u32) -> Text {
    let mut bytes = Text::new(alloc);
    for _ in 0..many {
        bytes.extend(&[0; 4]).expect(rt, "memory");
    }
    bytes
}

#[test]
fn frame_4097_is_refused(rt: HostRuntime) {
    let alloc = rt.alloc();
    let whole = count(alloc, empty_frames(&rt, alloc, 4096));
    let longer = count(alloc, empty_frames(&rt, alloc, 4097));
    assert!(rt; matches!(whole, Ok(4096)));
    assert!(rt; matches!(longer, Err(ChannelFault::BadFrame(4097))));
}

// 64 frames, 67,108,864 bytes in all.
fn long_frames(rt: &impl Abort, alloc: Global) -> Text {
    let mut bytes = Text::new(alloc);
    let zeros = [0u8; 1024];
    let mut first = zeros;
    first[1] = 0x0F;
    first[2] = 0xFF;
    first[3] = 0xFC;
    for _ in 0..64 {
        bytes.extend(&first).expect(rt, "memory");
        for _ in 0..1023 {
            bytes.extend(&zeros).expect(rt, "memory");
        }
    }
    bytes
}

#[test]
fn frame_behind_67108864_bytes_is_refused(rt: HostRuntime) {
    let alloc = rt.alloc();
    let whole = count(alloc, long_frames(&rt, alloc));
    let mut bytes = long_frames(&rt, alloc);
    bytes.extend(&[0; 4]).expect(&rt, "memory");
    let longer = count(alloc, bytes);
    assert!(rt; matches!(whole, Ok(64)));
    assert!(rt; matches!(longer, Err(ChannelFault::BadFrame(65))));
}

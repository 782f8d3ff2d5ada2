// Bytes taken from a place on.
ghost use Rattle.std.specs.Prelude.{◌≡◌, ◌≢◌, ◌<◌, ◌≤◌, ◌+◌, length, drop};
ghost use Rattle.ac_outside.specs.Outside.{IsWithin, Takes, EndsBy};

use crate::traits::Got;

/// Copies to the buffer what stands from a place on, as far as there is room.
pub fn take_from(bytes: &[u8], from: u64, buf: &mut [u8]) -> Got
    requires { 0 < length buf.old }
    ensures bound { IsWithin result (length buf.new) }
    ensures takes { Takes result (drop from bytes.now) buf.new }
    ensures within { EndsBy result from (length bytes.now) }
    ensures reads { result ≢ Got.Failed }
{
    let len = bytes.len() as u64;
    if from >= len {
        return Got::End;
    }
    let left = &bytes[from as usize..];
    let count = left.len().min(buf.len());
    buf[..count].copy_from_slice(&left[..count]);
    Got::Bytes(count)
}

// Numbers at the front of bytes.

ghost use Rattle.std.specs.Prelude.{◌≡◌, ◌<◌, ◌++◌, length, take, MatchOption};
ghost use Rattle.ac_bytes.specs.Numbers.{number, two, four, eight};

use ac_types::Name;
use byteorder::{BigEndian, ByteOrder};

/// The number of two bytes in front, and what is behind it.
pub(crate) fn u16_in_front(bytes: &[u8]) -> Option<(u16, &[u8])>
    ensures { MatchOption result (length bytes.now < 2) (λ p. bytes.now ≡ two p.0 ++ p.1.now) }
{
    if bytes.len() < 2 {
        return None;
    }
    let (_, rest) = bytes.split_at(2);
    Some((BigEndian::read_u16(bytes), rest))
}

/// The number of four bytes in front, and what is behind it.
pub(crate) fn u32_in_front(bytes: &[u8]) -> Option<(u32, &[u8])>
    ensures { MatchOption result (length bytes.now < 4)
        (λ p. (bytes.now ≡ four p.0 ++ p.1.now) × (p.0 ≡ number (take 4 bytes.now))) }
{
    if bytes.len() < 4 {
        return None;
    }
    let (_, rest) = bytes.split_at(4);
    Some((BigEndian::read_u32(bytes), rest))
}

/// The signed number of eight bytes in front, and what is behind it.
pub(crate) fn i64_in_front(bytes: &[u8]) -> Option<(i64, &[u8])>
    ensures { MatchOption result (length bytes.now < 8) (λ p. bytes.now ≡ eight p.0 ++ p.1.now) }
{
    if bytes.len() < 8 {
        return None;
    }
    let (_, rest) = bytes.split_at(8);
    Some((BigEndian::read_i64(bytes), rest))
}

/// The name of 32 bytes in front, and what is behind it.
pub(crate) fn name_in_front(bytes: &[u8]) -> Option<(Name, &[u8])>
    ensures { MatchOption result (length bytes.now < 32)
        (λ p. (length p.0.0 ≡ 32) × (bytes.now ≡ p.0.0 ++ p.1.now)) }
{
    let (name, rest) = bytes.split_first_chunk::<32>()?;
    Some((Name(*name), rest))
}

// Reading from the front of bytes.

ghost use Rattle.std.specs.Prelude.{◌≡◌, ◌<◌, ◌≤◌, ◌↔◌, ◌⊎◌, ◌++◌, ◌∷◌, [], length, take, IsTrue, MatchOption};
ghost use Rattle.ac_bytes.specs.Cursors.{TakesBytes};
ghost use Rattle.ac_bytes.specs.Numbers.{number, two, four, eight};

use crate::numbers::{i64_in_front, name_in_front, u16_in_front, u32_in_front};
use ac_types::Name;
use std::marker::Model;

/// A place in bytes, which contracts see as the bytes that are left and the number of those taken.
///
/// `None` leaves it in place.
#[derive(Drop)]
pub struct Cursor<'a> {
    left: &'a [u8],
    taken: usize,
}

impl<'a> Model for Cursor<'a> {
    ghost use Rattle.std.specs.Prelude.{◌+◌, ◌<◌, ◌^◌, length};
    ghost use Rattle.ac_bytes.specs.Cursors.{Unread};

    ghost Value = { Unread };

    ghost view = { λ c. record { left = c.left.now; taken = c.taken } };

    ghost invariant = { λ c. c.taken + length c.left.now < 2 ^ 64 };
}

impl<'a> Cursor<'a> {
    /// The place in front of the bytes.
    pub fn new(bytes: &'a [u8]) -> Cursor<'a>
        ensures { result ≡ record { left = bytes.now; taken = 0 } }
    {
        Cursor {
            left: bytes,
            taken: 0,
        }
    }

    /// The next byte, `None` exactly where none is left.
    pub fn take_u8(&mut self) -> Option<u8>
        ensures { MatchOption result ((length self.old.left < 1) × (self.new ≡ self.old))
            (λ n. TakesBytes self.old (n ∷ []) self.new) }
    {
        let (first, rest) = self.left.split_first()?;
        let n = *first;
        self.left = rest;
        self.taken += 1;
        Some(n)
    }

    /// The number in the next two bytes, `None` exactly where fewer are left.
    pub fn take_u16(&mut self) -> Option<u16>
        ensures { MatchOption result ((length self.old.left < 2) × (self.new ≡ self.old))
            (λ n. TakesBytes self.old (two n) self.new) }
    {
        let (n, rest) = u16_in_front(self.left)?;
        self.left = rest;
        self.taken += 2;
        Some(n)
    }

    /// The number in the next four bytes, `None` exactly where fewer are left.
    pub fn take_u32(&mut self) -> Option<u32>
        ensures { MatchOption result ((length self.old.left < 4) × (self.new ≡ self.old))
            (λ n. TakesBytes self.old (four n) self.new) }
    {
        let (n, rest) = u32_in_front(self.left)?;
        self.left = rest;
        self.taken += 4;
        Some(n)
    }

    /// The signed number in the next eight bytes, `None` exactly where fewer are left.
    pub fn take_i64(&mut self) -> Option<i64>
        ensures { MatchOption result ((length self.old.left < 8) × (self.new ≡ self.old))
            (λ z. TakesBytes self.old (eight z) self.new) }
    {
        let (z, rest) = i64_in_front(self.left)?;
        self.left = rest;
        self.taken += 8;
        Some(z)
    }

    /// The name in the next 32 bytes, `None` exactly where fewer are left.
    pub fn take_name(&mut self) -> Option<Name>
        ensures { MatchOption result ((length self.old.left < 32) × (self.new ≡ self.old))
            (λ name. (length name.0 ≡ 32) × TakesBytes self.old name.0 self.new) }
    {
        let (name, rest) = name_in_front(self.left)?;
        self.left = rest;
        self.taken += 32;
        Some(name)
    }

    /// The next bytes, that many, `None` exactly where fewer are left.
    pub fn take_bytes(&mut self, count: u32) -> Option<&'a [u8]>
        ensures { MatchOption result ((length self.old.left < count) × (self.new ≡ self.old))
            (λ bytes. (length bytes.now ≡ count) × TakesBytes self.old bytes.now self.new) }
    {
        let count = count as usize;
        if self.left.len() < count {
            return None;
        }
        let (bytes, rest) = self.left.split_at(count);
        self.left = rest;
        self.taken += count;
        Some(bytes)
    }

    /// The number in the next four bytes, `None` exactly where fewer are left or where it is above
    /// `max`.
    pub fn counted(&mut self, max: u32) -> Option<u32>
        ensures { MatchOption result
            (((length self.old.left < 4) ⊎ (max < number (take 4 self.old.left))) ×
            (self.new ≡ self.old))
            (λ n. (n ≤ max) × TakesBytes self.old (four n) self.new) }
    {
        let (n, rest) = u32_in_front(self.left)?;
        if n > max {
            return None;
        }
        self.left = rest;
        self.taken += 4;
        Some(n)
    }

    /// Whether no byte is left.
    pub fn at_end(&self) -> bool
        ensures { IsTrue result ↔ (self.now.left ≡ []) }
    {
        self.left.is_empty()
    }

    /// The number of bytes taken.
    pub fn place(&self) -> usize
        ensures { result ≡ self.now.taken }
    {
        self.taken
    }
}

// Putting bytes at the end.

ghost use Rattle.std.specs.Prelude.{◌≡◌, ◌++◌, ◌∷◌, [], OnOk, OnErr};
ghost use Rattle.ac_bytes.specs.Numbers.{two, four, eight};

use ac_types::{Memory, Text};
use byteorder::{BigEndian, ByteOrder};
use std::alloc::Global;
use std::marker::Model;

/// A byte string that grows, which contracts see as its bytes. An `Err` leaves it as it was.
pub struct Out {
    text: Text,
}

impl Drop for Out {
    fn drop(self) {
        let Out { text: _ } = self;
    }
}

impl Model for Out {
    ghost use Rattle.std.specs.Prelude.{List, ℕ};

    ghost Value = { List ℕ };

    ghost view = { λ out. out.text.0 };
}

impl Out {
    /// The empty string, which takes no memory.
    pub fn new(alloc: Global) -> Out
        ensures { result ≡ [] }
    {
        Out {
            text: Text::new(alloc),
        }
    }

    /// Adds a byte.
    pub fn put_u8(&mut self, n: u8) -> Result<(), Memory>
        ensures ok { OnOk result (self.new ≡ self.old ++ n ∷ []) }
        ensures err { OnErr result (self.new ≡ self.old) }
    {
        self.text.extend(&[n])
    }

    /// Adds the two bytes of a number.
    pub fn put_u16(&mut self, n: u16) -> Result<(), Memory>
        ensures ok { OnOk result (self.new ≡ self.old ++ two n) }
        ensures err { OnErr result (self.new ≡ self.old) }
    {
        let mut bytes = [0; 2];
        BigEndian::write_u16(&mut bytes, n);
        self.text.extend(&bytes)
    }

    /// Adds the four bytes of a number.
    pub fn put_u32(&mut self, n: u32) -> Result<(), Memory>
        ensures ok { OnOk result (self.new ≡ self.old ++ four n) }
        ensures err { OnErr result (self.new ≡ self.old) }
    {
        let mut bytes = [0; 4];
        BigEndian::write_u32(&mut bytes, n);
        self.text.extend(&bytes)
    }

    /// Adds the eight bytes of a signed number.
    pub fn put_i64(&mut self, z: i64) -> Result<(), Memory>
        ensures ok { OnOk result (self.new ≡ self.old ++ eight z) }
        ensures err { OnErr result (self.new ≡ self.old) }
    {
        let mut bytes = [0; 8];
        BigEndian::write_i64(&mut bytes, z);
        self.text.extend(&bytes)
    }

    /// Adds bytes.
    pub fn put_bytes(&mut self, bytes: &[u8]) -> Result<(), Memory>
        ensures ok { OnOk result (self.new ≡ self.old ++ bytes.now) }
        ensures err { OnErr result (self.new ≡ self.old) }
    {
        self.text.extend(bytes)
    }

    /// The bytes, which takes no memory.
    pub fn into_text(self) -> Text
        ensures { result.0 ≡ self }
    {
        let Out { text } = self;
        text
    }
}

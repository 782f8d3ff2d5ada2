// A text that grows.

ghost use Rattle.std.specs.Prelude.{◌≡◌, ◌++◌, ◌⊎◌, [], Some, None, option_map};
ghost use Rattle.std.specs.Option.{option_copied};
ghost use Rattle.std.specs.Fmt.{decimal, signed_decimal};

use ac_types::Text;
use std::alloc::Global;
use std::marker::Model;

/// A text that grows. Contracts see it as its bytes, or as nothing once memory has run out: then it
/// is no longer whole.
#[derive(Drop)]
pub struct Page {
    alloc: Global,
    text: Text,
    whole: bool,
}

impl Model for Page {
    ghost use Rattle.std.specs.Prelude.{List, ℕ, Option, Some, None, true, false};

    ghost Value = { Option (List ℕ) };

    ghost view = { λ page. elim page.whole [ true ↦ Some page.text.0 | false ↦ None ] };
}

impl Page {
    /// An empty page. It takes no memory.
    pub fn new(alloc: Global) -> Page
        ensures { result ≡ Some [] }
    {
        Page {
            alloc,
            text: Text::new(alloc),
            whole: true,
        }
    }

    /// Adds bytes.
    pub fn put(&mut self, bytes: &[u8])
        ensures { (self.new ≡ None) ⊎ (self.new ≡ option_map (λ old. old ++ bytes.now) self.old) }
    {
        if self.text.extend(bytes).is_err() {
            self.whole = false;
        }
    }

    /// Adds the digits of a number.
    pub fn number(&mut self, number: u64)
        ensures { (self.new ≡ None) ⊎ (self.new ≡ option_map (λ old. old ++ decimal number)
            self.old) }
    {
        match format!(in self.alloc; "{number}") {
            Ok(digits) => self.put(digits.as_bytes()),
            Err(_) => self.whole = false,
        }
    }

    /// Adds the digits of a number, behind a `-` where it is negative.
    pub fn integer(&mut self, number: i64)
        ensures { (self.new ≡ None) ⊎ (self.new ≡ option_map (λ old. old ++ signed_decimal number)
            self.old) }
    {
        match format!(in self.alloc; "{number}") {
            Ok(digits) => self.put(digits.as_bytes()),
            Err(_) => self.whole = false,
        }
    }

    /// From now on the page isn't whole.
    pub fn lose(&mut self)
        ensures { self.new ≡ None }
    {
        self.whole = false;
    }

    /// The bytes, `None` exactly where the page isn't whole.
    pub fn bytes(&self) -> Option<&[u8]>
        ensures { option_copied result ≡ self.now }
    {
        if self.whole {
            Some(self.text.as_slice())
        } else {
            None
        }
    }
}

// A page of nodes in parentheses behind their forms.

use ac_syntax::SName;
use ac_text::Page;
use ac_types::Text;
use std::alloc::Global;

/// A page of trees.
#[derive(Drop)]
pub struct TreePage {
    page: Page,
    with_places: bool,
}

impl TreePage {
    /// An empty page, on which nodes and names are to have their places or not.
    pub fn new(alloc: Global, with_places: bool) -> TreePage {
        TreePage {
            page: Page::new(alloc),
            with_places,
        }
    }

    /// Adds these bytes.
    pub fn put(&mut self, bytes: &[u8]) {
        self.page.put(bytes);
    }

    /// Adds a number's digits, behind a `-` where it is negative.
    pub fn number(&mut self, number: i64) {
        self.page.integer(number);
    }

    /// Adds a place behind an `@`, where places are shown.
    pub fn place(&mut self, at: u32) {
        if self.with_places {
            self.put(b"@");
            self.number(i64::from(at));
        }
    }

    /// Adds a node without parts.
    pub fn leaf(&mut self, form: &[u8], at: u32) {
        self.put(b" ");
        self.put(form);
        self.place(at);
    }

    /// Adds the front of a node with parts.
    pub fn open(&mut self, form: &[u8], at: u32) {
        self.put(b" (");
        self.put(form);
        self.place(at);
    }

    /// Ends a node with parts.
    pub fn close(&mut self) {
        self.put(b")");
    }

    /// Adds a name.
    pub fn name(&mut self, name: &SName) {
        self.leaf(name.word.text().as_slice(), name.at);
    }

    /// Adds a constant number.
    pub fn integer(&mut self, number: i64, at: u32) {
        self.put(b" ");
        self.number(number);
        self.place(at);
    }

    /// Adds a constant truth value.
    pub fn truth(&mut self, truth: bool, at: u32) {
        if truth {
            self.leaf(b"true", at);
        } else {
            self.leaf(b"false", at);
        }
    }

    /// Adds a string as a literal.
    pub fn literal(&mut self, text: &Text) {
        self.put(b" \"");
        for byte in text.as_slice() {
            self.escaped(*byte);
        }
        self.put(b"\"");
    }

    /// Adds a constant string.
    pub fn string(&mut self, text: &Text, at: u32) {
        self.literal(text);
        self.place(at);
    }

    // A byte of a string: as itself, behind a `\`, or as `\x` and its two digits.
    fn escaped(&mut self, byte: u8) {
        match byte {
            b'"' => self.put(b"\\\""),
            b'\\' => self.put(b"\\\\"),
            32..=126 => self.put(&[byte]),
            _ => self.hexadecimal(byte),
        }
    }

    // A byte as `\x` and two digits to the base 16.
    fn hexadecimal(&mut self, byte: u8) {
        self.page.put(b"\\x");
        self.page.put(&[digit(byte / 16), digit(byte % 16)]);
    }

    /// The bytes, where they are whole.
    pub fn bytes(&self) -> &[u8] {
        self.page.bytes().unwrap_or(b" out of memory")
    }
}

// A digit to the base 16.
fn digit(value: u8) -> u8 {
    if value < 10 {
        b'0' + value
    } else {
        b'a'.wrapping_add(value.wrapping_sub(10))
    }
}

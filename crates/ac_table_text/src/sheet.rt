// A page of nodes in parentheses behind their forms.

use ac_terms::Env;
use ac_text::Page;
use ac_types::{Name, Text, Word};

/// How strings and the names of definitions are written.
#[derive(Clone, Copy)]
pub enum Leaves<'a> {
    /// By the digits of their bytes, a string behind an `x`.
    Digits,
    /// A string between quotes, a name as the number of the first of these entries that keeps it.
    Entries(&'a Env),
}

/// What adds nodes to a page, a blank in front of each.
#[derive(Drop)]
pub struct Sheet<'a> {
    page: &'a mut Page,
    leaves: Leaves<'a>,
}

impl<'a> Sheet<'a> {
    /// What adds nodes to this page.
    pub fn on(page: &'a mut Page, leaves: Leaves<'a>) -> Sheet<'a> {
        Sheet { page, leaves }
    }

    /// Adds a node without parts.
    pub fn leaf(&mut self, form: &[u8]) {
        self.page.put(b" ");
        self.page.put(form);
    }

    /// Adds the front of a node with parts.
    pub fn open(&mut self, form: &[u8]) {
        self.page.put(b" (");
        self.page.put(form);
    }

    /// Ends a node with parts.
    pub fn close(&mut self) {
        self.page.put(b")");
    }

    /// Adds a number.
    pub fn number(&mut self, number: i64) {
        self.page.put(b" ");
        self.page.integer(number);
    }

    /// Adds an identifier.
    pub fn word(&mut self, word: &Word) {
        self.leaf(word.text().as_slice());
    }

    /// Adds a string.
    pub fn string(&mut self, text: &Text) {
        match self.leaves {
            Leaves::Digits => {
                self.page.put(b" x");
                self.digits(text.as_slice());
            }
            Leaves::Entries(_) => {
                self.page.put(b" \"");
                self.page.put(text.as_slice());
                self.page.put(b"\"");
            }
        }
    }

    /// Adds the name of a definition.
    pub fn name(&mut self, name: &Name) {
        match self.leaves {
            Leaves::Digits => {
                self.page.put(b" ");
                self.digits(name.0.as_slice());
            }
            Leaves::Entries(env) => self.entry(env, name),
        }
    }

    fn entry(&mut self, env: &Env, name: &Name) {
        match env.entries().iter().position(|entry| entry.keeps(name)) {
            Some(number) => self.number(i64::try_from(number).unwrap_or(-1)),
            None => self.leaf(b"?"),
        }
    }

    fn digits(&mut self, bytes: &[u8]) {
        let digits = b"0123456789abcdef".as_slice();
        for byte in bytes {
            let high = digits[usize::from(*byte / 16)];
            let low = digits[usize::from(*byte % 16)];
            self.page.put(&[high, low]);
        }
    }
}

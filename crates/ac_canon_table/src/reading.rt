// A line as a definition.

use crate::parts::Parts;
use ac_terms::{Def, Env};
use ac_types::{Many, Name, Text, Word};
use std::alloc::Global;

/// The definition that a line writes: its forms are taken from the end on, each with its parts on
/// the pile.
pub fn read(alloc: Global, env: &Env, line: &str) -> Option<Def> {
    let mut parts = Parts::new(alloc);
    let mut found = None;
    for piece in line.rsplit([' ', '(', ')']) {
        if piece.is_empty() {
            continue;
        }
        found = parts.def(piece);
        if found.is_none() {
            parts.take(env, piece)?;
        }
    }
    if parts.pile.whole { found } else { None }
}

impl Parts {
    // A piece that is no definition goes to the parts.
    fn take(&mut self, env: &Env, piece: &str) -> Option<()> {
        if let Some(letters) = piece.strip_prefix('\'') {
            let text = Text::from_slice(self.pile.alloc, letters.as_bytes()).ok()?;
            return self.pile.words.push(Word::new(text)?).ok();
        }
        if let Some(digits) = piece.strip_prefix('@') {
            return self.pile.names.push(kept(env, digits)?).ok();
        }
        if let Some(digits) = piece.strip_prefix('x') {
            let bytes = hex::decode(self.pile.alloc, digits).ok()?;
            let text = Text(Many::from_vec(bytes));
            return self.pile.texts.push(text).ok();
        }
        if let Ok(number) = piece.parse::<i64>() {
            return self.pile.numbers.push(number).ok();
        }
        if self.pile.take(piece).is_some() {
            return Some(());
        }
        self.take_part(piece)
    }
}

// The name that the entry of that number keeps.
fn kept(env: &Env, digits: &str) -> Option<Name> {
    let number = digits.parse::<u32>().ok()?;
    env.entry(number)?.name
}

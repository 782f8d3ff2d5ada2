// The signs around a place of a text.

use ac_syntax::{Sign, SignKind, Symbol};
use ac_types::Word;

/// The signs of a text, and how many of them stand in front of a place.
#[derive(Clone, Copy)]
pub struct Spot<'x, 's, 't> {
    pub text: &'x [u8],
    signs: &'s [Sign<'t>],
    front: usize,
}

impl<'x, 's, 't> Spot<'x, 's, 't> {
    /// The place of a byte.
    pub fn new(text: &'x [u8], signs: &'s [Sign<'t>], at: u32) -> Spot<'x, 's, 't> {
        let mut front = 0usize;
        for sign in signs {
            if sign.at < at {
                front = front.saturating_add(1);
            }
        }
        Spot { text, signs, front }
    }

    /// The sign that stands here.
    pub fn here(&self) -> Option<Sign<'t>> {
        self.signs.get(self.front).copied()
    }

    /// The sign so many behind the one that stands here.
    pub fn ahead(&self, count: usize) -> Option<Sign<'t>> {
        self.signs.get(self.front.saturating_add(count)).copied()
    }

    /// The sign so many in front of the place, 1 for the nearest.
    pub fn back(&self, count: usize) -> Option<Sign<'t>> {
        if count > self.front {
            return None;
        }
        self.signs.get(self.front - count).copied()
    }

    /// Whether this symbol stands here.
    pub fn is_here(&self, symbol: Symbol) -> bool {
        is_symbol(self.here(), symbol)
    }

    /// Whether this symbol stands so many behind the one that stands here.
    pub fn is_ahead(&self, count: usize, symbol: Symbol) -> bool {
        is_symbol(self.ahead(count), symbol)
    }

    /// Whether this symbol stands so many in front of the place.
    pub fn is_back(&self, count: usize, symbol: Symbol) -> bool {
        is_symbol(self.back(count), symbol)
    }

    /// The small name so many in front of the place.
    pub fn lower_back(&self, count: usize) -> Option<&'t Word> {
        match self.back(count)?.kind {
            SignKind::Lower(word) => Some(word),
            _ => None,
        }
    }

    /// The UPPER name so many in front of the place.
    pub fn upper_back(&self, count: usize) -> Option<&'t Word> {
        match self.back(count)?.kind {
            SignKind::Upper(word) => Some(word),
            _ => None,
        }
    }

    /// The small name that stands here.
    pub fn lower_here(&self) -> Option<&'t Word> {
        match self.here()?.kind {
            SignKind::Lower(word) => Some(word),
            _ => None,
        }
    }

    /// The UPPER name that stands here.
    pub fn upper_here(&self) -> Option<&'t Word> {
        match self.here()?.kind {
            SignKind::Upper(word) => Some(word),
            _ => None,
        }
    }

    /// Whether the text ends here.
    pub fn is_end(&self) -> bool {
        self.here().is_none()
    }

    /// Whether the sign in front of the place is one byte long and touches the place.
    pub fn touches(&self) -> bool {
        match (self.back(1), self.here()) {
            (Some(before), Some(here)) => before.at.saturating_add(1) == here.at,
            _ => false,
        }
    }

    /// Whether one of the signs in front of the place, so many, is this small name.
    pub fn has_word_back(&self, count: usize, name: &[u8]) -> bool {
        for i in 1..=count {
            if let Some(word) = self.lower_back(i)
                && word.text().as_slice() == name
            {
                return true;
            }
        }
        false
    }

    /// The bytes from the sign so many in front of the place on, up to the place and without blanks.
    pub fn bytes_from(&self, count: usize) -> &'x [u8] {
        match self.back(count) {
            Some(sign) => self.between(sign.at as usize, self.place()),
            None => b"",
        }
    }

    /// How many signs in front of the place the parenthesis opens that is closed there.
    pub fn opener_back(&self) -> Option<usize> {
        let mut closed = 0usize;
        for count in 1..=self.front {
            if self.is_back(count, Symbol::Close) {
                closed = closed.saturating_add(1);
            } else if self.is_back(count, Symbol::Open) {
                closed = closed.saturating_sub(1);
            }
            if closed == 0 {
                return if count == 1 { None } else { Some(count) };
            }
        }
        None
    }

    /// The place, the length of the text at its end.
    pub fn place(&self) -> usize {
        match self.here() {
            Some(sign) => sign.at as usize,
            None => self.text.len(),
        }
    }

    // The bytes between two places, without the blanks at their end.
    fn between(&self, start: usize, end: usize) -> &'x [u8] {
        let text = self.text;
        let mut bytes = text.get(start..end).unwrap_or(b"");
        for _ in start..end {
            match bytes {
                [rest @ .., b' ' | b'\t' | b'\r' | b'\n'] => bytes = rest,
                _ => return bytes,
            }
        }
        bytes
    }
}

/// Whether a sign is this symbol.
pub fn is_symbol(sign: Option<Sign<'_>>, symbol: Symbol) -> bool {
    match sign {
        Some(sign) => match sign.kind {
            SignKind::Fixed(found) => found == symbol,
            _ => false,
        },
        None => false,
    }
}

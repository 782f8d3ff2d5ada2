// Identifiers and strings.

ghost use Rattle.std.specs.Prelude.{◌≡◌, ℕ, List};
ghost use Rattle.ac_terms.specs.Read.{bytes_of};
ghost use Rattle.ac_decode_pieces.specs.ExactReading.{exact_word, exact_lower, exact_upper, exact_text, begins_low, begins_high};
ghost use Rattle.ac_decode_pieces.specs.Readers.{ReadsAs};

use crate::fault::PieceFault;
use ac_bytes::Cursor;
use ac_types::{Text, Word};
use std::alloc::Global;

// An identifier.
#[tactic(auto, using(crate::proofs::Taken::no_length, crate::proofs::Taken::word_short))]
fn identifier(alloc: Global, cursor: &mut Cursor<'_>) -> Result<Word, PieceFault>
    ensures { ReadsAs (λ (w : List ℕ). w) result (exact_word cursor.old.left) cursor.new.left }
{
    let at = cursor.place();
    let Some(count) = cursor.take_u8() else {
        return Err(PieceFault::Short);
    };
    let Some(bytes) = cursor.take_bytes(count as u32) else {
        return Err(PieceFault::Short);
    };
    match Word::new(Text::from_slice(alloc, bytes)?) {
        None => Err(PieceFault::Misfit { at }),
        Some(word) => Ok(word),
    }
}

fn begins_low(word: &Word) -> bool
    ensures { result ≡ begins_low word.now }
{
    match word.text().as_slice().first() {
        None => false,
        Some(c) => c.is_ascii_lowercase() || *c == b'_',
    }
}

fn begins_high(word: &Word) -> bool
    ensures { result ≡ begins_high word.now }
{
    match word.text().as_slice().first() {
        None => false,
        Some(c) => c.is_ascii_uppercase(),
    }
}

/// An identifier that begins with a lower letter or `_`.
#[tactic(auto, unfolding(crate::specs::ExactReading::exact_lower))]
pub fn take_lower(alloc: Global, cursor: &mut Cursor<'_>) -> Result<Word, PieceFault>
    ensures { ReadsAs (λ (w : List ℕ). w) result (exact_lower cursor.old.left) cursor.new.left }
{
    let at = cursor.place();
    let word = identifier(alloc, cursor)?;
    if !begins_low(&word) {
        return Err(PieceFault::Misfit { at });
    }
    Ok(word)
}

/// An identifier that begins with an upper letter.
#[tactic(auto, unfolding(crate::specs::ExactReading::exact_upper))]
pub fn take_upper(alloc: Global, cursor: &mut Cursor<'_>) -> Result<Word, PieceFault>
    ensures { ReadsAs (λ (w : List ℕ). w) result (exact_upper cursor.old.left) cursor.new.left }
{
    let at = cursor.place();
    let word = identifier(alloc, cursor)?;
    if !begins_high(&word) {
        return Err(PieceFault::Misfit { at });
    }
    Ok(word)
}

/// A string of at most so many bytes.
#[tactic(auto, using(crate::proofs::Taken::no_long_length, crate::proofs::Taken::text_short))]
pub fn take_text(alloc: Global, cursor: &mut Cursor<'_>, most: u32) -> Result<Text, PieceFault>
    ensures { ReadsAs bytes_of result (exact_text most cursor.old.left) cursor.new.left }
{
    let at = cursor.place();
    let Some(count) = cursor.take_u32() else {
        return Err(PieceFault::Short);
    };
    if count > most {
        return Err(PieceFault::Misfit { at });
    }
    match cursor.take_bytes(count) {
        None => Err(PieceFault::Short),
        Some(bytes) => Ok(Text::from_slice(alloc, bytes)?),
    }
}

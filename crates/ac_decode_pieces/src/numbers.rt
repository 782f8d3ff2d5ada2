// Numbers, truth values, names and counts.

ghost use Rattle.std.specs.Prelude.{ℕ, ℤ, Bool};
ghost use Rattle.ac_terms.specs.PacketReading.{read_byte};
ghost use Rattle.ac_decode_pieces.specs.ExactReading.{exact_two, exact_four, exact_eight, exact_truth, exact_name, exact_width, exact_count, exact_long_count};
ghost use Rattle.ac_decode_pieces.specs.Readers.{ReadsAs};

use crate::fault::PieceFault;
use ac_bytes::Cursor;
use ac_types::Name;
use ac_types::limits::WIDEST_TUPLE;

/// A byte.
pub fn take_byte(cursor: &mut Cursor<'_>) -> Result<u8, PieceFault>
    ensures { ReadsAs (λ (n : ℕ). n) result (read_byte cursor.old.left) cursor.new.left }
{
    match cursor.take_u8() {
        None => Err(PieceFault::Short),
        Some(n) => Ok(n),
    }
}

/// A number of two bytes.
#[tactic(auto, using(crate::proofs::Taken::two_short))]
pub fn take_two(cursor: &mut Cursor<'_>) -> Result<u16, PieceFault>
    ensures { ReadsAs (λ (n : ℕ). n) result (exact_two cursor.old.left) cursor.new.left }
{
    match cursor.take_u16() {
        None => Err(PieceFault::Short),
        Some(n) => Ok(n),
    }
}

/// A number of four bytes.
#[tactic(auto, using(crate::proofs::Taken::four_short))]
pub fn take_four(cursor: &mut Cursor<'_>) -> Result<u32, PieceFault>
    ensures { ReadsAs (λ (n : ℕ). n) result (exact_four cursor.old.left) cursor.new.left }
{
    match cursor.take_u32() {
        None => Err(PieceFault::Short),
        Some(n) => Ok(n),
    }
}

/// A signed number of eight bytes.
#[tactic(auto, using(crate::proofs::Taken::eight_short))]
pub fn take_eight(cursor: &mut Cursor<'_>) -> Result<i64, PieceFault>
    ensures { ReadsAs (λ (z : ℤ). z) result (exact_eight cursor.old.left) cursor.new.left }
{
    match cursor.take_i64() {
        None => Err(PieceFault::Short),
        Some(z) => Ok(z),
    }
}

/// A truth value: 0 or 1.
pub fn take_truth(cursor: &mut Cursor<'_>) -> Result<bool, PieceFault>
    ensures { ReadsAs (λ (b : Bool). b) result (exact_truth cursor.old.left) cursor.new.left }
{
    let at = cursor.place();
    let n = take_byte(cursor)?;
    if n > 1 {
        return Err(PieceFault::Misfit { at });
    }
    if n == 1 {
        return Ok(true);
    }
    Ok(false)
}

/// A name of 32 bytes.
#[tactic(auto, using(crate::proofs::Taken::name_taken, crate::proofs::Taken::name_short))]
pub fn take_name(cursor: &mut Cursor<'_>) -> Result<Name, PieceFault>
    ensures { ReadsAs (λ (n : Name). n.0) result (exact_name cursor.old.left) cursor.new.left }
{
    match cursor.take_name() {
        None => Err(PieceFault::Short),
        Some(name) => Ok(name),
    }
}

/// How many parts a tuple has.
#[tactic(auto, unfolding(crate::specs::ExactReading::exact_width))]
pub fn width(cursor: &mut Cursor<'_>) -> Result<u8, PieceFault>
    ensures { ReadsAs (λ (n : ℕ). n) result (exact_width cursor.old.left) cursor.new.left }
{
    let at = cursor.place();
    let n = take_byte(cursor)?;
    if n < 2 || n > WIDEST_TUPLE {
        return Err(PieceFault::Misfit { at });
    }
    Ok(n)
}

/// A count in one byte.
#[tactic(auto, unfolding(crate::specs::ExactReading::exact_count))]
pub fn take_count(cursor: &mut Cursor<'_>, least: u8, most: u8) -> Result<u8, PieceFault>
    ensures { ReadsAs (λ (n : ℕ). n) result (exact_count least most cursor.old.left)
        cursor.new.left }
{
    let at = cursor.place();
    let n = take_byte(cursor)?;
    if n < least || n > most {
        return Err(PieceFault::Misfit { at });
    }
    Ok(n)
}

/// A count in two bytes.
#[tactic(auto, unfolding(crate::specs::ExactReading::exact_long_count))]
pub fn take_long_count(cursor: &mut Cursor<'_>, least: u16, most: u16) -> Result<u16, PieceFault>
    ensures { ReadsAs (λ (n : ℕ). n) result (exact_long_count least most cursor.old.left)
        cursor.new.left }
{
    let at = cursor.place();
    let n = take_two(cursor)?;
    if n < least || n > most {
        return Err(PieceFault::Misfit { at });
    }
    Ok(n)
}

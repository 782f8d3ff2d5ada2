// Heads that travel.

ghost use Rattle.std.specs.Prelude.{◌++◌, ◌∷◌, []};
ghost use Rattle.ac_terms.specs.Spelling.{truth, str, word, one_written, two_written, four_written, eight_written};
ghost use Rattle.ac_terms.specs.Heads.{next_head};
ghost use Rattle.ac_pack_heads.specs.Outcomes.{Puts};

use crate::stop::Stop;
use ac_types::limits::{DEEPEST_NESTING, LONGEST_PACKET};
use ac_types::{Text, Word};

/// Writes the head of a part that nests so deep. Stops where it nests too far, or where too much is
/// written then.
#[tactic(auto, using(crate::proofs::HeadLaws::head_laws))]
pub fn write_head(text: &mut Text, nesting: u32, bytes: &[u8]) -> Result<(), Stop>
    ensures { Puts result (next_head nesting bytes.now) text.old.0 text.new.0 }
{
    if nesting > DEEPEST_NESTING {
        return Err(Stop::Depth);
    }
    text.extend(bytes)?;
    if text.as_slice().len() > LONGEST_PACKET {
        return Err(Stop::Size);
    }
    Ok(())
}

/// A head of two pieces of bytes.
pub fn long_head(text: &mut Text, nesting: u32, front: &[u8], rest: &[u8]) -> Result<(), Stop>
    ensures { Puts result (next_head nesting (front.now ++ rest.now)) text.old.0 text.new.0 }
{
    text.extend(front)?;
    write_head(text, nesting, rest)
}

/// A head that holds a number of eight bytes.
pub fn int_head(text: &mut Text, nesting: u32, tag: u8, n: i64) -> Result<(), Stop>
    ensures { Puts result (next_head nesting (tag ∷ eight_written n)) text.old.0 text.new.0 }
{
    long_head(text, nesting, &[tag], &n.to_be_bytes())
}

/// A head that holds a number of two bytes.
pub fn short_head(text: &mut Text, nesting: u32, tag: u8, n: u16) -> Result<(), Stop>
    ensures { Puts result (next_head nesting (tag ∷ two_written n)) text.old.0 text.new.0 }
{
    long_head(text, nesting, &[tag], &n.to_be_bytes())
}

/// A head that holds a truth value.
pub fn truth_head(text: &mut Text, nesting: u32, tag: u8, b: bool) -> Result<(), Stop>
    ensures { Puts result (next_head nesting (tag ∷ truth b)) text.old.0 text.new.0 }
{
    if b {
        write_head(text, nesting, &[tag, 1])
    } else {
        write_head(text, nesting, &[tag, 0])
    }
}

/// A head that holds a count of one byte.
pub fn few_head(text: &mut Text, nesting: u32, tag: u8, count: usize) -> Result<(), Stop>
    ensures { Puts result (next_head nesting (tag ∷ one_written count)) text.old.0 text.new.0 }
{
    write_head(text, nesting, &[tag, (count % 256) as u8])
}

/// A head that holds a count of four bytes.
#[tactic(auto, using(ac_terms::proofs::Digits::digits))]
pub fn count_head(text: &mut Text, nesting: u32, tag: u8, count: usize) -> Result<(), Stop>
    ensures { Puts result (next_head nesting (tag ∷ four_written count)) text.old.0 text.new.0 }
{
    let count = (count % 4_294_967_296) as u32;
    long_head(text, nesting, &[tag], &count.to_be_bytes())
}

/// A head that holds a string behind these bytes.
pub fn string_head(text: &mut Text, nesting: u32, front: &[u8], inner: &[u8]) -> Result<(), Stop>
    ensures { Puts result (next_head nesting (front.now ++ str inner.now)) text.old.0 text.new.0 }
{
    text.extend(front)?;
    plain_string(text, nesting, inner)
}

// A head that holds a string.
#[tactic(auto, using(ac_terms::proofs::Digits::digits))]
fn plain_string(text: &mut Text, nesting: u32, inner: &[u8]) -> Result<(), Stop>
    ensures { Puts result (next_head nesting (str inner.now)) text.old.0 text.new.0 }
{
    let len = (inner.len() % 4_294_967_296) as u32;
    long_head(text, nesting, &len.to_be_bytes(), inner)
}

/// A head that holds a number of two bytes and a word.
pub fn named_head(text: &mut Text, nesting: u32, tag: u8, n: u16, name: &Word) -> Result<(), Stop>
    ensures { Puts result (next_head nesting (tag ∷ two_written n ++ word name.now)) text.old.0
        text.new.0 }
{
    text.extend(&[tag])?;
    numbered(text, nesting, n, name)
}

// A head that holds a number of two bytes and a word, and nothing in front of them.
fn numbered(text: &mut Text, nesting: u32, n: u16, name: &Word) -> Result<(), Stop>
    ensures { Puts result (next_head nesting (two_written n ++ word name.now)) text.old.0
        text.new.0 }
{
    text.extend(&n.to_be_bytes())?;
    plain_word(text, nesting, name)
}

// A head that holds a word.
fn plain_word(text: &mut Text, nesting: u32, name: &Word) -> Result<(), Stop>
    ensures { Puts result (next_head nesting (word name.now)) text.old.0 text.new.0 }
{
    let bytes = name.text().as_slice();
    long_head(text, nesting, &[bytes.len() as u8], bytes)
}

// Counts, words and strings, and what stands behind a tag. A count is put by the last digits that
// its width holds; within the bounds that is the count.

ghost use Rattle.std.specs.Prelude.{◌≡◌, ◌++◌, ◌∷◌, [], OnOk};
ghost use Rattle.ac_terms.specs.Spelling.{one_written, two_written, four_written, eight_written, truth, word, str};

use ac_bytes::Out;
use ac_types::{Memory, Text, Word};

/// A count in one byte.
pub fn put_count_u8(out: &mut Out, n: usize) -> Result<(), Memory>
    ensures { OnOk result (out.new ≡ out.old ++ one_written n) }
{
    out.put_u8((n % 256) as u8)
}

/// A count in two bytes.
#[tactic(auto, using(ac_terms::proofs::Digits::digits))]
pub fn put_count_u16(out: &mut Out, n: usize) -> Result<(), Memory>
    ensures { OnOk result (out.new ≡ out.old ++ two_written n) }
{
    out.put_u16((n % 65_536) as u16)
}

/// A count in four bytes.
#[tactic(auto, using(ac_terms::proofs::Digits::digits))]
pub fn put_count_u32(out: &mut Out, n: usize) -> Result<(), Memory>
    ensures { OnOk result (out.new ≡ out.old ++ four_written n) }
{
    out.put_u32((n % 4_294_967_296) as u32)
}

/// 1 for true, 0 for false.
pub fn put_truth(out: &mut Out, b: bool) -> Result<(), Memory>
    ensures { OnOk result (out.new ≡ out.old ++ truth b) }
{
    out.put_u8(if b { 1 } else { 0 })
}

/// An identifier: its length in one byte, and its bytes.
pub fn put_word(out: &mut Out, w: &Word) -> Result<(), Memory>
    ensures { OnOk result (out.new ≡ out.old ++ word w.now) }
{
    let bytes = w.text().as_slice();
    out.put_u8(bytes.len() as u8)?;
    out.put_bytes(bytes)
}

/// A string: its length in four bytes, and its bytes.
pub fn put_str(out: &mut Out, text: &Text) -> Result<(), Memory>
    ensures { OnOk result (out.new ≡ out.old ++ str text.now.0) }
{
    let bytes = text.as_slice();
    put_count_u32(out, bytes.len())?;
    out.put_bytes(bytes)
}

/// An int behind its tag.
pub fn put_int(out: &mut Out, tag: u8, n: i64) -> Result<(), Memory>
    ensures { OnOk result (out.new ≡ out.old ++ tag ∷ eight_written n) }
{
    out.put_u8(tag)?;
    out.put_i64(n)
}

/// A bool behind its tag.
pub fn put_bool(out: &mut Out, tag: u8, b: bool) -> Result<(), Memory>
    ensures { OnOk result (out.new ≡ out.old ++ tag ∷ truth b) }
{
    out.put_u8(tag)?;
    put_truth(out, b)
}

/// A string behind its tag.
pub fn put_string(out: &mut Out, tag: u8, text: &Text) -> Result<(), Memory>
    ensures { OnOk result (out.new ≡ out.old ++ tag ∷ str text.now.0) }
{
    out.put_u8(tag)?;
    put_str(out, text)
}

/// A byte behind its tag.
pub fn put_tagged_byte(out: &mut Out, tag: u8, n: u8) -> Result<(), Memory>
    ensures { OnOk result (out.new ≡ out.old ++ tag ∷ n ∷ []) }
{
    out.put_u8(tag)?;
    out.put_u8(n)
}

/// A number of two bytes behind its tag.
pub fn put_tagged_number(out: &mut Out, tag: u8, n: u16) -> Result<(), Memory>
    ensures { OnOk result (out.new ≡ out.old ++ tag ∷ two_written n) }
{
    out.put_u8(tag)?;
    out.put_u16(n)
}

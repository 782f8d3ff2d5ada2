// The part that is refused, a word and a number.
ghost use Rattle.std.specs.Prelude.{◌≡◌, ◌++◌, OnOk};
ghost use Rattle.acute_answers.specs.Reasons.{kind_word, told_number, part_shown, reason};

use ac_load::Kind;
use ac_text::put_number;
use ac_types::{Memory, Text};
use std::alloc::Global;

/// Adds why a part is refused, up to the end of the line. Part 0 is the program, and part k the kth
/// text of the shelf.
pub fn put_reason(alloc: Global, line: &mut Text, part: u32, kind: Kind) -> Result<(), Memory>
    ensures { OnOk result (line.new.0 ≡ line.old.0 ++ reason part kind) }
{
    put_part(alloc, line, part)?;
    line.extend(word(kind))?;
    line.extend(b" at ")?;
    put_number(alloc, line, number(kind))?;
    line.extend(b"\n")
}

// Adds which part is refused, where it isn't the program.
fn put_part(alloc: Global, line: &mut Text, part: u32) -> Result<(), Memory>
    ensures { OnOk result (line.new.0 ≡ line.old.0 ++ part_shown part) }
{
    if part == 0 {
        return Ok(());
    }
    line.extend(b"shelf ")?;
    put_number(alloc, line, u64::from(part))?;
    line.extend(b": ")
}

// The word of a kind.
fn word(kind: Kind) -> &'static [u8]
    ensures { result.now ≡ kind_word kind }
{
    match kind {
        Kind::TooLong { len: _ } => b"too_long",
        Kind::Lexical { at: _ } => b"lexical",
        Kind::TooDeep { at: _ } => b"too_deep",
        Kind::Syntax { at: _ } => b"syntax",
        Kind::Unbound { at: _ } => b"unbound",
        Kind::Repeated { at: _ } => b"repeated",
        Kind::TooMany { count: _ } => b"too_many",
        Kind::IllTyped { def: _ } => b"type",
        Kind::Signature { def: _, spec: _ } => b"signature",
        Kind::NotValuable { def: _, field: _ } => b"not_valuable",
        Kind::LikeMissing { def: _, spec: _ } => b"like_missing",
        Kind::Unresolved { def: _ } => b"unresolved",
        Kind::Clash {
            first: _,
            second: _,
        } => b"clash",
        Kind::Memory => b"",
    }
}

// Its number.
fn number(kind: Kind) -> u64
    ensures { result ≡ told_number kind }
{
    match kind {
        Kind::TooLong { len } => len,
        Kind::Lexical { at } => u64::from(at),
        Kind::TooDeep { at } => u64::from(at),
        Kind::Syntax { at } => u64::from(at),
        Kind::Unbound { at } => u64::from(at),
        Kind::Repeated { at } => u64::from(at),
        Kind::TooMany { count } => u64::from(count),
        Kind::IllTyped { def } => u64::from(def),
        Kind::Signature { def, spec: _ } => u64::from(def),
        Kind::NotValuable { def, field: _ } => u64::from(def),
        Kind::LikeMissing { def, spec: _ } => u64::from(def),
        Kind::Unresolved { def } => u64::from(def),
        Kind::Clash { first: _, second } => u64::from(second),
        Kind::Memory => 0,
    }
}

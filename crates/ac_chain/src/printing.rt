// The lines that are printed of a chain that has run.

ghost use Rattle.std.specs.Prelude.{◌≡◌, ◌++◌, IfOk, OnOk, flat_map};
ghost use Rattle.ac_chain.specs.StringLines.{end_status, end_line, native_line, part_lines, chain_lines};

use crate::chained::{ChainPart, Chained};
use ac_run::RunEnd;
use ac_text::put_number;
use ac_types::{Memory, Text};
use std::alloc::Global;

/// For each program, which are counted from 1, the line `program K: status S`, and behind it, for
/// each string that it unmarshalled, a line `native` or `foreign`.
pub fn lines(alloc: Global, chained: &Chained) -> Result<Text, Memory>
    ensures { IfOk result (λ text. text.0 ≡ chain_lines chained.now.parts) }
{
    let mut text = Text::new(alloc);
    let parts = chained.parts.as_slice();
    for k in 0..parts.len() {
        put_part(alloc, &mut text, k as u64 + 1, &parts[k])?;
    }
    Ok(text)
}

// Adds the lines of program `k`.
fn put_part(alloc: Global, text: &mut Text, k: u64, part: &ChainPart) -> Result<(), Memory>
    ensures { OnOk result (text.new.0 ≡ text.old.0 ++ part_lines k part.now) }
{
    put_end(alloc, text, k, &part.end)?;
    put_natives(text, part.native.as_slice())
}

// Adds the line of its end.
fn put_end(alloc: Global, text: &mut Text, k: u64, end: &RunEnd) -> Result<(), Memory>
    ensures { OnOk result (text.new.0 ≡ text.old.0 ++ end_line k end.now) }
{
    text.extend(b"program ")?;
    put_number(alloc, text, k)?;
    text.extend(b": status ")?;
    put_number(alloc, text, end_status(end))?;
    text.extend(b"\n")
}

// The status that goes with an end.
fn end_status(end: &RunEnd) -> u64
    ensures { result ≡ end_status end.now }
{
    match end {
        RunEnd::Finished => 0,
        RunEnd::Uncaught(_) => 2,
        RunEnd::Spent { .. } => 3,
        RunEnd::Memory => 4,
        RunEnd::ReadFault => 5,
        RunEnd::WriteFault => 6,
    }
}

// Adds the lines of the strings that it read.
fn put_natives(text: &mut Text, native: &[bool]) -> Result<(), Memory>
    ensures { OnOk result (text.new.0 ≡ text.old.0 ++ flat_map native_line native.now) }
{
    for is_native in native {
        text.extend(native_line(*is_native))?;
    }
    Ok(())
}

fn native_line(is_native: bool) -> &'static [u8]
    ensures { result.now ≡ native_line is_native }
{
    if is_native { b"native\n" } else { b"foreign\n" }
}

// The lines on errors of a chain that isn't run.
ghost use Rattle.std.specs.Prelude.{◌≡◌, ◌++◌, IfOk, OnOk};
ghost use Rattle.acute_chain.specs.Chaining.{clash_line, entry_numbered, program_line};

use ac_load::Refusal;
use ac_text::put_number;
use ac_types::{Memory, Text};
use acute_answers::put_reason;
use std::alloc::Global;

/// The line of a program that is refused, counted from 0. `Err` for want of memory.
pub fn program_line(alloc: Global, program: u32, refusal: Refusal) -> Result<Text, Memory>
    ensures { IfOk result
        (λ line. line.0 ≡ program_line program refusal.part refusal.kind) }
{
    let mut line = Text::from_slice(alloc, b"acute: refused: program ")?;
    put_number(alloc, &mut line, u64::from(program) + 1)?;
    line.extend(b": ")?;
    put_reason(alloc, &mut line, refusal.part, refusal.kind)?;
    Ok(line)
}

/// The line of two entries that clash; programs and entries are counted from 0. `Err` for want of
/// memory.
pub fn clash_line(alloc: Global, first: (u32, u32), second: (u32, u32)) -> Result<Text, Memory>
    ensures { IfOk result
        (λ line. line.0 ≡ clash_line first.0 first.1 second.0 second.1) }
{
    let mut line = Text::from_slice(alloc, b"acute: clash: ")?;
    put_entry(alloc, &mut line, first.0, first.1)?;
    line.extend(b", ")?;
    put_entry(alloc, &mut line, second.0, second.1)?;
    line.extend(b"\n")?;
    Ok(line)
}

// Adds which entry of which program it is.
fn put_entry(alloc: Global, line: &mut Text, program: u32, entry: u32) -> Result<(), Memory>
    ensures { OnOk result (line.new.0 ≡ line.old.0 ++ entry_numbered program entry) }
{
    line.extend(b"program ")?;
    put_number(alloc, line, u64::from(program) + 1)?;
    line.extend(b" entry ")?;
    put_number(alloc, line, u64::from(entry))
}

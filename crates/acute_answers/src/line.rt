// The lines on errors that end a run, or say why there is none.
ghost use Rattle.std.specs.Prelude.{◌≡◌, IfOk};
ghost use Rattle.ac_meaning.specs.ReadExn.{exn_of};
ghost use Rattle.acute_answers.specs.Lines.{refusal_line, uncaught_line, spent_line};

use crate::reason::put_reason;
use ac_load::{Kind, Refusal};
use ac_text::{put_literal, put_number};
use ac_types::{Exn, Memory, Text};
use std::alloc::Global;

/// The line that says why a text is refused. `Err` for want of memory, also where the refusal tells
/// it.
pub fn refusal_line(alloc: Global, refusal: Refusal) -> Result<Text, Memory>
    ensures line { IfOk result (λ line. line.0 ≡ refusal_line refusal.part refusal.kind) }
    ensures cause { IfOk result (λ _. refusal.kind ≡ Kind.Memory → ⊥) }
{
    match refusal.kind {
        Kind::Memory => Err(Memory),
        kind => line_of(alloc, refusal.part, kind),
    }
}

// The line of a part that is refused for a cause of this kind.
fn line_of(alloc: Global, part: u32, kind: Kind) -> Result<Text, Memory>
    ensures { IfOk result (λ line. line.0 ≡ refusal_line part kind) }
{
    let mut line = Text::from_slice(alloc, b"acute: refused: ")?;
    put_reason(alloc, &mut line, part, kind)?;
    Ok(line)
}

/// The line that names an exception, with its text where it has one.
pub fn uncaught_line(alloc: Global, exn: &Exn) -> Result<Text, Memory>
    ensures { IfOk result (λ line. line.0 ≡ uncaught_line (exn_of exn.now)) }
{
    let mut line = Text::from_slice(alloc, b"uncaught: ")?;
    line.extend(exn.kind().name())?;
    if let Some(text) = exn.text() {
        line.extend(b" ")?;
        put_literal(&mut line, text.as_slice())?;
    }
    line.extend(b"\n")?;
    Ok(line)
}

/// The line of a budget that is spent, which is the number of applications that were made.
pub fn spent_line(alloc: Global, budget: u64) -> Result<Text, Memory>
    ensures { IfOk result (λ line. line.0 ≡ spent_line budget) }
{
    let mut line = Text::from_slice(alloc, b"acute: spent ")?;
    put_number(alloc, &mut line, budget)?;
    line.extend(b"\n")?;
    Ok(line)
}

// Answers are delivered: what they print goes to output, and then their line to errors.
ghost use Rattle.std.specs.Prelude.{◌≡◌, [], IsTrue};
ghost use Rattle.ac_outside.specs.Outside.{Rose, Wrote};
ghost use Rattle.acute_top.specs.Saying.{SaidIfAny};
ghost use Rattle.acute_top.specs.Streams.{writing};
ghost use Rattle.acute_top.specs.inner.Delivered.{Delivered, DeliveredIfFound};

use crate::saying::{no_memory, say};
use ac_outside::{Put, Sink};
use ac_types::Memory;
use acute_answers::{Answer, Status};

/// Delivers an answer, or says that there was no memory to find it.
pub fn deliver<O: Sink, E: Sink>(
    found: Result<Answer, Memory>,
    output: &mut O,
    errors: &mut E,
) -> Status
    ensures { DeliveredIfFound found (writing O.Sink output.old output.new)
        (writing E.Sink errors.old errors.new) result }
{
    match found {
        Ok(answer) => deliver_answer(&answer, output, errors),
        Err(_) => no_memory(errors),
    }
}

/// Prints what an answer prints, and then writes its line.
pub fn deliver_answer<O: Sink, E: Sink>(answer: &Answer, output: &mut O, errors: &mut E) -> Status
    ensures { Delivered answer.now (writing O.Sink output.old output.new)
        (writing E.Sink errors.old errors.new) result }
{
    match print(answer.printed.as_slice(), output) {
        Put::Done => say_if_any(answer.line.as_slice(), answer.status, errors),
        Put::Failed => say(errors, b"acute: write fault\n", Status::WRITE_FAULT),
        Put::Memory => no_memory(errors),
    }
}

// Writes these bytes in one piece, if there are any.
fn print<O: Sink>(bytes: &[u8], output: &mut O) -> Put
    ensures bytes { IsTrue O.told → Wrote result (O.written output.old) (O.written output.new)
        bytes.now }
    ensures cause { result ≡ Put.Failed → Rose (O.faults output.old) (O.faults output.new) }
    ensures some { result ≡ Put.Failed → bytes.now ≡ [] → ⊥ }
{
    if bytes.is_empty() {
        return Put::Done;
    }
    output.write(bytes)
}

/// Writes a line, if it is one, before an end with this status.
pub fn say_if_any<E: Sink>(line: &[u8], status: Status, errors: &mut E) -> Status
    ensures { SaidIfAny (writing E.Sink errors.old errors.new) line.now status result }
{
    if line.is_empty() {
        return status;
    }
    say(errors, line, status)
}

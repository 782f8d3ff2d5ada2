// The lines on errors, and the statuses that go with them.
ghost use Rattle.std.specs.Prelude.{◌≡◌, ◌≤◌, ◌⊎◌, IfOk, string_bytes};
ghost use Rattle.ac_meaning.specs.ReadExn.{exn_of};
ghost use Rattle.acute_answers.specs.declared.status.TheConstants.Status.{REFUSED, UNCAUGHT, SPENT, OUT_OF_MEMORY, WORDS_REFUSED, SHELF_REFUSED};
ghost use Rattle.acute_answers.specs.Lines.{refusal_line, uncaught_line, spent_line};
ghost use Rattle.acute_top.specs.Streams.{writing, words_line, memory_line, shelf_line};
ghost use Rattle.acute_top.specs.Saying.{Said};
ghost use Rattle.acute_top.specs.inner.Delivered.{SaysUnread};

use ac_load::{Kind, Refusal};
use ac_outside::{Put, Sink};
use ac_types::Exn;
use acute_answers::{Status, refusal_line, spent_line, uncaught_line};
use acute_files::TextsFault;
use std::alloc::{AllocError, Global};

/// Writes the line of a refusal.
pub fn refuse<E: Sink>(alloc: Global, refusal: Refusal, errors: &mut E) -> Status
    ensures { let stream = writing E.Sink errors.old errors.new
        in (Said stream (refusal_line refusal.part refusal.kind) REFUSED result ×
        (refusal.kind ≡ Kind.Memory → ⊥)) ⊎ Said stream memory_line OUT_OF_MEMORY result }
{
    match refusal_line(alloc, refusal) {
        Ok(line) => say(errors, line.as_slice(), Status::REFUSED),
        Err(_) => no_memory(errors),
    }
}

/// Says why texts weren't read.
pub fn tell_unread<E: Sink>(alloc: Global, fault: TextsFault, errors: &mut E) -> Status
    ensures { SaysUnread fault (writing E.Sink errors.old errors.new) result }
{
    match fault {
        TextsFault::Line(number) => tell_bad_line(alloc, number, errors),
        TextsFault::Failed => say(errors, b"acute: read fault\n", Status::READ_FAULT),
        TextsFault::Memory => no_memory(errors),
    }
}

// Writes the line of a shelf's list that has a bad line.
fn tell_bad_line<E: Sink>(alloc: Global, number: u32, errors: &mut E) -> Status
    ensures { let stream = writing E.Sink errors.old errors.new
        in Said stream (shelf_line number) SHELF_REFUSED result ⊎
        Said stream memory_line OUT_OF_MEMORY result }
{
    match shelf_line(alloc, number) {
        Ok(line) => say(errors, line.as_bytes(), Status::SHELF_REFUSED),
        Err(_) => no_memory(errors),
    }
}

fn shelf_line(alloc: Global, number: u32) -> Result<String, AllocError>
    ensures { IfOk result (λ line. string_bytes line ≡ shelf_line number) }
{
    format!(in alloc; "acute: shelf: line {number}\n")
}

/// Writes the line of an exception.
pub fn tell_uncaught<E: Sink>(alloc: Global, exn: &Exn, errors: &mut E) -> Status
    ensures { let stream = writing E.Sink errors.old errors.new
        in Said stream (uncaught_line (exn_of exn.now)) UNCAUGHT result ⊎
        Said stream memory_line OUT_OF_MEMORY result }
{
    match uncaught_line(alloc, exn) {
        Ok(line) => say(errors, line.as_slice(), Status::UNCAUGHT),
        Err(_) => no_memory(errors),
    }
}

/// Writes the line of a budget that is spent.
pub fn tell_spent<E: Sink>(alloc: Global, budget: u64, errors: &mut E) -> Status
    ensures { let stream = writing E.Sink errors.old errors.new
        in Said stream (spent_line budget) SPENT result ⊎
        Said stream memory_line OUT_OF_MEMORY result }
{
    match spent_line(alloc, budget) {
        Ok(line) => say(errors, line.as_slice(), Status::SPENT),
        Err(_) => no_memory(errors),
    }
}

/// Writes the line of words that give no command.
pub fn refuse_words<E: Sink>(errors: &mut E) -> Status
    ensures { Said (writing E.Sink errors.old errors.new) words_line WORDS_REFUSED result }
{
    say(errors, b"acute: words refused\n", Status::WORDS_REFUSED)
}

/// Writes the line of want of memory.
pub fn no_memory<E: Sink>(errors: &mut E) -> Status
    ensures { Said (writing E.Sink errors.old errors.new) memory_line OUT_OF_MEMORY result }
{
    say(errors, b"acute: out of memory\n", Status::OUT_OF_MEMORY)
}

/// Writes a line on errors, before an end with this status.
pub fn say<E: Sink>(errors: &mut E, line: &[u8], status: Status) -> Status
    ensures said { Said (writing E.Sink errors.old errors.new) line.now status result }
    ensures later { E.faults errors.old ≤ E.faults errors.new }
{
    match errors.write(line) {
        Put::Done => status,
        Put::Failed => Status::WRITE_FAULT,
        Put::Memory => Status::OUT_OF_MEMORY,
    }
}

// The call of a chain, and the answer that it gives.
ghost use Rattle.std.specs.Prelude.{◌≡◌, ◌<◌, ◌≤◌, ◌^◌, IfOk, length};
ghost use Rattle.ac_types.specs.Limits.{most_shelf_entries};
ghost use Rattle.ac_load_rules.specs.Accepting.{IsShelf};
ghost use Rattle.ac_load.specs.Loading.{shelf_of};
ghost use Rattle.ac_chain.specs.ChainTexts.{texts_of};
ghost use Rattle.ac_chain.specs.StringLines.{chain_lines};
ghost use Rattle.ac_chain.specs.Endings.{printed};
ghost use Rattle.acute_chain.specs.Given.{GivesChain};
ghost use Rattle.acute_chain.specs.inner.Telling.{AnswersFault, TellsLine};

use crate::line::{clash_line, program_line};
use ac_chain::{ChainFault, Chained, chain, lines};
use ac_load::Shelf;
use ac_outside::Sink;
use ac_types::{Many, Memory, Text};
use acute_answers::{Answer, Status};
use std::alloc::Global;

/// Why there is no answer.
#[derive(Clone, Copy, Debug, PartialEq, Eq)]
pub enum Halt {
    /// A write to the console failed.
    WriteFault,
    /// Memory ran out.
    Memory,
}

/// Loads the programs of fewer than 2^32 texts beside a shelf of at most `MOST_SHELF_ENTRIES`
/// texts, each under a URI of its own, and runs them in a chain, each with so many applications at
/// most.
/// What they print goes to the console as they run; the answer has what is printed behind that, and
/// the line and the status.
pub fn run_chain<C: Sink>(
    alloc: Global,
    texts: &Many<Text>,
    shelf: &Shelf,
    steps: u64,
    console: &mut C,
) -> Result<Answer, Halt>
    requires many { length texts.now < 2 ^ 32 }
    requires few { length shelf.now.0 ≤ most_shelf_entries }
    requires shelved { IsShelf (shelf_of shelf.now) }
    ensures gives { GivesChain (texts_of texts.now) (shelf_of shelf.now) steps
        (printed C.told C.written C.faults console.old console.new) result }
    ensures later { C.faults console.old ≤ C.faults console.new }
{
    match chain(alloc, texts, shelf, steps, console) {
        Ok(chained) => match lines_of(alloc, chained) {
            Ok(text) => Ok(Answer::printing(alloc, Status::FINISHED, text)),
            Err(_) => Err(Halt::Memory),
        },
        Err(fault) => answer_fault(alloc, fault),
    }
}

// The lines of a chain, which is let go.
fn lines_of(alloc: Global, chained: Chained) -> Result<Text, Memory>
    ensures { IfOk result (λ text. text.0 ≡ chain_lines chained.parts) }
{
    let text = lines(alloc, &chained);
    drop(chained);
    text
}

// The answer to a fault in front of the runs, or the fault.
fn answer_fault(alloc: Global, fault: ChainFault) -> Result<Answer, Halt>
    ensures { AnswersFault fault result }
{
    match fault {
        ChainFault::Refused { program, refusal } => {
            tell(
                alloc,
                Status::REFUSED,
                program_line(alloc, program, refusal),
            )
        }
        ChainFault::Clash {
            program1,
            entry1,
            program2,
            entry2,
        } => {
            let line = clash_line(alloc, (program1, entry1), (program2, entry2));
            tell(alloc, Status::CLASH, line)
        }
        ChainFault::WriteFault => Err(Halt::WriteFault),
        ChainFault::Memory => Err(Halt::Memory),
    }
}

// The answer that has a line alone.
fn tell(alloc: Global, status: Status, line: Result<Text, Memory>) -> Result<Answer, Halt>
    ensures { TellsLine status line result }
{
    match line {
        Ok(line) => Ok(Answer::telling(alloc, status, line)),
        Err(_) => Err(Halt::Memory),
    }
}

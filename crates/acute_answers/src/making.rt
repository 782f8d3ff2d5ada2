// Programs that are made, and printed or run.
ghost use Rattle.std.specs.Prelude.{◌≡◌, None, false, IfOk};
ghost use Rattle.ac_types.specs.ReadTypes.{typ_of};
ghost use Rattle.ac_terms.specs.Read.{environment_of, expr_of};
ghost use Rattle.ac_meaning.specs.Loads.{IsLoaded};
ghost use Rattle.acute_answers.specs.declared.status.TheConstants.Status.{FINISHED};
ghost use Rattle.acute_answers.specs.Answers.{answer_of, printing};
ghost use Rattle.acute_answers.specs.Making.{Makes, RunsInEach, run_lines};
ghost use Rattle.acute_answers.specs.inner.Ending.{GivesInEach};

use crate::answer::Answer;
use crate::status::Status;
use ac_load::{Shelf, load};
use ac_outside::SureWorld;
use ac_rules::Loaded;
use ac_run::{RunEnd, Session};
use ac_text::put_number;
use ac_types::limits::DEFAULT_STEPS;
use ac_types::{Memory, Text};
use std::alloc::Global;

/// Makes the program of a seed with so many modules, and prints it or runs it. A run has no shelf,
/// no input and no channel, and its console is kept in memory. `Err` for want of memory.
pub fn make_answer(alloc: Global, seed: u64, modules: u32, runs: bool) -> Result<Answer, Memory>
    ensures { IfOk result (λ a. Makes seed modules runs (answer_of a)) }
{
    let text = ac_make::make(alloc, seed, modules)?;
    if runs {
        run_made(alloc, DEFAULT_STEPS, modules, text.as_slice())
    } else {
        Ok(Answer::printing(alloc, Status::FINISHED, text))
    }
}

// Runs the program of a text, which has so many modules and may make so many applications.
fn run_made(alloc: Global, steps: u64, modules: u32, text: &[u8]) -> Result<Answer, Memory>
    ensures { IfOk result (λ a. RunsInEach steps modules text.now (answer_of a)) }
{
    let shelf = Shelf::empty(alloc);
    match load(alloc, text, &shelf) {
        Ok(loaded) => run_loaded(alloc, steps, modules, text.len(), loaded),
        Err(refusal) => Answer::refused(alloc, refusal),
    }
}

// Runs a program that is loaded, of so many modules and bytes.
fn run_loaded(
    alloc: Global,
    steps: u64,
    modules: u32,
    bytes: usize,
    loaded: Loaded,
) -> Result<Answer, Memory>
    requires { IsLoaded (environment_of loaded.env) (expr_of loaded.main) (typ_of loaded.ty) }
    ensures { IfOk result (λ a. GivesInEach (environment_of loaded.env) (expr_of loaded.main)
        modules bytes steps (answer_of a)) }
{
    match Session::new(alloc, loaded, steps, false) {
        Ok(mut session) => {
            let answer = run_session(alloc, modules, bytes, &mut session);
            drop(session);
            answer
        }
        Err(_) => Err(Memory),
    }
}

// Runs a session. A world in memory never fails.
fn run_session(
    alloc: Global,
    modules: u32,
    bytes: usize,
    session: &mut Session,
) -> Result<Answer, Memory>
    requires fresh { session.old.end ≡ None }
    requires sends { session.old.sends ≡ false }
    ensures { IfOk result (λ a. GivesInEach (environment_of session.old.program.env)
        (expr_of session.old.program.main) modules bytes session.old.steps (answer_of a)) }
{
    let mut world = SureWorld::new(alloc, Text::new(alloc));
    match session.run_without_input(&mut world) {
        RunEnd::Finished => {
            let printed = world.console().as_slice().len();
            print_lines(alloc, modules, bytes, printed)
        }
        RunEnd::Uncaught(exn) => Answer::uncaught(alloc, &exn),
        RunEnd::Spent { steps } => Answer::spent(alloc, steps),
        RunEnd::ReadFault | RunEnd::WriteFault | RunEnd::Memory => Err(Memory),
    }
}

// The answer of a program of so many modules and bytes, which has printed so many bytes.
fn print_lines(alloc: Global, modules: u32, bytes: usize, printed: usize) -> Result<Answer, Memory>
    ensures { IfOk result
        (λ a. answer_of a ≡ printing FINISHED (run_lines modules bytes printed)) }
{
    let lines = run_lines(alloc, modules, bytes, printed)?;
    Ok(Answer::printing(alloc, Status::FINISHED, lines))
}

// Its lines.
fn run_lines(alloc: Global, modules: u32, bytes: usize, printed: usize) -> Result<Text, Memory>
    ensures { IfOk result (λ lines. lines.0 ≡ run_lines modules bytes printed) }
{
    let mut lines = Text::from_slice(alloc, b"modules ")?;
    put_number(alloc, &mut lines, u64::from(modules))?;
    lines.extend(b"\nbytes ")?;
    put_number(alloc, &mut lines, bytes as u64)?;
    lines.extend(b"\nprinted ")?;
    put_number(alloc, &mut lines, printed as u64)?;
    lines.extend(b"\n")?;
    Ok(lines)
}

// Runs of programs in worlds.

ghost use Rattle.std.specs.Prelude.{◌≤◌, length};
ghost use Rattle.ac_types.specs.Limits.{most_shelf_entries};
ghost use Rattle.ac_types.specs.ReadTypes.{typ_of};
ghost use Rattle.ac_terms.specs.Read.{environment_of, expr_of};
ghost use Rattle.ac_load_rules.specs.Accepting.{IsShelf};
ghost use Rattle.ac_load.specs.Loading.{shelf_of};
ghost use Rattle.ac_meaning.specs.Loads.{IsLoaded};

use crate::desk::Desk;
use crate::faults::{Fault, Place, numbers_at};
use crate::outcome::Outcome;
use crate::paced::{Pace, PacedWorld};
use ac_load::{Kind, load};
use ac_outside::MemoryWorld;
use ac_rules::Loaded;
use ac_run::{RunEnd, Session};
use ac_types::{Memory, Text, both};
use acute_files::{ProgramTexts, TextsFault, read_program};
use std::alloc::Global;

const STEPS: u64 = 1_000_000;

/// Runs the program of a file of the desk, perhaps with the shelf of another, in a world with the
/// desk's input, with this pace and this fault.
pub fn run(
    alloc: Global,
    desk: &Desk,
    program: &str,
    list: Option<&str>,
    pace: Pace,
    fault: Option<Fault>,
) -> Result<Outcome, Memory> {
    let mut files = desk.paced_files(alloc, Pace::Whole, None)?;
    match read_program(alloc, &mut files, program, list) {
        Ok(texts) => run_texts(alloc, desk, &texts, pace, fault),
        Err(TextsFault::Memory) => Err(Memory),
        Err(_) => unread(alloc),
    }
}

// A program that isn't run.
fn unread(alloc: Global) -> Result<Outcome, Memory> {
    Ok(Outcome::new(alloc, Text::from_slice(alloc, b"no program")?))
}

fn run_texts(
    alloc: Global,
    desk: &Desk,
    texts: &ProgramTexts,
    pace: Pace,
    fault: Option<Fault>,
) -> Result<Outcome, Memory>
    requires few { length texts.now.shelf.0 ≤ most_shelf_entries }
    requires shelved { IsShelf (shelf_of texts.now.shelf) }
{
    match load(alloc, texts.program.as_slice(), &texts.shelf) {
        Ok(loaded) => run_loaded(alloc, desk, loaded, pace, fault),
        Err(refusal) if refusal.kind == Kind::Memory => Err(Memory),
        Err(_) => unread(alloc),
    }
}

fn run_loaded(
    alloc: Global,
    desk: &Desk,
    program: Loaded,
    pace: Pace,
    fault: Option<Fault>,
) -> Result<Outcome, Memory>
    requires { IsLoaded (environment_of program.env) (expr_of program.main) (typ_of program.ty) }
{
    let mut session = Session::new(alloc, program, STEPS, true)?;
    let mut world = paced_world(alloc, desk, pace, fault)?;
    let end = session.run(&mut world);
    let mut outcome = Outcome::new(alloc, Text::from_slice(alloc, word_of(&end)?)?);
    outcome.add_stream(alloc, world.world.console().as_slice())?;
    outcome.add_stream(alloc, world.world.channel().as_slice())?;
    Ok(outcome)
}

fn paced_world(
    alloc: Global,
    desk: &Desk,
    pace: Pace,
    fault: Option<Fault>,
) -> Result<PacedWorld, Memory> {
    let numbers = both(
        numbers_at(alloc, fault, Place::Reads),
        numbers_at(alloc, fault, Place::Writes),
    );
    let (input, (reads, writes)) = both(desk.input(alloc), numbers)?;
    Ok(PacedWorld {
        world: MemoryWorld::new(alloc, input, reads, writes),
        pace,
        made: 0,
    })
}

fn word_of(end: &RunEnd) -> Result<&'static [u8], Memory> {
    match end {
        RunEnd::Finished => Ok(b"finished"),
        RunEnd::Uncaught(_) => Ok(b"uncaught"),
        RunEnd::Spent { steps: _ } => Ok(b"spent"),
        RunEnd::ReadFault => Ok(b"read fault"),
        RunEnd::WriteFault => Ok(b"write fault"),
        RunEnd::Memory => Err(Memory),
    }
}

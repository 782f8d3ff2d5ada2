// Strings that come to a program in frames.

ghost use Rattle.std.specs.Prelude.{IfOk, IfSome};
ghost use Rattle.ac_types.specs.ReadTypes.{typ_of};
ghost use Rattle.ac_terms.specs.Read.{environment_of, expr_of};
ghost use Rattle.ac_meaning.specs.Loads.{IsLoaded};

use ac_load::{Kind, Shelf, load};
use ac_outside::SureWorld;
use ac_rules::Loaded;
use ac_run::{RunEnd, Session};
use ac_types::{BareExn, Exn, Memory, Text};
use std::alloc::Global;

// Each frame takes one.
const STEPS: u64 = 1_000_000;

// The bytes of a frame's length.
const HEAD: usize = 4;

// The program of a text, if it isn't refused.
fn program(alloc: Global, text: &[u8]) -> Result<Option<Loaded>, Memory>
    ensures { IfOk result (λ o. IfSome o (λ l.
        IsLoaded (environment_of l.env) (expr_of l.main) (typ_of l.ty))) }
{
    match load(alloc, text, &Shelf::empty(alloc)) {
        Ok(loaded) => Ok(Some(loaded)),
        Err(refusal) if refusal.kind == Kind::Memory => Err(Memory),
        Err(_) => Ok(None),
    }
}

/// The string that a program sends first. It is empty where the program is refused or sends none.
pub fn sent_by(alloc: Global, text: &[u8]) -> Result<Text, Memory> {
    let Some(program) = program(alloc, text)? else {
        return Ok(Text::new(alloc));
    };
    let mut session = Session::new(alloc, program, STEPS, true)?;
    let mut world = SureWorld::new(alloc, Text::new(alloc));
    drop(session.run(&mut world));
    let frame = world.channel().as_slice();
    Text::from_slice(alloc, frame.get(HEAD..).unwrap_or(b""))
}

/// What a program prints of each string that it receives, a line each, and behind these a text more
/// where its run doesn't end for the end of its input. No answer comes where it is refused.
pub fn received(alloc: Global, text: &[u8], strings: &[Text]) -> Result<Vec<Text>, Memory> {
    let mut answers = Vec::new(alloc);
    let Some(program) = program(alloc, text)? else {
        return Ok(answers);
    };
    let mut session = Session::new(alloc, program, STEPS, false)?;
    let mut world = SureWorld::new(alloc, framed(alloc, strings)?);
    let end = session.run(&mut world);
    for line in world.console().as_slice().split(|byte| *byte == b'\n') {
        if !line.is_empty() {
            answers.push(Text::from_slice(alloc, line)?)?;
        }
    }
    if !is_end_of_file(&end) {
        answers.push(Text::from_slice(alloc, b"ended otherwise")?)?;
    }
    Ok(answers)
}

fn is_end_of_file(end: &RunEnd) -> bool {
    matches!(end, RunEnd::Uncaught(Exn::Bare(BareExn::EndOfFile)))
}

// The frames of strings, each of which is shorter than a frame may be.
fn framed(alloc: Global, strings: &[Text]) -> Result<Text, Memory> {
    let mut frames = Text::new(alloc);
    for string in strings {
        let bytes = string.as_slice();
        let length = u32::try_from(bytes.len()).unwrap_or(u32::MAX);
        frames.extend(&length.to_be_bytes())?;
        frames.extend(bytes)?;
    }
    Ok(frames)
}

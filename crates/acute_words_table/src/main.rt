//! Prints for each line of its input what it asks for as a command line.
//!
//! The words of a line are parted by single spaces, so two spaces have an empty word between them.
//! An empty line has no words.
#![tactic(auto)]

use ac_types::Memory;
use acute_words::{Audit, Chain, Channel, Check, Command, Make, Pipe, Program, Run, read_words};
use std::alloc::Global;
use std::io;

fn words_in(alloc: Global, line: &str) -> Result<Vec<String>, Memory> {
    let mut words = Vec::new(alloc);
    if line.is_empty() {
        return Ok(words);
    }
    for word in line.split(' ') {
        words.push(String::from_str(alloc, word)?)?;
    }
    Ok(words)
}

fn answer_to(alloc: Global, line: &str) -> Result<String, Memory> {
    let words = words_in(alloc, line)?;
    match read_words(alloc, words.as_slice())? {
        None => Ok(format!(in alloc; "refused")?),
        Some(Command::Run(run)) => run_answer(alloc, run),
        Some(Command::Names(program)) => program_answer(alloc, "names", program),
        Some(Command::Code(program)) => program_answer(alloc, "code", program),
        Some(Command::Make(make)) => make_answer(alloc, make),
        Some(Command::Check(check)) => check_answer(alloc, &check),
        Some(Command::Chain(chain)) => chain_answer(alloc, &chain),
        Some(Command::Audit(audit)) => audit_answer(alloc, audit),
        Some(Command::Pipe(pipe)) => pipe_answer(alloc, pipe),
    }
}

fn run_answer(alloc: Global, run: Run) -> Result<String, Memory> {
    let mut answer = program_answer(alloc, "run", run.program)?;
    add_steps(alloc, &mut answer, run.steps)?;
    add_channel(&mut answer, ", in ", run.input)?;
    add_channel(&mut answer, ", out ", run.output)?;
    Ok(answer)
}

// A command with the files of its program.
fn program_answer(alloc: Global, command: &str, program: Program) -> Result<String, Memory> {
    files_answer(alloc, command, &[program.file], program.shelf)
}

fn make_answer(alloc: Global, make: Make) -> Result<String, Memory> {
    let seed = make.seed;
    let modules = make.modules;
    let mut answer = format!(in alloc; "make {seed}, {modules} modules")?;
    if make.runs {
        answer.push_str(", run")?;
    }
    Ok(answer)
}

fn check_answer(alloc: Global, check: &Check) -> Result<String, Memory> {
    files_answer(alloc, "check", &check.files, check.shelf)
}

fn chain_answer(alloc: Global, chain: &Chain) -> Result<String, Memory> {
    let mut answer = files_answer(alloc, "chain", &chain.files, chain.shelf)?;
    add_steps(alloc, &mut answer, chain.steps)?;
    Ok(answer)
}

fn audit_answer(alloc: Global, audit: Audit) -> Result<String, Memory> {
    let program = audit.program;
    let files = [program.file, audit.channel];
    let mut answer = files_answer(alloc, "audit", &files, program.shelf)?;
    answer.push_str(", as ")?;
    answer.push_str(audit.ty)?;
    Ok(answer)
}

fn pipe_answer(alloc: Global, pipe: Pipe) -> Result<String, Memory> {
    let receiver = pipe.receiver;
    let files = [pipe.tool, pipe.sender, receiver.file];
    let mut answer = files_answer(alloc, "pipe", &files, receiver.shelf)?;
    add_steps(alloc, &mut answer, pipe.steps)?;
    if let Some(written) = pipe.written {
        answer.push_str(", written ")?;
        answer.push_str(written)?;
    }
    Ok(answer)
}

// A command with its files and the list of its shelf, if it has one.
fn files_answer(
    alloc: Global,
    command: &str,
    files: &[&str],
    shelf: Option<&str>,
) -> Result<String, Memory> {
    let mut answer = String::from_str(alloc, command)?;
    for file in files {
        answer.push_str(" ")?;
        answer.push_str(file)?;
    }
    if let Some(shelf) = shelf {
        answer.push_str(", shelf ")?;
        answer.push_str(shelf)?;
    }
    Ok(answer)
}

// Adds how many steps there are.
fn add_steps(alloc: Global, answer: &mut String, steps: u64) -> Result<(), Memory> {
    answer.push_str(format!(in alloc; ", {steps} steps")?.as_str())?;
    Ok(())
}

// Adds what a channel is, if there is one.
fn add_channel(answer: &mut String, word: &str, channel: Option<Channel>) -> Result<(), Memory> {
    if let Some(channel) = channel {
        answer.push_str(word)?;
        match channel {
            Channel::Standard => answer.push_str("stream")?,
            Channel::File(name) => answer.push_str(name)?,
        }
    }
    Ok(())
}

fn main(rt: HostRuntime) -> io::Result<()> {
    for line in rt.lines(rt.alloc()) {
        let line = line?;
        match answer_to(rt.alloc(), line.as_str()) {
            Ok(answer) => println!(rt; "{line}: {answer}")?,
            Err(Memory) => println!(rt; "{line}: out of memory")?,
        }
    }
    Ok(())
}

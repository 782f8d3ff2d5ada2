// The commands, by the texts of their values.

ghost use Rattle.std.specs.Prelude.{◌≡◌, IfOk, map, option_map};
ghost use Rattle.acute_words.specs.Commands.{audit_by, chain_by, check_by, files_of, make_by, pipe_by, program_by, request_of, run_by};

use crate::command::{Audit, Chain, Check, Command, Make, Pipe, Program, Run};
use crate::values::{
    are_one, channel_in, file_in, files_in, is_file_name, modules_of, number_of, shelf_in, steps_of,
};
use ac_types::Memory;
use std::alloc::Global;

/// The files of a program, by the texts of its FILE and of the FILE of its shelf.
pub(crate) fn program_from<'a>(file: Option<&'a str>, shelf: Option<&'a str>) -> Option<Program<'a>>
    ensures { option_map files_of result
        ≡ program_by (option_map (λ s. s.now) file.entry) (option_map (λ s. s.now) shelf.entry) }
{
    let file = file?;
    if !is_file_name(file) {
        return None;
    }
    let shelf = shelf_in(shelf)?;
    Some(Program { file, shelf })
}

/// A `run`, by its program and the texts of its N and of its two CH.
pub(crate) fn run_from<'a>(
    program: Option<Program<'a>>,
    steps: Option<&str>,
    input: Option<&'a str>,
    output: Option<&'a str>,
) -> Option<Command<'a>>
    ensures { option_map request_of result
        ≡ run_by (option_map files_of program.entry) (option_map (λ s. s.now) steps.entry)
        (option_map (λ s. s.now) input.entry) (option_map (λ s. s.now) output.entry) }
{
    let program = program?;
    let steps = steps_of(steps)?;
    let input = channel_in(input)?;
    let output = channel_in(output)?;
    if are_one(input, output) {
        return None;
    }
    Some(Command::Run(Run {
        program,
        steps,
        input,
        output,
    }))
}

/// A `make`, by the texts of its SEED and its MODULES, and whether its program is to be run.
pub(crate) fn make_from<'a>(
    seed: Option<&str>,
    modules: Option<&str>,
    runs: bool,
) -> Option<Command<'a>>
    ensures { option_map request_of result ≡ make_by (option_map (λ s. s.now) seed.entry)
        (option_map (λ s. s.now) modules.entry) runs }
{
    let seed = number_of(seed?, 0, u64::MAX)?;
    let modules = modules_of(modules?)?;
    Some(Command::Make(Make {
        seed,
        modules,
        runs,
    }))
}

/// A `check`, by the texts of its FILEs and of the FILE of its shelf. `Err` for want of memory.
pub(crate) fn check_from<'a>(
    alloc: Global,
    files: Option<&[&'a str]>,
    shelf: Option<&'a str>,
) -> Result<Option<Command<'a>>, Memory>
    ensures { IfOk result (λ o. option_map request_of o
        ≡ check_by (option_map (λ s. map (λ t. t.now) s.now) files.entry)
        (option_map (λ s. s.now) shelf.entry)) }
{
    let Some(shelf) = shelf_in(shelf) else {
        return Ok(None);
    };
    match files_in(alloc, files)? {
        None => Ok(None),
        Some(files) => Ok(Some(Command::Check(Check { files, shelf }))),
    }
}

/// A `chain`, by the texts of its FILEs, of the FILE of its shelf and of its N. `Err` for want of
/// memory.
pub(crate) fn chain_from<'a>(
    alloc: Global,
    files: Option<&[&'a str]>,
    shelf: Option<&'a str>,
    steps: Option<&str>,
) -> Result<Option<Command<'a>>, Memory>
    ensures { IfOk result (λ o. option_map request_of o
        ≡ chain_by (option_map (λ s. map (λ t. t.now) s.now) files.entry)
        (option_map (λ s. s.now) shelf.entry) (option_map (λ s. s.now) steps.entry)) }
{
    let Some(shelf) = shelf_in(shelf) else {
        return Ok(None);
    };
    let Some(steps) = steps_of(steps) else {
        return Ok(None);
    };
    match files_in(alloc, files)? {
        None => Ok(None),
        Some(files) => Ok(Some(Command::Chain(Chain {
            files,
            shelf,
            steps,
        }))),
    }
}

/// An `audit`, by its program and the texts of its CHANNEL and of its TYPE.
pub(crate) fn audit_from<'a>(
    program: Option<Program<'a>>,
    channel: Option<&'a str>,
    ty: Option<&'a str>,
) -> Option<Command<'a>>
    ensures { option_map request_of result
        ≡ audit_by (option_map files_of program.entry) (option_map (λ s. s.now) channel.entry)
        (option_map (λ s. s.now) ty.entry) }
{
    let program = program?;
    let channel = file_in(channel)?;
    let ty = ty?;
    Some(Command::Audit(Audit {
        program,
        channel,
        ty,
    }))
}

/// A `pipe`, by the texts of its TOOL and of its A, by the program of its B, and by the text of its N.
pub(crate) fn pipe_from<'a>(
    tool: Option<&'a str>,
    sender: Option<&'a str>,
    receiver: Option<Program<'a>>,
    written: Option<&'a str>,
) -> Option<Command<'a>>
    ensures { option_map request_of result
        ≡ pipe_by (option_map (λ s. s.now) tool.entry) (option_map (λ s. s.now) sender.entry)
        (option_map files_of receiver.entry) (option_map (λ s. s.now) written.entry) }
{
    let tool = file_in(tool)?;
    let sender = file_in(sender)?;
    let receiver = receiver?;
    let steps = steps_of(written)?;
    Some(Command::Pipe(Pipe {
        tool,
        sender,
        receiver,
        steps,
        written,
    }))
}

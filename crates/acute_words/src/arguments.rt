// What clap is to know of a command and its arguments.

ghost use Rattle.std.specs.Prelude.{◌≡◌, IfOk, false};
ghost use Rattle.clap.specs.Words.{app_of, rule_of};
ghost use Rattle.acute_words.specs.inner.Apps.{app_by, rule_by};

use ac_types::Memory;
use clap::{Arg, ArgAction};
use std::alloc::Global;

/// An argument that a command takes.
#[derive(Clone, Copy)]
pub(crate) enum Argument<'a> {
    /// One word.
    Word(&'a str),
    /// FILEs, at most so many. Where they don't stand next to one another, they are used twice.
    Files(usize),
    /// An option with a value.
    Value(&'a str),
    /// An option without one.
    Flag(&'a str),
}

// What clap is to know of an argument.
fn argument_in<'a>(alloc: Global, argument: Argument<'a>) -> Arg<'a>
    ensures rule { rule_of result ≡ rule_by argument.entry }
    ensures global { result.global ≡ false }
{
    match argument {
        Argument::Word(name) => Arg::new(alloc, name),
        Argument::Files(most) => Arg::new(alloc, "FILE")
            .action(ArgAction::Set)
            .num_args(1usize..=most),
        Argument::Value(name) => Arg::new(alloc, name).long(name),
        Argument::Flag(name) => Arg::new(alloc, name)
            .long(name)
            .action(ArgAction::Set)
            .num_args(0usize),
    }
}

/// What clap is to know of a command of this name that takes these arguments.
pub(crate) fn command_with<'a>(
    alloc: Global,
    name: &'a str,
    arguments: &[Argument<'a>],
) -> Result<clap::Command<'a>, Memory>
    ensures { IfOk result (λ c. app_of c ≡ app_by name.now arguments.now) }
{
    let mut command = clap::Command::new(alloc, name).disable_help_flag(true);
    for argument in arguments {
        command = command.arg(argument_in(alloc, *argument))?;
    }
    Ok(command)
}

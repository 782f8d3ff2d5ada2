// The commands by their names, and what clap is to know of each.

ghost use Rattle.std.specs.Prelude.{◌≡◌, IfOk};
ghost use Rattle.clap.specs.Words.{app_of};
ghost use Rattle.acute_words.specs.Commands.{program_form};
ghost use Rattle.acute_words.specs.inner.ByKind.{form_of, kind_named};
ghost use Rattle.acute_words.specs.inner.Rules.{ReadsForm};

use crate::arguments::{Argument, command_with};
use ac_types::Memory;
use ac_types::limits::{MOST_CHAINED, MOST_CHECKED};
use std::alloc::Global;

/// What a command does.
#[derive(Clone, Copy)]
pub(crate) enum Kind {
    Run,
    Names,
    Code,
    Make,
    Check,
    Chain,
    Audit,
    Pipe,
}

/// What the command of this name does, if there is one.
pub(crate) fn kind_of(name: &str) -> Option<Kind>
    ensures { result ≡ kind_named name.now }
{
    match name {
        "run" => Some(Kind::Run),
        "names" => Some(Kind::Names),
        "code" => Some(Kind::Code),
        "make" => Some(Kind::Make),
        "check" => Some(Kind::Check),
        "chain" => Some(Kind::Chain),
        "audit" => Some(Kind::Audit),
        "pipe" => Some(Kind::Pipe),
        _ => None,
    }
}

/// What clap is to know of a command.
pub(crate) fn command_in<'a>(alloc: Global, kind: Kind) -> Result<clap::Command<'a>, Memory>
    ensures { IfOk result (λ c. ReadsForm (form_of kind) (app_of c)) }
{
    match kind {
        Kind::Run => {
            let arguments = [
                Argument::Word("FILE"),
                Argument::Value("in"),
                Argument::Value("out"),
                Argument::Value("shelf"),
                Argument::Value("steps"),
            ];
            command_with(alloc, "run", &arguments)
        }
        Kind::Names => program_command(alloc, "names"),
        Kind::Code => program_command(alloc, "code"),
        Kind::Make => {
            let arguments = [
                Argument::Word("SEED"),
                Argument::Word("MODULES"),
                Argument::Flag("run"),
            ];
            command_with(alloc, "make", &arguments)
        }
        Kind::Check => {
            let arguments = [Argument::Files(MOST_CHECKED), Argument::Value("shelf")];
            command_with(alloc, "check", &arguments)
        }
        Kind::Chain => {
            let arguments = [
                Argument::Files(MOST_CHAINED),
                Argument::Value("shelf"),
                Argument::Value("steps"),
            ];
            command_with(alloc, "chain", &arguments)
        }
        Kind::Audit => {
            let arguments = [
                Argument::Word("PROGRAM"),
                Argument::Word("CHANNEL"),
                Argument::Value("as"),
                Argument::Value("shelf"),
            ];
            command_with(alloc, "audit", &arguments)
        }
        Kind::Pipe => {
            let arguments = [
                Argument::Word("TOOL"),
                Argument::Word("A"),
                Argument::Word("B"),
                Argument::Value("shelf"),
                Argument::Value("steps"),
            ];
            command_with(alloc, "pipe", &arguments)
        }
    }
}

// What clap is to know of a command of this name that takes a program alone.
fn program_command<'a>(alloc: Global, name: &'a str) -> Result<clap::Command<'a>, Memory>
    ensures { IfOk result (λ c. ReadsForm program_form (app_of c)) }
{
    let arguments = [Argument::Word("FILE"), Argument::Value("shelf")];
    command_with(alloc, name, &arguments)
}

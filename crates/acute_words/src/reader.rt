// The command that the words of a command line give, read by clap.

ghost use Rattle.std.specs.Prelude.{◌≡◌, IfOk, map, option_map, string_bytes};
ghost use Rattle.acute_words.specs.Form.{Given};
ghost use Rattle.acute_words.specs.Commands.{command_of, files_of, program_of, request_of};
ghost use Rattle.acute_words.specs.inner.ByKind.{asked_of};
ghost use Rattle.acute_words.specs.inner.Rules.{row, rows_in};

use crate::command::{Command, Program};
use crate::from_values::{
    audit_from, chain_from, check_from, make_from, pipe_from, program_from, run_from,
};
use crate::kinds::{Kind, command_in, kind_of};
use crate::matching::matches_in;
use ac_types::Memory;
use clap::ArgMatches;
use std::alloc::Global;

// The program that the matches name.
fn program_in<'a>(matches: &ArgMatches<'a>) -> Option<Program<'a>>
    ensures { (g : Given) → rows_in matches.now ≡ map row g →
        option_map files_of result ≡ program_of g }
{
    program_from(matches.get_str("FILE"), matches.get_str("shelf"))
}

// The command that the matches give, or none.
fn command_from<'a>(
    alloc: Global,
    kind: Kind,
    matches: &ArgMatches<'a>,
) -> Result<Option<Command<'a>>, Memory>
    ensures { (g : Given) → rows_in matches.now ≡ map row g →
        IfOk result (λ o. option_map request_of o ≡ asked_of kind g) }
{
    match kind {
        Kind::Run => Ok(run_from(
            program_in(matches),
            matches.get_str("steps"),
            matches.get_str("in"),
            matches.get_str("out"),
        )),
        Kind::Names => Ok(program_in(matches).map(Command::Names)),
        Kind::Code => Ok(program_in(matches).map(Command::Code)),
        Kind::Make => Ok(make_from(
            matches.get_str("SEED"),
            matches.get_str("MODULES"),
            matches.contains_id("run"),
        )),
        Kind::Check => check_from(alloc, matches.get_strs("FILE"), matches.get_str("shelf")),
        Kind::Chain => chain_from(
            alloc,
            matches.get_strs("FILE"),
            matches.get_str("shelf"),
            matches.get_str("steps"),
        ),
        Kind::Audit => Ok(audit_from(
            program_from(matches.get_str("PROGRAM"), matches.get_str("shelf")),
            matches.get_str("CHANNEL"),
            matches.get_str("as"),
        )),
        Kind::Pipe => Ok(pipe_from(
            matches.get_str("TOOL"),
            matches.get_str("A"),
            program_from(matches.get_str("B"), matches.get_str("shelf")),
            matches.get_str("steps"),
        )),
    }
}

/// The command that the words of a command line give, or none where they are refused.
pub fn read_words<'a>(alloc: Global, words: &'a [String]) -> Result<Option<Command<'a>>, Memory>
    ensures { IfOk result (λ o. option_map request_of o ≡ command_of (map string_bytes words.now)) }
{
    let Some(name) = words.first() else {
        return Ok(None);
    };
    let Some(kind) = kind_of(name.as_str()) else {
        return Ok(None);
    };
    match matches_in(command_in(alloc, kind)?, words)? {
        None => Ok(None),
        Some(matches) => command_from(alloc, kind, &matches),
    }
}

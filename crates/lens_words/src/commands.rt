// What clap is to know of the commands.

use ac_types::Memory;
use ac_types::limits::MOST_CHECKED;
use clap::{Arg, ArgAction, Command};
use std::alloc::Global;

/// The version, which the repository's file VERSION has too.
const VERSION: &str = "0.1.0";

// Files, at least one.
fn files<'a>(alloc: Global) -> Arg<'a> {
    Arg::new(alloc, "FILE")
        .action(ArgAction::Append)
        .num_args(1usize..=MOST_CHECKED)
        .required(true)
        .help("The file of a program, or of a module of a shelf")
}

// The list of a shelf.
fn shelf<'a>(alloc: Global) -> Arg<'a> {
    Arg::new(alloc, "shelf")
        .long("shelf")
        .value_name("LIST")
        .help("A file that names the modules of a shelf, as lines URI FILE")
}

// Whether tools are to read what is said.
fn json<'a>(alloc: Global) -> Arg<'a> {
    Arg::new(alloc, "json")
        .long("json")
        .action(ArgAction::SetTrue)
        .help("Prints a line of JSON for each file")
}

fn explain<'a>(alloc: Global) -> Result<Command<'a>, Memory> {
    let about = "Says of each file whether it is accepted, and where and why it isn't";
    let command = Command::new(alloc, "explain")
        .about(about)
        .arg(files(alloc))?
        .arg(shelf(alloc))?
        .arg(json(alloc))?;
    Ok(command)
}

/// What clap is to know of `lens`.
pub(crate) fn lens<'a>(alloc: Global) -> Result<Command<'a>, Memory> {
    let command = Command::new(alloc, "lens")
        .version(VERSION)
        .about("Helps with programs of acute")
        .no_binary_name(true)
        .bin_name("lens")?
        .subcommand_required(true)
        .arg_required_else_help(true)
        .subcommand(explain(alloc)?)?;
    Ok(command)
}

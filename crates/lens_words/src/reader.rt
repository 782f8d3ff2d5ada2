// The words of a command line.

use crate::commands::lens;
use ac_types::Memory;
use clap::error::ErrorKind;
use clap::{ArgMatches, Error};
use std::alloc::Global;

/// To explain files.
#[derive(Drop)]
pub struct Explain<'a> {
    /// The files.
    pub files: Vec<&'a str>,
    /// The file of the list of their shelf, if they have one.
    pub shelf: Option<&'a str>,
    /// Whether in JSON.
    pub json: bool,
}

/// What words ask for.
#[derive(Drop)]
pub enum Asked<'a> {
    /// To explain files.
    Explain(Explain<'a>),
    /// To print this, as help or the version.
    Print(String),
    /// Nothing: the words are refused, and this is said of them.
    Refused(String),
}

// What is said where clap gives no matches.
fn said_of(alloc: Global, error: &Error) -> Result<Asked<'static>, Memory> {
    let kind = error.kind();
    if kind == ErrorKind::OutOfMemory {
        return Err(Memory);
    }
    let text = format!(in alloc; "{error}")?;
    match kind {
        ErrorKind::DisplayHelp | ErrorKind::DisplayVersion => Ok(Asked::Print(text)),
        _ => Ok(Asked::Refused(text)),
    }
}

fn explain_of<'a>(alloc: Global, matches: &ArgMatches<'a>) -> Result<Asked<'a>, Memory> {
    let files = Vec::from_slice(alloc, matches.get_strs("FILE").unwrap_or(&[]))?;
    let shelf = matches.get_str("shelf");
    let json = matches.get_flag("json");
    Ok(Asked::Explain(Explain { files, shelf, json }))
}

/// What the words behind the program's own name ask for.
pub fn asked_by<'a>(alloc: Global, words: &'a [String]) -> Result<Asked<'a>, Memory> {
    let command = lens(alloc)?;
    match command.try_get_matches_from(words) {
        Ok(matches) => match matches.subcommand_matches("explain") {
            Some(matches) => explain_of(alloc, matches),
            None => Ok(Asked::Refused(String::from_str(alloc, "no command\n")?)),
        },
        Err(error) => said_of(alloc, &error),
    }
}

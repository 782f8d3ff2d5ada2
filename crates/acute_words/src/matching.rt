// The words of a command line, read by clap as a form says.

ghost use Rattle.std.specs.Prelude.{◌≡◌, IfOk, drop, map, option_map, string_bytes};
ghost use Rattle.clap.specs.Words.{app_of};
ghost use Rattle.acute_words.specs.Form.{Form, given_of};
ghost use Rattle.acute_words.specs.inner.Rules.{ReadsForm, row, rows_in};

use crate::words::are_fit;
use ac_types::Memory;
use clap::error::ErrorKind;
use clap::{ArgMatches, Command};

/// The matches of a clap command that reads words as a form says, where it takes the words. The
/// first word is the command's own name.
pub(crate) fn matches_in<'a>(
    command: Command<'a>,
    words: &'a [String],
) -> Result<Option<ArgMatches<'a>>, Memory>
    ensures { (f : Form) → ReadsForm f (app_of command.entry) →
        IfOk result (λ o. option_map rows_in o
        ≡ option_map (map row) (given_of f (drop 1 (map string_bytes words.now)))) }
{
    if !are_fit(words) {
        return Ok(None);
    }
    match command.try_get_matches_from(words) {
        Ok(matches) => Ok(Some(matches)),
        Err(error) => match error.kind() {
            ErrorKind::OutOfMemory => Err(Memory),
            _ => Ok(None),
        },
    }
}

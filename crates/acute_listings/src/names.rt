// The names of a program's definitions.

ghost use Rattle.std.specs.Prelude.{◌≡◌, ◌++◌, ◌+◌, ◌<◌, ◌-◌, ◌^◌, [], IfOk, OnOk, codes, cond, option_map};
ghost use Rattle.ac_terms.specs.Read.{entry_of, environment_of, def_of_code, name_of_code};
ghost use Rattle.acute_listings.specs.DefinitionNames.{is_own_entry, digits_of, def_shown, name_line, names_shown};

use crate::digits::put_name;
use ac_terms::{Def, Entry, Env, Seen};
use ac_text::{put_literal, put_number};
use ac_types::{Memory, Name, Text, Word};
use std::alloc::Global;

/// A line for each own definition: its number among them from 0, what it is, and its external name
/// with its 64 digits, or a mark's name.
pub fn names_text(alloc: Global, env: &Env) -> Result<Text, Memory>
    ensures { IfOk result (λ text. text.0 ≡ names_shown (environment_of env.now)) }
{
    let mut text = Text::new(alloc);
    let mut number = 0usize;
    for entry in env.entries() {
        number = put_if_own(alloc, &mut text, number, entry)?;
    }
    Ok(text)
}

// Adds the line of an entry, where it is an own one, and gives the number of the next one.
fn put_if_own(alloc: Global, text: &mut Text, number: usize, entry: &Entry) -> Result<usize, Memory>
    requires { number + 1 < 2 ^ 64 }
    ensures line { OnOk result (text.new.0 ≡ text.old.0 ++
        cond (is_own_entry (entry_of entry.now)) (name_line number (entry_of entry.now)) []) }
    ensures next { IfOk result (λ next. next ≡
        cond (is_own_entry (entry_of entry.now)) (number + 1) number) }
{
    if !is_own(entry) {
        return Ok(number);
    }
    put_line(alloc, text, number, entry)?;
    Ok(number + 1)
}

fn is_own(entry: &Entry) -> bool
    ensures { result ≡ is_own_entry (entry_of entry.now) }
{
    match &entry.seen {
        Seen::Own => true,
        Seen::Shelf(_) => false,
        Seen::Arrived => false,
    }
}

// Adds the line of an entry of that number.
fn put_line(alloc: Global, text: &mut Text, number: usize, entry: &Entry) -> Result<(), Memory>
    ensures { OnOk result (text.new.0 ≡ text.old.0 ++ name_line number (entry_of entry.now)) }
{
    put_number(alloc, text, number as u64)?;
    text.extend(b" ")?;
    put_def(alloc, text, &entry.def, entry.name)?;
    text.extend(b"\n")
}

// Adds what a definition of that name is.
fn put_def(alloc: Global, text: &mut Text, def: &Def, name: Option<Name>) -> Result<(), Memory>
    ensures { OnOk result (text.new.0 ≡
        text.old.0 ++ def_shown (def_of_code def.now) (option_map name_of_code name)) }
{
    match def {
        Def::Module(module) => put_named(alloc, text, b"module ", &module.name, name),
        Def::Import(import) => put_named(alloc, text, b"import ", &import.name, name),
        Def::Mark(mark) => {
            text.extend(b"mark ")?;
            put_literal(text, mark.as_slice())
        }
    }
}

// Adds what a definition is, its external name and its digits.
fn put_named(
    alloc: Global,
    text: &mut Text,
    what: &[u8],
    word: &Word,
    name: Option<Name>,
) -> Result<(), Memory>
    ensures { OnOk result (text.new.0 ≡ text.old.0 ++
        (what.now ++ word.now ++ codes " " ++ digits_of (option_map name_of_code name))) }
{
    text.extend(what)?;
    text.extend(word.text().as_slice())?;
    text.extend(b" ")?;
    put_digits(alloc, text, name)
}

fn put_digits(alloc: Global, text: &mut Text, name: Option<Name>) -> Result<(), Memory>
    ensures { OnOk result (text.new.0 ≡
        text.old.0 ++ digits_of (option_map name_of_code name)) }
{
    match name {
        None => Ok(()),
        Some(name) => put_name(alloc, text, &name),
    }
}

// Whether the definitions of one name have one text.

ghost use Rattle.std.specs.Prelude.{◌≡◌, ◌<◌, ◌≤◌, ◌^◌, true, length, IfOk};
ghost use Rattle.ac_terms.specs.Read.{environment_of};
ghost use Rattle.ac_colours.specs.Chains.{HaveOneText};
ghost use Rattle.ac_chain.specs.ChainTexts.{programs_of};
ghost use Rattle.ac_chain.specs.inner.Known.{Keeps, KeepsEntry, KeepsEntries, NamesGrow};
ghost use Rattle.ac_chain.specs.inner.Running.{AreFew};

use ac_canon::{def_text, told_name};
use ac_names::{AddFault, NameTable};
use ac_rules::Loaded;
use ac_terms::Env;
use ac_types::{Memory, Name, Text};
use std::alloc::Global;

// Names with their texts.
#[derive(Drop)]
struct Known {
    table: NameTable,
    // There are at most so many.
    most: u32,
    ghost few: { length table ≤ most },
}

impl Known {
    // Whether the name has this text, new or known. Numbers of names have 32 bits, and past them
    // there is no room.
    fn add(&mut self, name: Name, text: Text) -> Result<bool, Memory>
        ensures keeps { IfOk result (λ same. same ≡ true → Keeps self.new.table name.0 text.0) }
        ensures grows { NamesGrow self.old.table self.new.table }
    {
        if self.most >= u32::MAX - 1 {
            return Err(Memory);
        }
        self.most += 1;
        match self.table.add(name, text) {
            Ok(_) => Ok(true),
            Err(AddFault::Clash { .. }) => Ok(false),
            Err(AddFault::Memory) => Err(Memory),
        }
    }
}

/// Whether, among the definitions of all programs, those of one name have one text. `false` says
/// nothing.
pub fn have_one_text(alloc: Global, programs: &[Loaded]) -> Result<bool, Memory>
    requires { AreFew programs.now }
    ensures { IfOk result (λ one. one ≡ true → HaveOneText (programs_of programs.now)) }
{
    let mut known = Known {
        table: NameTable::new(alloc),
        most: 0,
    };
    for program in programs {
        if !add_entries(alloc, &mut known, &program.env)? {
            return Ok(false);
        }
    }
    Ok(true)
}

// Adds the entries of a program, and gives whether each name has one text.
fn add_entries(alloc: Global, known: &mut Known, env: &Env) -> Result<bool, Memory>
    requires { length env.now.entries < 2 ^ 32 }
    ensures keeps { IfOk result (λ one. one ≡ true →
        KeepsEntries (environment_of env.now) known.new.table) }
    ensures grows { NamesGrow known.old.table known.new.table }
{
    for i in 0..env.len() as u32 {
        if !add_entry(alloc, known, env, i)? {
            return Ok(false);
        }
    }
    Ok(true)
}

// Adds entry `i`, where it has a text.
fn add_entry(alloc: Global, known: &mut Known, env: &Env, i: u32) -> Result<bool, Memory>
    ensures keeps { IfOk result (λ one. one ≡ true →
        KeepsEntry (environment_of env.now) i known.new.table) }
    ensures grows { NamesGrow known.old.table known.new.table }
{
    match told_name(env, i) {
        None => Ok(true),
        Some(name) => known.add(*name, def_text(alloc, env, i)?),
    }
}

// A generated program: its modules, and a print of each.

ghost use Rattle.std.specs.Prelude.{◌≡◌, ◌++◌, IfOk, OnOk};
ghost use Rattle.ac_make.specs.ProgramText.{module_lines, module_text, print_line, of_each, program_text};

use crate::draws::Draws;
use crate::lines::{put_get, put_head, put_make, put_print};
use ac_types::{Memory, Text};
use std::alloc::Global;

/// The text of a program of so many modules, which the seed gives: some 270 bytes for each.
pub fn make(alloc: Global, seed: u64, modules: u32) -> Result<Text, Memory>
    ensures { IfOk result (λ text. text.0 ≡ program_text seed modules) }
{
    let mut text = Text::new(alloc);
    let modules = u64::from(modules);
    put_modules(alloc, &mut text, seed, modules)?;
    put_prints(alloc, &mut text, modules)?;
    text.extend(b"()\n")?;
    Ok(text)
}

// Puts all modules. Each takes two draws, module 0 too.
fn put_modules(alloc: Global, text: &mut Text, seed: u64, modules: u64) -> Result<(), Memory>
    ensures { OnOk result (text.new.0 ≡ text.old.0 ++ of_each (module_text seed) modules) }
{
    let mut draws = Draws::new(seed);
    for i in 0..modules {
        let first = draws.draw();
        let second = draws.draw();
        put_module(alloc, text, i, first, second)?;
    }
    Ok(())
}

// Puts module `i`, for which these numbers were drawn.
fn put_module(alloc: Global, text: &mut Text, i: u64, first: u64, second: u64) -> Result<(), Memory>
    ensures { OnOk result (text.new.0 ≡ text.old.0 ++ module_lines i first second) }
{
    put_head(alloc, text, i)?;
    text.extend(b"struct type t = int\n")?;
    put_make(alloc, text, first)?;
    put_get(alloc, text, i, second)
}

// Puts a print of each module.
fn put_prints(alloc: Global, text: &mut Text, modules: u64) -> Result<(), Memory>
    ensures { OnOk result (text.new.0 ≡ text.old.0 ++ of_each print_line modules) }
{
    for i in 0..modules {
        put_print(alloc, text, i)?;
    }
    Ok(())
}

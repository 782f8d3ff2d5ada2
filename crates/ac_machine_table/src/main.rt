//! Prints for each line of its input, a row of code, what the machine does with it up to its end.
//!
//! A row is a budget, `refused` where each pause but a print is answered by an exception, and then
//! blocks of entry 0, of which the first runs. Entry 0 is a module whose fields `f` and `g` have
//! blocks 1 and 2; entry 1 is an import that is linked to it. What is printed by the code stands as
//! it is; a machine that has stopped runs once more, and at last stands the number of applications.
#![tactic(auto)]

mod blocks;
mod defs;
mod going;
mod notes;
mod patterns;

use ac_text::Page;
use ac_types::Memory;
use blocks::{number, table_of};
use defs::entries;
use going::follow;
use std::alloc::Global;
use std::io::{self, Write};

// The budget of a row, and whether pauses are answered by exceptions.
fn conditions(text: &str) -> (u8, bool) {
    match text.split_once(' ') {
        None => (number(text), false),
        Some((budget, _)) => (number(budget), true),
    }
}

fn notes_of(alloc: Global, row: &str) -> Result<Page, Memory> {
    let mut notes = Page::new(alloc);
    if let Some((before, code)) = row.split_once(": ") {
        let (budget, refused) = conditions(before);
        let env = entries(alloc)?;
        let table = table_of(alloc, code)?;
        follow(alloc, &env, &table, u64::from(budget), refused, &mut notes)?;
    }
    Ok(notes)
}

fn main(rt: HostRuntime) -> io::Result<()> {
    for row in rt.lines(rt.alloc()) {
        let row = row?;
        println!(rt; "{row}")?;
        match notes_of(rt.alloc(), row.as_str()) {
            Ok(notes) => rt.stdout().write_all(notes.bytes().unwrap_or(b"!"))?,
            Err(_) => rt.stdout().write_all(b"!")?,
        }
        println!(rt)?;
    }
    Ok(())
}

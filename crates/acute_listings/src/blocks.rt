// Blocks.

ghost use Rattle.std.specs.Prelude.{◌≡◌, ◌++◌, ⊤, map, IfOk, OnOk, MatchOption};
ghost use Rattle.ac_terms.specs.Read.{home_of};
ghost use Rattle.ac_code.specs.ReadCode.{instr_of, block_of, table_code};
ghost use Rattle.acute_listings.specs.Listing.{instr_line, instr_lines, home_shown, block_lines, listing_of};

use crate::instructions::{put_instr, put_numbered};
use ac_code::{Block, CodeId, CodeTable, Instr};
use ac_terms::Home;
use ac_types::{Memory, Text};
use std::alloc::Global;

/// The listing of all blocks of a table: for each its number and home, and then a line for each
/// instruction.
pub fn listing(alloc: Global, table: &CodeTable) -> Result<Text, Memory>
    ensures { IfOk result (λ text. text.0 ≡ listing_of (table_code table.now)) }
{
    let mut text = Text::new(alloc);
    for number in 0..table.len() {
        put_block_if_any(alloc, &mut text, number, table.block(CodeId(number)))?;
    }
    Ok(text)
}

// Adds the lines of a block, where there is one.
fn put_block_if_any(
    alloc: Global,
    text: &mut Text,
    number: usize,
    block: Option<&Block>,
) -> Result<(), Memory>
    ensures { OnOk result (MatchOption block.entry ⊤
        (λ b. text.new.0 ≡ text.old.0 ++ block_lines number (block_of b.now))) }
{
    match block {
        Some(block) => put_block(alloc, text, number, block),
        None => Ok(()),
    }
}

// Adds the lines of a block.
fn put_block(alloc: Global, text: &mut Text, number: usize, block: &Block) -> Result<(), Memory>
    ensures { OnOk result (text.new.0 ≡ text.old.0 ++ block_lines number (block_of block.now)) }
{
    put_numbered(alloc, text, b"block ", number as u64)?;
    text.extend(b" ")?;
    put_home(alloc, text, block.home)?;
    text.extend(b"\n")?;
    put_instrs(alloc, text, block.instrs.as_slice())
}

fn put_home(alloc: Global, text: &mut Text, home: Home) -> Result<(), Memory>
    ensures { OnOk result (text.new.0 ≡ text.old.0 ++ home_shown (home_of home)) }
{
    match home {
        Home::Main => text.extend(b"main"),
        Home::In(entry) => put_numbered(alloc, text, b"entry ", u64::from(entry)),
    }
}

// Adds a line for each instruction of a block.
fn put_instrs(alloc: Global, text: &mut Text, instrs: &[Instr]) -> Result<(), Memory>
    ensures { OnOk result (text.new.0 ≡ text.old.0 ++ instr_lines (map instr_of instrs.now)) }
{
    for address in 0..instrs.len() {
        put_line(alloc, text, address, &instrs[address])?;
    }
    Ok(())
}

// Adds the line of the instruction at that address.
fn put_line(alloc: Global, text: &mut Text, address: usize, instr: &Instr) -> Result<(), Memory>
    ensures { OnOk result (text.new.0 ≡ text.old.0 ++ instr_line address (instr_of instr.now)) }
{
    put_numbered(alloc, text, b"", address as u64)?;
    text.extend(b" ")?;
    put_instr(alloc, text, instr)?;
    text.extend(b"\n")
}

// The blocks of terms, packed values and entries.

ghost use Rattle.std.specs.Prelude.{◌≡◌, ◌+◌, ◌++◌, ◌∷◌, [], length, map, OnOk, OnErr, IfOk};
ghost use Rattle.ac_terms.specs.Read.{home_of, expr_of, value_of, environment_of, field_of};
ghost use Rattle.ac_code.specs.ReadCode.{instr_of, table_code, block_id};
ghost use Rattle.ac_generate.specs.inner.Drafts.{draft_of};
ghost use Rattle.ac_generate.specs.Generated.{own_block, ending, with_blocks, generated, block_number, value_generated, value_number, fields_generated, field_numbers, entry_generated, KeepsBlocks};

use crate::writer::Writer;
use ac_code::{Block, CodeId, CodeTable, Context, Instr};
use ac_terms::{Def, Env, Field, Home, PVal, Term};
use ac_types::{Many, Memory};
use std::alloc::Global;

/// Adds the code of a term at that home to the table: the blocks of its lambdas, and a last one,
/// which returns the value of a field, or stops at the end of the main program. Gives the number
/// of the last. Blocks that were there stay, and an `Err` leaves the table as it was.
pub fn generate(
    alloc: Global,
    _env: &Env,
    home: Home,
    term: &Term,
    table: &mut CodeTable,
) -> Result<CodeId, Memory>
    ensures ok { OnOk result (table_code table.new ≡ generated (home_of home) (expr_of term.now)
        (table_code table.old)) }
    ensures number { IfOk result (λ id. id.0 ≡ block_number (expr_of term.now)
        (table_code table.old)) }
    ensures blocks { KeepsBlocks table.new table.old }
    ensures fields { table.new.fields ≡ table.old.fields }
    ensures err { OnErr result (table.new ≡ table.old) }
{
    let mut writer = Writer::new(alloc, table.len());
    let outside = Context::Empty;
    writer.term(home, term, &outside)?;
    writer.store(home, ending(home), table)
}

/// Adds the code of a packed value to the table: the blocks of its functions, and a last one at
/// home in the main program, which returns the value. Gives the number of the last. Blocks that
/// were there stay, and an `Err` leaves the table as it was.
pub fn generate_value(
    alloc: Global,
    _env: &Env,
    value: &PVal,
    table: &mut CodeTable,
) -> Result<CodeId, Memory>
    ensures ok { OnOk result (table_code table.new ≡ value_generated (value_of value.now)
        (table_code table.old)) }
    ensures number { IfOk result (λ id. id.0 ≡ value_number (value_of value.now)
        (table_code table.old)) }
    ensures blocks { KeepsBlocks table.new table.old }
    ensures fields { table.new.fields ≡ table.old.fields }
    ensures err { OnErr result (table.new ≡ table.old) }
{
    let mut writer = Writer::new(alloc, table.len());
    writer.value(value)?;
    writer.store(Home::Main, Instr::Return, table)
}

/// Adds the code of the fields of entry `i` to the table, in order, and keeps their numbers. Only
/// a module has fields. Blocks that were there stay, and an `Err` leaves the table as it was.
pub fn generate_entry(alloc: Global, env: &Env, i: u32, table: &mut CodeTable) -> Result<(), Memory>
    ensures ok { OnOk result (table_code table.new ≡ entry_generated (environment_of env.now) i
        (table_code table.old)) }
    ensures blocks { KeepsBlocks table.new table.old }
    ensures err { OnErr result (table.new ≡ table.old) }
{
    let blocks = table.len();
    match add_entry(alloc, env, i, table) {
        Ok(()) => Ok(()),
        Err(e) => {
            table.cut(blocks);
            Err(e)
        }
    }
}

// Adds the code of the fields of entry `i`, and keeps their numbers. An `Err` may leave more
// blocks.
fn add_entry(alloc: Global, env: &Env, i: u32, table: &mut CodeTable) -> Result<(), Memory>
    ensures ok { OnOk result (table_code table.new ≡ entry_generated (environment_of env.now) i
        (table_code table.old)) }
    ensures blocks { KeepsBlocks table.new table.old }
    ensures err { OnErr result (table.new.fields ≡ table.old.fields) }
{
    let Some(entry) = env.entry(i) else {
        return Ok(());
    };
    match &entry.def {
        Def::Module(module) => {
            let numbers = fields(alloc, env, Home::In(i), module.fields.as_slice(), table)?;
            table.set_fields(i as usize, numbers)
        }
        Def::Import(_) => Ok(()),
        Def::Mark(_) => Ok(()),
    }
}

// Adds the code of each field, and gives the numbers of their own blocks. An `Err` may leave more
// blocks.
fn fields(
    alloc: Global,
    env: &Env,
    home: Home,
    fields: &[Field],
    table: &mut CodeTable,
) -> Result<Many<CodeId>, Memory>
    ensures ok { OnOk result (table_code table.new ≡ fields_generated (home_of home)
        (map field_of fields.now) (table_code table.old)) }
    ensures numbers { IfOk result (λ ids. map block_id ids ≡ field_numbers (home_of home)
        (map field_of fields.now) (table_code table.old)) }
    ensures blocks { KeepsBlocks table.new table.old }
    ensures fields { table.new.fields ≡ table.old.fields }
{
    let mut numbers = Many::new(alloc);
    for field in fields {
        let id = generate(alloc, env, home, &field.term, table)?;
        numbers.push(id)?;
    }
    Ok(numbers)
}

// The last instruction of a block of that home.
fn ending(home: Home) -> Instr
    ensures { instr_of result ≡ ending (home_of home) }
{
    match home {
        Home::Main => Instr::Stop,
        Home::In(_) => Instr::Return,
    }
}

impl Writer {
    // Ends the block that is being written, and adds all blocks to a table. Gives the number of the
    // last. An `Err` leaves the table as it was.
    fn store(self, home: Home, last: Instr, table: &mut CodeTable) -> Result<CodeId, Memory>
        ensures ok { OnOk result (table_code table.new ≡ with_blocks
            ((draft_of self).blocks ++ own_block (home_of home)
            ((draft_of self).instrs ++ instr_of last ∷ []) ∷ []) (table_code table.old)) }
        ensures number { IfOk result (λ id. id.0 ≡ length table.old.blocks + length
            (draft_of self).blocks) }
        ensures blocks { KeepsBlocks table.new table.old }
        ensures fields { table.new.fields ≡ table.old.fields }
        ensures err { OnErr result (table.new ≡ table.old) }
    {
        let Writer {
            alloc: _,
            first: _,
            mut finished,
            mut instrs,
        } = self;
        instrs.push(last)?;
        finished.push(Block {
            home,
            lambda: None,
            context: Context::Empty,
            instrs: Many::from_vec(instrs),
        })?;
        table.append(finished)?;
        Ok(CodeId(table.len() - 1))
    }
}

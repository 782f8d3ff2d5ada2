// The code of entries.

ghost use Rattle.std.specs.Prelude.{◌≡◌, ◌<◌, ◌≤◌, ◌^◌, OnOk, length, drop};
ghost use Rattle.ac_terms.specs.Read.{environment_of};
ghost use Rattle.ac_code.specs.ReadCode.{table_code};
ghost use Rattle.ac_generate.specs.Generated.{entries_generated};

use crate::generating::generate_entry;
use ac_code::CodeTable;
use ac_terms::Env;
use ac_types::Memory;
use std::alloc::Global;

/// Adds the code of the entries from number `first` on to the table. Blocks that were there stay; an
/// `Err` may leave the code of some entries.
pub fn generate_entries(
    alloc: Global,
    env: &Env,
    first: usize,
    table: &mut CodeTable,
) -> Result<(), Memory>
    requires few { length env.now.entries < 2 ^ 32 }
    requires within { first ≤ length env.now.entries }
    ensures { OnOk result (table_code table.new ≡ entries_generated (environment_of env.now) first
        (drop first (environment_of env.now)) (table_code table.old)) }
{
    for i in first..env.len() {
        generate_entry(alloc, env, i as u32, table)?;
    }
    Ok(())
}

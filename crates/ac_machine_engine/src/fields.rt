// The values of fields, which are computed at most once.

ghost use Rattle.ac_terms.specs.Defs.{module_behind, field_number};
ghost use Rattle.std.specs.Prelude.{◌≡◌, ◌<◌, length, option_map, IfOk, OnOk, MatchOption, Some, None, true, get_or, cond, nat_eq, ℕ, position};
ghost use Rattle.ac_types.specs.Types.{same_bytes};
ghost use Rattle.ac_terms.specs.Read.{environment_of, home_of, def_of_code, entry_of};
ghost use Rattle.ac_code.specs.Code.{module_fields};
ghost use Rattle.ac_code.specs.ReadCode.{table_code, block_id};
ghost use Rattle.ac_values.specs.Values.{stands_as};
ghost use Rattle.ac_machine_engine.specs.States.{keeping};
ghost use Rattle.ac_machine_engine.specs.Fields.{block_of_own, ref_block};
ghost use Rattle.ac_machine_engine.specs.Machine.{pushes_field};
ghost use Rattle.ac_machine_engine.specs.Held.{core, Sound};
ghost use Rattle.ac_machine_engine.specs.Steps.{Does, KeepsAll};

use crate::engine::{EMPTY, Engine, Step};
use ac_code::{CodeId, CodeTable};
use ac_terms::{Def, Entry, Env, Field, Home};
use ac_types::{Many, Memory, Word};
use ac_values::Value;

impl Engine {
    /// Pushes the value of the field of that block, where it is kept; else it runs the block.
    #[inline(always)]
    pub fn field(&mut self, block: Option<CodeId>) -> Result<Step, Memory>
        requires sound { Sound self.old }
        ensures { IfOk result (λ s. Does self.new s
            (pushes_field (option_map block_id block) (core self.old))) }
    {
        let Some(block) = block else {
            return Ok(Step::Wrong);
        };
        match self.kept_at(block) {
            Some(v) => self.push(v),
            None => self.enter(block, EMPTY, true),
        }
    }

    // The value that is kept of a block.
    #[inline(always)]
    fn kept_at(&self, block: CodeId) -> Option<Value>
        requires sound { Sound self.now }
        ensures { MatchOption result ((core self.now).kept block.0 ≡ None)
            (λ v. (v.0 < length self.now.store) ×
            ((core self.now).kept block.0 ≡ Some (stands_as self.now.store v.0))) }
    {
        let kept = self.kept.as_slice();
        if block.0 < kept.len() {
            kept[block.0]
        } else {
            None
        }
    }

    /// Keeps the value of a block.
    pub fn keep(&mut self, block: CodeId, v: Value) -> Result<(), Memory>
        requires sound { Sound self.old }
        requires within { v.0 < length self.old.store }
        ensures { OnOk result (KeepsAll self.old self.new
            (record (core self.old) {
              kept = keeping block.0 (stands_as self.old.store v.0)
                  (core self.old).kept;
            })) }
    {
        keep_at(&mut self.kept, block.0, v)?;
        Ok(())
    }
}

// Another value at an index of a list, which is longer by nothing where it was too short.
fn keep_at(kept: &mut Vec<Option<Value>>, index: usize, v: Value) -> Result<(), Memory>
    ensures { OnOk result ((k : ℕ) → get_or kept.new.items k None ≡ cond (nat_eq k index) (Some v)
        (get_or kept.old.items k None)) }
{
    for _ in kept.len()..index {
        kept.push(None)?;
    }
    if index < kept.len() {
        kept[index] = Some(v);
    } else {
        kept.push(Some(v))?;
    }
    Ok(())
}

/// The block of a field of a home.
pub fn own_block(table: &CodeTable, home: Home, field: u16) -> Option<CodeId>
    ensures { option_map block_id result ≡ block_of_own (table_code table.now) (home_of home)
        field }
{
    match home {
        Home::Main => None,
        Home::In(entry) => table.field(entry as usize, field as usize),
    }
}

/// The block of the field x of an entry, or of what that is linked to.
pub fn ref_block(env: &Env, table: &CodeTable, j: u32, x: &Word) -> Option<CodeId>
    ensures { option_map block_id result ≡ ref_block (environment_of env.now) (table_code table.now)
        j x.now }
{
    let module = module_behind(env.entry(j)?, j)?;
    let field = field_number(env.entry(module)?, x)?;
    table.field(module as usize, field)
}

// The module that entry j is, or the one that it is linked to.
fn module_behind(entry: &Entry, j: u32) -> Option<u32>
    ensures { result ≡ module_behind j (entry_of entry.now) }
{
    match &entry.def {
        Def::Module(_) => Some(j),
        Def::Import(_) => entry.link,
        Def::Mark(_) => None,
    }
}

// The number of the field of that name.
#[tactic(auto, using(crate::proofs::FieldLaws::named))]
fn field_number(entry: &Entry, x: &Word) -> Option<usize>
    ensures { result ≡ field_number x.now (module_fields (def_of_code entry.now.def)) }
{
    match &entry.def {
        Def::Module(module) => index_of(&module.fields, x),
        Def::Import(_) => None,
        Def::Mark(_) => None,
    }
}

fn index_of(fields: &Many<Field>, x: &Word) -> Option<usize>
    ensures { result ≡ position (λ f. same_bytes f.name x.now) fields.now }
{
    fields.as_slice().iter().position(|field| field.name.is(x))
}

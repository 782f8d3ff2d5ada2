// The canonical texts of modules and imports.

ghost use Rattle.std.specs.Prelude.{◌≡◌, ◌++◌, [], Some, map, is_some, option_map, unwrap_or, OnOk, IfOk, IsSome};
ghost use Rattle.std.specs.Option.{option_copied};
ghost use Rattle.ac_types.specs.Partial.{given};
ghost use Rattle.ac_terms.specs.Defs.{Environment, name_at};
ghost use Rattle.ac_terms.specs.Read.{environment_of, name_of_code, bytes_of, field_of, module_of_code, import_of_code, def_of_code};
ghost use Rattle.ac_terms.specs.Spelling.{two_written, listed};
ghost use Rattle.ac_terms.specs.SpelledBy.{field_bytes, module_bytes, import_bytes};
ghost use Rattle.ac_terms.specs.Names.{text_of_def, text_of_entry};

use crate::counts::{put_count_u16, put_word};
use crate::sigs::{put_constraint, put_sig, put_typed_names, put_version};
use crate::spelling::{ByName, Spelling};
use crate::terms::put_term;
use ac_bytes::Out;
use ac_terms::{Def, Env, Field, Import, Module, tags};
use ac_types::{Constraint, Memory, Name, Text};
use std::alloc::Global;

/// Whether entry `i` is a module or an import by version, which have a canonical text.
#[tactic(auto, using(crate::proofs::EntryForms::entry_forms))]
pub fn has_text(env: &Env, i: u32) -> bool
    ensures { result ≡ is_some (text_of_entry (environment_of env.now) i) }
{
    match env.entry(i) {
        None => false,
        Some(entry) => is_spelled(&entry.def),
    }
}

/// The name that entry `i` keeps, where it has a canonical text.
#[tactic(auto, using(ac_terms::proofs::EnvLaws::env_laws))]
pub fn told_name(env: &Env, i: u32) -> Option<&Name>
    ensures { option_map name_of_code (option_copied result) ≡
        given (is_some (text_of_entry (environment_of env.now) i))
        (name_at (environment_of env.now) i) }
{
    if !has_text(env, i) {
        return None;
    }
    env.entry(i)?.name.as_ref()
}

fn is_spelled(def: &Def) -> bool
    ensures { (E : Environment) → result ≡ is_some (text_of_def E (def_of_code def.now)) }
{
    match def {
        Def::Module(_) => true,
        Def::Import(import) => match &import.constraint {
            Constraint::Ranges { atoms: _, star: _ } => true,
            Constraint::Exact(_) => false,
        },
        Def::Mark(_) => false,
    }
}

/// The canonical text of entry `i`.
#[tactic(auto, using(crate::proofs::EntryForms::entry_forms))]
pub fn def_text(alloc: Global, env: &Env, i: u32) -> Result<Text, Memory>
    requires { IsSome (text_of_entry (environment_of env.now) i) }
    ensures { IfOk result (λ x. text_of_entry (environment_of env.now) i ≡ Some (bytes_of x)) }
{
    let mut out = Out::new(alloc);
    if let Some(entry) = env.entry(i) {
        put_def(&mut out, env, &entry.def)?;
    }
    Ok(out.into_text())
}

// Puts the canonical text of a definition, and nothing where it has none.
#[tactic(auto, using(crate::proofs::EntryForms::entry_forms))]
fn put_def(out: &mut Out, env: &Env, def: &Def) -> Result<(), Memory>
    ensures { OnOk result (out.new ≡ out.old ++
        unwrap_or (text_of_def (environment_of env.now) (def_of_code def.now)) []) }
{
    match def {
        Def::Module(module) => put_module(out, &ByName { env }, module),
        Def::Import(import) => match &import.constraint {
            Constraint::Ranges { atoms: _, star: _ } => put_import(out, &ByName { env }, import),
            Constraint::Exact(_) => Ok(()),
        },
        Def::Mark(_) => Ok(()),
    }
}

/// Puts a module.
#[tactic(auto, using(crate::proofs::Lists::lists))]
pub fn put_module<S: Spelling>(out: &mut Out, spelling: &S, m: &Module) -> Result<(), Memory>
    ensures { OnOk result (out.new ≡ out.old ++ module_bytes (S.spelled_type spelling.now)
        (S.spelled_reference spelling.now) (module_of_code m.now)) }
{
    out.put_u8(tags::DEF_MODULE)?;
    put_word(out, &m.name)?;
    put_version(out, m.version.atoms.as_slice())?;
    put_sig(out, spelling, &m.sig)?;
    put_typed_names(out, spelling, m.types.as_slice())?;
    put_fields(out, spelling, m.fields.as_slice())
}

/// Puts an import without its resolvespec.
#[tactic(auto, using(crate::proofs::Lists::lists))]
pub fn put_import<S: Spelling>(out: &mut Out, spelling: &S, import: &Import) -> Result<(), Memory>
    ensures { OnOk result (out.new ≡ out.old ++ import_bytes (S.spelled_type spelling.now)
        (import_of_code import.now)) }
{
    out.put_u8(tags::DEF_IMPORT)?;
    put_word(out, &import.name)?;
    put_sig(out, spelling, &import.sig)?;
    put_constraint(out, &import.constraint)?;
    put_typed_names(out, spelling, import.like.as_slice())
}

// Puts a field of a module.
#[tactic(auto, using(crate::proofs::Lists::lists))]
fn put_field<S: Spelling>(out: &mut Out, spelling: &S, field: &Field) -> Result<(), Memory>
    ensures { OnOk result (out.new ≡ out.old ++ field_bytes (S.spelled_type spelling.now)
        (S.spelled_reference spelling.now) (field_of field.now)) }
{
    put_word(out, &field.name)?;
    spelling.put_type(out, &field.ty)?;
    put_term(out, spelling, &field.term)
}

// Puts how many fields a module has, and each.
#[tactic(auto, using(crate::proofs::Lists::lists))]
fn put_fields<S: Spelling>(out: &mut Out, spelling: &S, fields: &[Field]) -> Result<(), Memory>
    ensures { OnOk result (out.new ≡ out.old ++ listed two_written (field_bytes
        (S.spelled_type spelling.now) (S.spelled_reference spelling.now))
        (map field_of fields.now)) }
{
    put_count_u16(out, fields.len())?;
    for field in fields {
        put_field(out, spelling, field)?;
    }
    Ok(())
}

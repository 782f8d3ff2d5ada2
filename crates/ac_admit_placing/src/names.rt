// The name of a definition behind the entries that are there and those that come.

ghost use Rattle.std.specs.Prelude.{◌≡◌, ◌++◌, Some, map, option_map, slice_get, IfOk};
ghost use Rattle.sha2.specs.Sha256.{sha256};
ghost use Rattle.ac_terms.specs.Defs.{AModule, AnImport, name_at};
ghost use Rattle.ac_terms.specs.Names.{name_by};
ghost use Rattle.ac_terms.specs.Spelling.{type_bytes};
ghost use Rattle.ac_terms.specs.Read.{environment_of, entry_of, name_of_code, def_of_code, module_of_code, import_of_code};
ghost use Rattle.ac_canon.specs.Canon.{kept};
ghost use Rattle.ac_admit_placing.specs.inner.Behind.{all_entries, kept_entry_name};

use ac_bytes::Out;
use ac_canon::{Spelling, put_import, put_module, put_type};
use ac_terms::{Def, Entry, Env, Import, Module};
use ac_types::{Constraint, Memory, Name, Text, Ty};
use sha2::{Digest, Sha256};
use std::alloc::Global;

// The spelling of canonical texts behind the entries that are there and those that come.
#[derive(Clone, Copy)]
struct Behind<'a> {
    env: &'a Env,
    more: &'a [Entry],
}

impl<'a> Spelling for Behind<'a> {
    ghost spelled_type = { λ _ T. type_bytes T };

    ghost spelled_reference = { λ s j. kept (environment_of s.env.now ++ map entry_of
        s.more.now) j };

    fn put_type(&self, out: &mut Out, ty: &Ty) -> Result<(), Memory> {
        put_type(out, ty)
    }

    fn put_reference(&self, out: &mut Out, entry: u32) -> Result<(), Memory> {
        match kept_name(self.env, self.more, entry as usize) {
            None => Ok(()),
            Some(name) => out.put_bytes(name.0.as_slice()),
        }
    }
}

// The name that an entry keeps.
fn kept_name(env: &Env, more: &[Entry], j: usize) -> Option<Name>
    ensures { option_map name_of_code result ≡ name_at
        (environment_of env.now ++ map entry_of more.now) j }
{
    let many = env.len();
    if j < many {
        return name_in(env.entries(), j);
    }
    name_in(more, j - many)
}

fn name_in(entries: &[Entry], j: usize) -> Option<Name>
    ensures { option_map name_of_code result ≡ kept_entry_name (slice_get entries.now j) }
{
    match entries.get(j) {
        None => None,
        Some(entry) => entry.name,
    }
}

fn digest(text: &Text) -> Name
    ensures { result.0 ≡ sha256 text.now.0 }
{
    Name(Sha256::digest(text.as_slice()))
}

fn module_name(alloc: Global, spelling: &Behind<'_>, m: &Module) -> Result<Name, Memory>
    ensures { IfOk result (λ n. name_by sha256 (all_entries spelling.now)
        (AModule (module_of_code m.now)) ≡ Some n.0) }
{
    let mut out = Out::new(alloc);
    put_module(&mut out, spelling, m)?;
    let text = out.into_text();
    Ok(digest(&text))
}

fn import_name(alloc: Global, spelling: &Behind<'_>, i: &Import) -> Result<Name, Memory>
    ensures { IfOk result (λ n. name_by sha256 (all_entries spelling.now)
        (AnImport (import_of_code i.now)) ≡ Some n.0) }
{
    match &i.constraint {
        Constraint::Exact(name) => Ok(*name),
        Constraint::Ranges { atoms: _, star: _ } => {
            let mut out = Out::new(alloc);
            put_import(&mut out, spelling, i)?;
            let text = out.into_text();
            Ok(digest(&text))
        }
    }
}

/// The name of a definition behind the entries that are there and those that come, `None` for a
/// mark.
pub fn name_behind(
    alloc: Global,
    env: &Env,
    more: &[Entry],
    def: &Def,
) -> Result<Option<Name>, Memory>
    ensures { IfOk result (λ o. option_map name_of_code o ≡ name_by sha256
        (environment_of env.now ++ map entry_of more.now) (def_of_code def.now)) }
{
    let spelling = Behind { env, more };
    match def {
        Def::Module(m) => Ok(Some(module_name(alloc, &spelling, m)?)),
        Def::Import(i) => Ok(Some(import_name(alloc, &spelling, i)?)),
        Def::Mark(_) => Ok(None),
    }
}

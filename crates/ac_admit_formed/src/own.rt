// The definitions of a packet by themselves, each under its name.

ghost use Rattle.std.specs.Prelude.{◌≡◌, IfOk, Some, None, map};
ghost use Rattle.sha2.specs.Sha256.{sha256};
ghost use Rattle.ac_terms.specs.Defs.{Arrived, AModule, AnImport};
ghost use Rattle.ac_terms.specs.Names.{name_by};
ghost use Rattle.ac_terms.specs.Read.{environment_of, entry_of, pdef_of, module_of_code, import_of_code};
ghost use Rattle.ac_rules.specs.Packets.{alone};

use ac_bytes::Out;
use ac_canon::{ByName, put_import, put_module};
use ac_terms::{Def, Entry, Env, Import, Module, PDef, Seen};
use ac_types::{Constraint, Memory, Name, Text, both};
use sha2::{Digest, Sha256};
use std::alloc::Global;

fn digest(text: &Text) -> Name
    ensures { result.0 ≡ sha256 text.now.0 }
{
    Name(Sha256::digest(text.as_slice()))
}

// The name of a module behind some entries.
fn module_name(alloc: Global, env: &Env, m: &Module) -> Result<Name, Memory>
    ensures { IfOk result (λ n. name_by sha256 (environment_of env.now)
        (AModule (module_of_code m.now)) ≡ Some n.0) }
{
    let mut out = Out::new(alloc);
    put_module(&mut out, &ByName { env }, m)?;
    let text = out.into_text();
    Ok(digest(&text))
}

// The name of an import behind some entries.
fn import_name(alloc: Global, env: &Env, i: &Import) -> Result<Name, Memory>
    ensures { IfOk result (λ n. name_by sha256 (environment_of env.now)
        (AnImport (import_of_code i.now)) ≡ Some n.0) }
{
    match &i.constraint {
        Constraint::Exact(name) => Ok(*name),
        Constraint::Ranges { atoms: _, star: _ } => {
            let mut out = Out::new(alloc);
            put_import(&mut out, &ByName { env }, i)?;
            let text = out.into_text();
            Ok(digest(&text))
        }
    }
}

fn lone(alloc: Global, env: &Env, def: &PDef) -> Result<Entry, Memory>
    ensures { IfOk result (λ e. entry_of e ≡ record {
      def = pdef_of def.now;
      name = name_by sha256 (environment_of env.now) (pdef_of def.now);
      seen = Arrived;
      link = None;
    }) }
{
    match def {
        PDef::Module(m) => {
            let (name, m) = both(module_name(alloc, env, m), m.copy(alloc))?;
            Ok(Entry {
                def: Def::Module(m),
                name: Some(name),
                seen: Seen::Arrived,
                link: None,
            })
        }
        PDef::Import(i) => {
            let (name, i) = both(import_name(alloc, env, i), i.copy(alloc))?;
            Ok(Entry {
                def: Def::Import(i),
                name: Some(name),
                seen: Seen::Arrived,
                link: None,
            })
        }
    }
}

/// The definitions of a packet by themselves, each under its name and without a link.
pub fn alone(alloc: Global, defs: &[PDef]) -> Result<Env, Memory>
    ensures { IfOk result (λ env. environment_of env ≡ alone sha256 (map pdef_of defs.now)) }
{
    let mut env = Env::new(alloc);
    for def in defs {
        let entry = lone(alloc, &env, def)?;
        env.push(entry)?;
    }
    Ok(env)
}

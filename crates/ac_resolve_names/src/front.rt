// The entries in front, and those that are called by their names.

ghost use Rattle.std.specs.Prelude.{◌≡◌, ◌<◌, ◌^◌, [], length, option_and_then, option_map, is_some, IfOk, IsTrue};
ghost use Rattle.std.specs.List.{list_all};
ghost use Rattle.sha2.specs.Sha256.{sha256};
ghost use Rattle.ac_terms.specs.Defs.{name_at};
ghost use Rattle.ac_terms.specs.Names.{name_by};
ghost use Rattle.ac_terms.specs.Read.{environment_of, def_of_code, name_of_code};
ghost use Rattle.ac_resolve_scopes.specs.Scopes.{scope_behind, definition, external_names, with_entry, after_all};
ghost use Rattle.ac_resolve_names.specs.Entries.{keeps_name, is_called, own_entry};

use crate::latest::Latest;
use crate::naming::name_of_def;
use crate::outer::Outer;
use ac_terms::{Def, Entry, Env, Seen};
use ac_types::{Memory, Name, Word};
use std::alloc::Global;

/// Entries, and the numbers of those that are called by their names.
#[derive(Drop)]
pub struct Front {
    /// The entries, of which all but marks keep names.
    pub env: Env,
    /// What the names call: entries that keep names.
    pub externals: Latest<u32>,
    ghost named: { IsTrue (list_all keeps_name (environment_of env)) },
    ghost called: { IsTrue (list_all (is_called (environment_of env)) externals) },
}

#[tactic(auto, unfolding(crate::specs::Fronts::front_of, crate::specs::Fronts::outer_of))]
impl Front {
    ghost use Rattle.ac_resolve_names.specs.Fronts.{front_of, outer_of};

    /// Behind these entries, none of which is called by its name.
    pub fn behind(alloc: Global, env: Env) -> Front
        requires { IsTrue (list_all keeps_name (environment_of env)) }
        ensures { front_of result ≡ scope_behind (environment_of env) }
    {
        Front {
            env,
            externals: Latest::new(alloc),
        }
    }

    /// Behind these entries, each of which is called by its name but marks.
    pub fn seeing(alloc: Global, env: Env) -> Result<Front, Memory>
        requires names { IsTrue (list_all keeps_name (environment_of env)) }
        requires length { length (environment_of env) < 2 ^ 32 }
        ensures { IfOk result (λ f. front_of f ≡ after_all with_entry (scope_behind [])
            (environment_of env)) }
    {
        let mut externals = Latest::new(alloc);
        let mut number = 0;
        let entries = env.entries();
        for entry in entries {
            let more = calling(alloc, externals, &entry.def, number)?;
            externals = more;
            number += 1;
        }
        Ok(Front { env, externals })
    }

    /// Behind one more entry, which is own, named and not linked.
    pub fn with(self, alloc: Global, def: Def) -> Result<Front, Memory>
        requires { length (front_of self).entries < 2 ^ 32 }
        ensures { IfOk result (λ f. front_of f ≡
            with_entry (front_of self) (own_entry (front_of self).entries (def_of_code def))) }
    {
        let Front { env, externals } = self;
        let number = env.len() as u32;
        match known(alloc, &env, externals, &def, number) {
            Ok((externals, name)) => {
                let mut env = env;
                let seen = Seen::Own;
                env.push(Entry {
                    def,
                    name,
                    seen,
                    link: None,
                })?;
                Ok(Front { env, externals })
            }
            Err(memory) => {
                drop(def);
                Err(memory)
            }
        }
    }

    /// The entries.
    pub fn into_env(self) -> Env
        ensures { environment_of result ≡ (front_of self).entries }
    {
        let Front { env, externals } = self;
        drop(externals);
        env
    }

    /// The name that the entry keeps which is called so, `None` exactly where none is called so.
    pub fn name_of(&self, called: &Word) -> Option<Name>
        ensures name { option_map name_of_code result ≡ option_and_then
            (name_at (front_of self.now).entries) (definition (front_of self.now) called.now) }
        ensures there { is_some result ≡ is_some (definition (front_of self.now) called.now) }
    {
        let number = *self.externals.find(called)?;
        self.env.entry(number)?.name
    }

    /// The scope at the front of a signature, a struct or a likespec.
    pub fn outer<'a>(&'a self, alloc: Global) -> Outer<'a>
        ensures scope { outer_of result ≡ front_of self.now }
        ensures fields { (outer_of result).fields ≡ [] }
    {
        Outer::new(alloc, &self.env, &self.externals)
    }
}

// The names that call entries, with that of one more definition behind them, and its name.
fn known(
    alloc: Global,
    env: &Env,
    names: Latest<u32>,
    def: &Def,
    number: u32,
) -> Result<(Latest<u32>, Option<Name>), Memory>
    ensures names { IfOk result (λ p. p.0 ≡ external_names (def_of_code def.now) number names) }
    ensures name { IfOk result (λ p. option_map name_of_code p.1 ≡
        name_by sha256 (environment_of env.now) (def_of_code def.now)) }
{
    let names = calling(alloc, names, def, number)?;
    let name = name_of_def(alloc, env, def)?;
    Ok((names, name))
}

// The names that call entries, with that of one more, but for a mark's.
fn calling(alloc: Global, names: Latest<u32>, def: &Def, number: u32) -> Result<Latest<u32>, Memory>
    ensures { IfOk result (λ l. l ≡ external_names (def_of_code def.now) number names) }
{
    match def {
        Def::Module(module) => names.with(alloc, &module.name, number),
        Def::Import(import) => names.with(alloc, &import.name, number),
        Def::Mark(_) => Ok(names),
    }
}

// What an abstract type stands for.

ghost use Rattle.std.specs.Prelude.{◌≡◌, ◌<◌, ◌^◌, length, option_map};
ghost use Rattle.std.specs.Option.{option_copied};
ghost use Rattle.ac_types.specs.ReadTypes.{typ_of};
ghost use Rattle.ac_terms.specs.Read.{environment_of, def_of_code};
ghost use Rattle.ac_rules.specs.Views.{representation, type_of_entry, module_type};

use ac_terms::{Def, Env};
use ac_types::{Constraint, Name, Ty, Word, type_named};

/// The representation of the abstract type `t` of a name, `None` exactly where there is none.
#[tactic(auto, using(ac_terms::proofs::EnvLaws::env_laws))]
pub fn rep<'a>(env: &'a Env, n: &Name, t: &Word) -> Option<&'a Ty>
    requires { length env.now.entries < 2 ^ 32 }
    ensures { option_map typ_of (option_copied result) ≡ representation (environment_of env.now)
        n.now.0 t.now }
{
    let i = env.find(n)?;
    let entry = env.entry(i)?;
    type_in_entry(env, t, &entry.def, entry.link)
}

#[tactic(auto, using(ac_terms::proofs::EnvLaws::env_laws))]
fn type_in_entry<'a>(env: &'a Env, t: &Word, def: &'a Def, link: Option<u32>) -> Option<&'a Ty>
    ensures { option_map typ_of (option_copied result) ≡ type_of_entry (environment_of env.now)
        t.now (def_of_code def.now) link }
{
    match def {
        Def::Module(m) => type_named(m.types.as_slice(), t),
        Def::Import(i) => match &i.constraint {
            Constraint::Ranges { atoms: _, star: _ } => type_named(i.like.as_slice(), t),
            Constraint::Exact(_) => match link {
                None => None,
                Some(j) => type_in_module(env, t, j),
            },
        },
        Def::Mark(_) => None,
    }
}

#[tactic(auto, using(ac_terms::proofs::EnvLaws::env_laws))]
fn type_in_module<'a>(env: &'a Env, t: &Word, j: u32) -> Option<&'a Ty>
    ensures { option_map typ_of (option_copied result) ≡ module_type (environment_of env.now) t.now
        j }
{
    match env.entry(j) {
        None => None,
        Some(entry) => match &entry.def {
            Def::Module(m) => type_named(m.types.as_slice(), t),
            Def::Import(_) => None,
            Def::Mark(_) => None,
        },
    }
}

// Whether definitions are well formed.

ghost use Rattle.std.specs.Prelude.{◌≡◌, ◌<◌, ◌^◌, IfOk, IsTrue, length, map};
ghost use Rattle.std.specs.List.{list_all};
ghost use Rattle.ac_types.specs.Partial.{first_wrong};
ghost use Rattle.ac_terms.specs.Bounds.{fits_def};
ghost use Rattle.ac_terms.specs.Defs.{Entry, AnImport};
ghost use Rattle.ac_terms.specs.Read.{environment_of, def_of_code, import_of_code};
ghost use Rattle.ac_rules.specs.Modules.{is_well_formed, has_closed_sig, has_sound_likes, has_right_likes};
ghost use Rattle.ac_admit_formed.specs.inner.Fields.{has_seen_fields};

use crate::back::speaks_back;
use crate::closed::is_closed_sig;
use crate::distinct::has_distinct_names;
use crate::fields::has_sound_fields;
use ac_modules::like_missing;
use ac_terms::{Def, Env, Import};
use ac_types::{Constraint, Memory};
use std::alloc::Global;

// Whether the signature of a definition speaks of no own types but its abstract ones.
fn has_closed_sig(def: &Def) -> bool
    ensures { result ≡ has_closed_sig (def_of_code def.now) }
{
    match def {
        Def::Module(m) => is_closed_sig(&m.sig),
        Def::Import(i) => is_closed_sig(&i.sig),
        Def::Mark(_) => true,
    }
}

// Whether an import by version has a likespec for each abstract type, and one by exact name none.
#[tactic(auto, using(crate::proofs::BoundLaws::import_types))]
fn has_right_likes(i: &Import) -> bool
    requires { IsTrue (fits_def (AnImport (import_of_code i.now))) }
    ensures { result ≡ has_right_likes (import_of_code i.now).constraint (import_of_code i.now) }
{
    match &i.constraint {
        Constraint::Ranges { atoms: _, star: _ } => like_missing(i).is_none(),
        Constraint::Exact(_) => i.like.len() == 0,
    }
}

fn has_sound_likes(def: &Def) -> bool
    requires { IsTrue (fits_def (def_of_code def.now)) }
    ensures { result ≡ has_sound_likes (def_of_code def.now) }
{
    match def {
        Def::Module(_) => true,
        Def::Import(i) => has_right_likes(i),
        Def::Mark(_) => true,
    }
}

// Whether a module's fields compute nothing, have their types, and cover its signature.
#[tactic(auto, using(crate::proofs::BoundLaws::module_lists))]
fn has_sound_def(alloc: Global, env: &Env, i: u32, def: &Def) -> Result<bool, Memory>
    requires entries { length env.now.entries < 2 ^ 32 }
    requires fits { IsTrue (fits_def (def_of_code def.now)) }
    ensures { IfOk result (λ b. b ≡ has_seen_fields (environment_of env.now) i
        (def_of_code def.now)) }
{
    match def {
        Def::Module(m) => has_sound_fields(alloc, env, i, m),
        Def::Import(_) => Ok(true),
        Def::Mark(_) => Ok(true),
    }
}

// Whether definition `i` is well formed. Its fields are typed last.
#[tactic(auto, using(crate::proofs::FormedLaws::formed_laws))]
fn is_well_formed(alloc: Global, env: &Env, i: u32, def: &Def) -> Result<bool, Memory>
    requires entries { length env.now.entries < 2 ^ 32 }
    requires fits { IsTrue (fits_def (def_of_code def.now)) }
    ensures { IfOk result (λ b. b ≡ is_well_formed (environment_of env.now) i
        (def_of_code def.now)) }
{
    let spoken = speaks_back(env, i, def);
    // `&`, not `&&`: one branch fewer in the proof
    let asked = has_distinct_names(def) & (has_closed_sig(def) & has_sound_likes(def));
    if !(spoken & asked) {
        return Ok(false);
    }
    has_sound_def(alloc, env, i, def)
}

/// The first definition that isn't well formed among those of an environment, `None` where each is.
pub fn ill_formed(alloc: Global, env: &Env) -> Result<Option<u32>, Memory>
    requires entries { length env.now.entries < 2 ^ 32 }
    requires fits { IsTrue (list_all (λ (e : Entry). fits_def e.def) (environment_of env.now)) }
    ensures { IfOk result (λ o. o ≡ first_wrong 0 (is_well_formed (environment_of env.now))
        (map (λ (e : Entry). e.def) (environment_of env.now))) }
{
    let entries = env.entries();
    for i in 0..entries.len() {
        if !is_well_formed(alloc, env, i as u32, &entries[i].def)? {
            return Ok(Some(i as u32));
        }
    }
    Ok(None)
}

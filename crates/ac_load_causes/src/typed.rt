// Fields and terms that are typed.

ghost use Rattle.std.specs.Prelude.{◌≡◌, ◌+◌, ◌<◌, ◌≤◌, ◌^◌, ⊤, map, drop, length, option_map, IfOk, IsTrue};
ghost use Rattle.std.specs.List.{list_all};
ghost use Rattle.ac_terms.specs.Read.{environment_of, expr_of, field_of, def_of_code};
ghost use Rattle.ac_rules.specs.Modules.{is_typed, are_typed};
ghost use Rattle.ac_check.specs.Checking.{Answers};
ghost use Rattle.ac_load_rules.specs.Causes.{IllTyped, first_at, ill_typed};
ghost use Rattle.ac_load_rules.specs.Counted.{has_counted, is_counted};
ghost use Rattle.ac_load_causes.specs.PartCauses.{term_type};
ghost use Rattle.ac_load_causes.specs.inner.Asked.{is_typed_def};

use ac_check::{CheckFault, type_of};
use ac_check_views::{Site, is_view_of};
use ac_terms::{Def, Env, Field, Home, Term};
use ac_types::{Many, Memory, Ty};
use std::alloc::Global;

/// The first definition behind the first `front` entries, counted from there, with an ill-typed
/// field.
pub fn first_ill_typed(alloc: Global, env: &Env, front: usize) -> Result<Option<u32>, Memory>
    requires few { length env.now.entries < 2 ^ 32 }
    requires within { front ≤ length env.now.entries }
    requires counted { IsTrue (list_all has_counted (environment_of env.now)) }
    ensures { IfOk result (λ o. option_map IllTyped o ≡
        first_at 0 (ill_typed (environment_of env.now) front)
        (drop front (environment_of env.now))) }
{
    let entries = env.entries();
    for i in front..entries.len() {
        if !is_typed_def(alloc, env, i as u32, &entries[i].def)? {
            return Ok(Some((i - front) as u32));
        }
    }
    Ok(None)
}

// Whether the fields of a definition, that of entry `i`, are typed.
fn is_typed_def(alloc: Global, env: &Env, i: u32, def: &Def) -> Result<bool, Memory>
    requires few { length env.now.entries < 2 ^ 32 }
    requires counted { IsTrue (is_counted (def_of_code def.now)) }
    ensures { IfOk result (λ b. b ≡ is_typed_def (environment_of env.now) i (def_of_code
        def.now)) }
{
    match def {
        Def::Module(module) => are_typed(alloc, env, i, module.fields.as_slice()),
        Def::Import(_) => Ok(true),
        Def::Mark(_) => Ok(true),
    }
}

fn are_typed(alloc: Global, env: &Env, i: u32, fields: &[Field]) -> Result<bool, Memory>
    requires few { length env.now.entries < 2 ^ 32 }
    requires counted { length fields.now < 2 ^ 32 }
    ensures { IfOk result (λ b. b ≡ are_typed (environment_of env.now) i 0 (map field_of
        fields.now)) }
{
    for g in 0..fields.len() {
        if !is_typed(alloc, env, i, g as u32, &fields[g])? {
            return Ok(false);
        }
    }
    Ok(true)
}

// Whether field `g` of entry `i` has the type that it writes, as the entry sees it.
fn is_typed(alloc: Global, env: &Env, i: u32, g: u32, field: &Field) -> Result<bool, Memory>
    requires { length env.now.entries < 2 ^ 32 }
    ensures { IfOk result (λ b. b ≡ is_typed (environment_of env.now) i g (field_of field.now)) }
{
    let home = Home::In(i);
    match type_of(alloc, env, home, g, i, &Many::new(alloc), &field.term) {
        Ok(ty) => {
            let site = Site {
                env,
                home,
                own: g as usize,
                refs: i as usize,
            };
            let same = is_view_of(&ty, &field.ty, &site);
            drop(ty);
            Ok(same)
        }
        Err(CheckFault::IllTyped) => Ok(false),
        Err(CheckFault::Memory) => Err(Memory),
    }
}

/// The type of a term in the main program over all entries.
pub fn term_type(alloc: Global, env: &Env, term: &Term) -> Result<Ty, CheckFault>
    requires { length env.now.entries < 2 ^ 32 }
    ensures { Answers result (term_type (environment_of env.now) (expr_of term.now)) }
{
    let refs = env.len() as u32;
    type_of(alloc, env, Home::Main, 0, refs, &Many::new(alloc), term)
}

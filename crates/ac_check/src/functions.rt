// Functions of packed values, and their homes.

ghost use Rattle.std.specs.Prelude.{◌≡◌, ◌<◌, ◌^◌, [], IfOk, length, map};
ghost use Rattle.ac_types.specs.ReadTypes.{typ_of};
ghost use Rattle.ac_terms.specs.Read.{environment_of, home_of, expr_of};
ghost use Rattle.ac_rules.specs.Plain.{may_travel};
ghost use Rattle.ac_rules.specs.Typing.{fields_of, is_function_home};
ghost use Rattle.ac_check.specs.inner.Captured.{declared_agrees, travels_as, travels_with};

use ac_check_terms::declared_type;
use ac_check_views::{Site, ends, head, is_seen_as};
use ac_terms::{Def, Env, Home, Term};
use ac_types::{Many, Memory, Ty};
use std::alloc::Global;

// How many fields a home has.
#[tactic(auto, using(ac_terms::proofs::EnvLaws::env_laws))]
fn field_count(env: &Env, home: Home) -> usize
    ensures { result ≡ length (fields_of (environment_of env.now) (home_of home)) }
{
    match home {
        Home::Main => 0,
        Home::In(i) => match env.entry(i) {
            None => 0,
            Some(entry) => match &entry.def {
                Def::Module(m) => m.fields.len(),
                Def::Import(_) => 0,
                Def::Mark(_) => 0,
            },
        },
    }
}

// Whether a home is the main program or a module.
#[tactic(auto, using(ac_terms::proofs::EnvLaws::env_laws))]
fn is_function_home(env: &Env, home: Home) -> bool
    ensures { result ≡ is_function_home (environment_of env.now) (home_of home) }
{
    match home {
        Home::Main => true,
        Home::In(i) => match env.entry(i) {
            None => false,
            Some(entry) => match &entry.def {
                Def::Module(_) => true,
                Def::Import(_) => false,
                Def::Mark(_) => false,
            },
        },
    }
}

// Whether a function has in its home a type as that home sees it, where the variables around it have
// the types `vars`, the newest first, and each captured value counts as of the type beside it.
fn is_declared_as<'a>(
    alloc: Global,
    env: &'a Env,
    home: Home,
    vars: &'a Many<Ty>,
    l: &'a Term,
    ty: &'a Ty,
) -> Result<bool, Memory>
    requires { length env.now.entries < 2 ^ 32 }
    ensures { IfOk result (λ b. b ≡ declared_agrees (environment_of env.now) (home_of home)
        (map typ_of vars.now) (expr_of l.now) (typ_of ty.now)) }
{
    let site = Site {
        env,
        home,
        own: field_count(env, home),
        refs: env.len(),
    };
    let Some(found) = declared_type(alloc, &site, vars, l)? else {
        return Ok(false);
    };
    let fits = is_seen_as(ty, &found, &site);
    drop(found);
    Ok(fits)
}

/// Whether a function of a home may travel at a type, where the variables around it have the types
/// `vars`, the newest first: the home is the main program or a module, and the function has there
/// the type as the home sees it, each captured value counting as of the type beside it.
pub fn travels_with<'a>(
    alloc: Global,
    env: &'a Env,
    home: Home,
    vars: &'a Many<Ty>,
    l: &'a Term,
    ty: &'a Ty,
) -> Result<bool, Memory>
    requires { length env.now.entries < 2 ^ 32 }
    ensures { IfOk result (λ b. b ≡ travels_with (environment_of env.now) (home_of home)
        (map typ_of vars.now) (expr_of l.now) (typ_of ty.now)) }
{
    travels_as(alloc, env, home, vars, l, head(env, ty))
}

/// The same where there are no variables around the function.
pub fn may_travel<'a>(
    alloc: Global,
    env: &'a Env,
    home: Home,
    l: &'a Term,
    ty: &'a Ty,
) -> Result<bool, Memory>
    requires { length env.now.entries < 2 ^ 32 }
    ensures { IfOk result (λ b. b ≡ may_travel (environment_of env.now) (home_of home)
        (expr_of l.now) (typ_of ty.now)) }
{
    may_travel_as(alloc, env, home, l, head(env, ty))
}

// Whether a function of a home may travel at a type that is as it is at the top.
fn travels_as<'a>(
    alloc: Global,
    env: &'a Env,
    home: Home,
    vars: &'a Many<Ty>,
    l: &'a Term,
    at: &'a Ty,
) -> Result<bool, Memory>
    requires { length env.now.entries < 2 ^ 32 }
    ensures { IfOk result (λ b. b ≡ travels_as (environment_of env.now) (home_of home)
        (map typ_of vars.now) (expr_of l.now) (typ_of at.now)) }
{
    if ends(at).is_none() {
        return Ok(false);
    }
    if !is_function_home(env, home) {
        return Ok(false);
    }
    is_declared_as(alloc, env, home, vars, l, at)
}

/// The same where there are no variables around the function.
pub fn may_travel_as<'a>(
    alloc: Global,
    env: &'a Env,
    home: Home,
    l: &'a Term,
    at: &'a Ty,
) -> Result<bool, Memory>
    requires { length env.now.entries < 2 ^ 32 }
    ensures { IfOk result (λ b. b ≡ travels_as (environment_of env.now) (home_of home) []
        (expr_of l.now) (typ_of at.now)) }
{
    let vars = Many::new(alloc);
    let travels = travels_as(alloc, env, home, &vars, l, at);
    drop(vars);
    travels
}

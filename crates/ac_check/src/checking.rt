// The type of a term, and whether a packed value is of a type.

ghost use Rattle.std.specs.Prelude.{◌≡◌, ◌<◌, ◌^◌, IfErr, IfOk, OnOk, false, length, map};
ghost use Rattle.ac_types.specs.ReadTypes.{typ_of};
ghost use Rattle.ac_terms.specs.Read.{environment_of, home_of, expr_of, value_of};
ghost use Rattle.ac_rules.specs.Views.{Coloured};
ghost use Rattle.ac_rules.specs.Typing.{Holds, type_of, holds};
ghost use Rattle.ac_check.specs.Checking.{Answers, RefusesWhere};
ghost use Rattle.ac_check.specs.inner.Captured.{captured_hold};

use crate::fault::CheckFault;
use crate::heads::Heads;
use crate::holding::{captured_hold, holds};
use ac_check_terms::declared_type;
use ac_check_views::Site;
use ac_terms::{Env, Home, PVal, Term};
use ac_types::{Many, Memory, Ty};
use std::alloc::Global;

/// The type of a term, where the variables have the types `ctx`, the newest first. A term may speak
/// of the own fields before `own` and of the entries before `refs`; a function in a captured value
/// may speak of all of its home's.
pub fn type_of(
    alloc: Global,
    env: &Env,
    home: Home,
    own: u32,
    refs: u32,
    ctx: &Many<Ty>,
    t: &Term,
) -> Result<Ty, CheckFault>
    requires { length env.now.entries < 2 ^ 32 }
    ensures { Answers result (type_of Coloured false (environment_of env.now)
        (record { home = home_of home; own = own; refs = refs; vars = map typ_of ctx.now })
        (expr_of t.now)) }
{
    let site = Site {
        env,
        home,
        own: own as usize,
        refs: refs as usize,
    };
    match declared_type(alloc, &site, ctx, t) {
        Err(_) => Err(CheckFault::Memory),
        Ok(None) => Err(CheckFault::IllTyped),
        Ok(Some(ty)) => match captures_hold(alloc, t, env) {
            Ok(true) => Ok(ty),
            Ok(false) => {
                drop(ty);
                Err(CheckFault::IllTyped)
            }
            Err(_) => {
                drop(ty);
                Err(CheckFault::Memory)
            }
        },
    }
}

// Whether each captured value of a term is of the type beside it.
fn captures_hold<'a>(alloc: Global, t: &'a Term, env: &'a Env) -> Result<bool, Memory>
    requires { length env.now.entries < 2 ^ 32 }
    ensures { IfOk result (λ b. b ≡ captured_hold (environment_of env.now) (expr_of t.now)) }
{
    let mut heads = Heads::new(alloc);
    captured_hold(alloc, t, env, &mut heads)
}

/// Whether a packed value is of a type: an abstract type is its representation, and nothing of a
/// type is written out.
pub fn check_value(alloc: Global, env: &Env, t: &Ty, v: &PVal) -> Result<(), CheckFault>
    requires { length env.now.entries < 2 ^ 32 }
    ensures accepted { OnOk result (Holds (environment_of env.now) (value_of v.now)
        (typ_of t.now)) }
    ensures refused { IfErr result (λ f. RefusesWhere f (holds Coloured false
        (environment_of env.now) (value_of v.now) (typ_of t.now))) }
{
    match value_holds(alloc, v, t, env) {
        Ok(true) => Ok(()),
        Ok(false) => Err(CheckFault::IllTyped),
        Err(_) => Err(CheckFault::Memory),
    }
}

// Whether a packed value is of a type. The heads of abstract types are found for this value alone: an
// entry that comes later may be the first of a name.
fn value_holds<'a>(alloc: Global, v: &'a PVal, t: &'a Ty, env: &'a Env) -> Result<bool, Memory>
    requires { length env.now.entries < 2 ^ 32 }
    ensures { IfOk result (λ b. b ≡ holds Coloured false (environment_of env.now) (value_of v.now)
        (typ_of t.now)) }
{
    let mut heads = Heads::new(alloc);
    holds(alloc, v, t, env, &mut heads)
}

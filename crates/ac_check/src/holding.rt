// Whether packed values are of a type, and the captured values of terms of the types beside them.

ghost use Rattle.std.specs.Prelude.{◌≡◌, ◌<◌, ◌^◌, IfOk, false, length, map};
ghost use Rattle.ac_types.specs.ReadTypes.{typ_of};
ghost use Rattle.ac_terms.specs.Terms.{exprs, arms, pvalues};
ghost use Rattle.ac_terms.specs.Read.{environment_of, expr_of, arm_of, value_of};
ghost use Rattle.ac_rules.specs.Views.{Coloured};
ghost use Rattle.ac_rules.specs.Typing.{holds, all_hold, each_holds};
ghost use Rattle.ac_check_views.specs.Sites.{typs_of};
ghost use Rattle.ac_check.specs.inner.Captured.{captured_hold, all_captured_hold, arms_captured_hold};
ghost use Rattle.ac_check.specs.inner.Heads.{AreHeads};

use crate::functions::may_travel_as;
use crate::heads::Heads;
use ac_check_views::{Base, is_base, list_item, option_item, tuple_parts};
use ac_terms::{Arm, Env, PVal, Term};
use ac_types::{Memory, Ty, both};
use std::alloc::Global;

/// Whether each captured value of a term is of the type beside it.
#[cycle(hold)]
#[tactic(auto, using(ac_check_terms::proofs::TermLaws::typing_laws))]
pub fn captured_hold<'a>(
    alloc: Global,
    t: &'a Term,
    env: &'a Env,
    heads: &mut Heads<'a>,
) -> Result<bool, Memory>
    requires few { length env.now.entries < 2 ^ 32 }
    requires heads { AreHeads (environment_of env.now) heads.old }
    ensures heads { AreHeads (environment_of env.now) heads.new }
    ensures answer { IfOk result (λ b. b ≡ captured_hold (environment_of env.now) (expr_of t.now)) }
{
    // `&`, not `&&`, between parts: one branch fewer in the proof of each arm
    match t {
        Term::ExnOf(_, text) => captured_hold(alloc, text, env, heads),
        Term::Tuple(parts) => all_captured_hold(alloc, parts.as_slice(), env, heads),
        Term::Present(inner) => captured_hold(alloc, inner, env, heads),
        Term::Cons(head, tail) => {
            let (a, b) = both(
                captured_hold(alloc, head, env, heads),
                captured_hold(alloc, tail, env, heads),
            )?;
            Ok(a & b)
        }
        Term::Lam(_, body) => captured_hold(alloc, body, env, heads),
        Term::Rec(_, _, body) => captured_hold(alloc, body, env, heads),
        Term::App(f, a) => {
            let (a, b) = both(
                captured_hold(alloc, f, env, heads),
                captured_hold(alloc, a, env, heads),
            )?;
            Ok(a & b)
        }
        Term::Let(_, bound, body) => {
            let (a, b) = both(
                captured_hold(alloc, bound, env, heads),
                captured_hold(alloc, body, env, heads),
            )?;
            Ok(a & b)
        }
        Term::If(test, so, otherwise) => {
            let first = captured_hold(alloc, test, env, heads);
            let sides = both(
                captured_hold(alloc, so, env, heads),
                captured_hold(alloc, otherwise, env, heads),
            );
            let (a, (b, d)) = both(first, sides)?;
            Ok(a & (b & d))
        }
        Term::Seq(parts) => all_captured_hold(alloc, parts.as_slice(), env, heads),
        Term::Match(of, cases) => {
            let cases = arms_captured_hold(alloc, cases.as_slice(), env, heads);
            let (a, b) = both(captured_hold(alloc, of, env, heads), cases)?;
            Ok(a & b)
        }
        Term::Try(of, cases) => {
            let cases = arms_captured_hold(alloc, cases.as_slice(), env, heads);
            let (a, b) = both(captured_hold(alloc, of, env, heads), cases)?;
            Ok(a & b)
        }
        Term::Raise(_, inner) => captured_hold(alloc, inner, env, heads),
        Term::Prim(_, args) => all_captured_hold(alloc, args.as_slice(), env, heads),
        Term::Marshal(_, mark, inner) => {
            let (a, b) = both(
                captured_hold(alloc, mark, env, heads),
                captured_hold(alloc, inner, env, heads),
            )?;
            Ok(a & b)
        }
        Term::Unmarshal(_, inner) => captured_hold(alloc, inner, env, heads),
        Term::Val(ty, v) => holds(alloc, v, ty, env, heads),
        Term::Int(_) => Ok(true),
        Term::Bool(_) => Ok(true),
        Term::Str(_) => Ok(true),
        Term::Unit => Ok(true),
        Term::ExnVal(_) => Ok(true),
        Term::Nil(_) => Ok(true),
        Term::Empty(_) => Ok(true),
        Term::Var(_) => Ok(true),
        Term::Own(_) => Ok(true),
        Term::Ref(_, _) => Ok(true),
    }
}

#[cycle(hold)]
fn all_captured_hold<'a>(
    alloc: Global,
    terms: &'a [Term],
    env: &'a Env,
    heads: &mut Heads<'a>,
) -> Result<bool, Memory>
    requires few { length env.now.entries < 2 ^ 32 }
    requires heads { AreHeads (environment_of env.now) heads.old }
    ensures heads { AreHeads (environment_of env.now) heads.new }
    ensures answer { IfOk result (λ b. b ≡ all_captured_hold (environment_of env.now)
        (exprs (map expr_of terms.now))) }
{
    for t in terms {
        if !captured_hold(alloc, t, env, heads)? {
            return Ok(false);
        }
    }
    Ok(true)
}

#[cycle(hold)]
fn arms_captured_hold<'a>(
    alloc: Global,
    cases: &'a [Arm],
    env: &'a Env,
    heads: &mut Heads<'a>,
) -> Result<bool, Memory>
    requires few { length env.now.entries < 2 ^ 32 }
    requires heads { AreHeads (environment_of env.now) heads.old }
    ensures heads { AreHeads (environment_of env.now) heads.new }
    ensures answer { IfOk result (λ b. b ≡ arms_captured_hold (environment_of env.now)
        (arms (map arm_of cases.now))) }
{
    for arm in cases {
        if !captured_hold(alloc, &arm.body, env, heads)? {
            return Ok(false);
        }
    }
    Ok(true)
}

/// Whether a packed value is of a type, where an abstract type is its representation.
#[cycle(hold)]
#[tactic(auto, using(crate::proofs::ValueForms::value_laws))]
pub fn holds<'a>(
    alloc: Global,
    v: &'a PVal,
    ty: &'a Ty,
    env: &'a Env,
    heads: &mut Heads<'a>,
) -> Result<bool, Memory>
    requires few { length env.now.entries < 2 ^ 32 }
    requires heads { AreHeads (environment_of env.now) heads.old }
    ensures heads { AreHeads (environment_of env.now) heads.new }
    ensures answer { IfOk result (λ b. b ≡ holds Coloured false (environment_of env.now) (value_of v.now)
        (typ_of ty.now)) }
{
    let at = heads.head(env, ty)?;
    match v {
        PVal::Int(_) => Ok(is_base(at, Base::Int)),
        PVal::Bool(_) => Ok(is_base(at, Base::Bool)),
        PVal::Str(_) => Ok(is_base(at, Base::Str)),
        PVal::Unit => Ok(is_base(at, Base::Unit)),
        PVal::Exn(_) => Ok(is_base(at, Base::Exn)),
        PVal::Tuple(parts) => match tuple_parts(at) {
            None => Ok(false),
            Some(types) => all_hold(alloc, parts.as_slice(), types.as_slice(), env, heads),
        },
        PVal::List(parts) => match list_item(at) {
            None => Ok(false),
            Some(item) => each_holds(alloc, parts.as_slice(), item, env, heads),
        },
        PVal::Absent => Ok(option_item(at).is_some()),
        PVal::Present(inner) => match option_item(at) {
            None => Ok(false),
            Some(item) => holds(alloc, inner, item, env, heads),
        },
        PVal::Fun(home, l) => {
            if may_travel_as(alloc, env, *home, l, at)? {
                captured_hold(alloc, l, env, heads)
            } else {
                Ok(false)
            }
        }
    }
}

#[cycle(hold)]
fn all_hold<'a>(
    alloc: Global,
    vs: &'a [PVal],
    tys: &'a [Ty],
    env: &'a Env,
    heads: &mut Heads<'a>,
) -> Result<bool, Memory>
    requires few { length env.now.entries < 2 ^ 32 }
    requires heads { AreHeads (environment_of env.now) heads.old }
    ensures heads { AreHeads (environment_of env.now) heads.new }
    ensures answer { IfOk result (λ b. b ≡ all_hold Coloured false (environment_of env.now)
        (pvalues (map value_of vs.now)) (typs_of tys.now)) }
{
    if vs.len() != tys.len() {
        return Ok(false);
    }
    for i in 0..vs.len() {
        if !holds(alloc, &vs[i], &tys[i], env, heads)? {
            return Ok(false);
        }
    }
    Ok(true)
}

#[cycle(hold)]
fn each_holds<'a>(
    alloc: Global,
    vs: &'a [PVal],
    ty: &'a Ty,
    env: &'a Env,
    heads: &mut Heads<'a>,
) -> Result<bool, Memory>
    requires few { length env.now.entries < 2 ^ 32 }
    requires heads { AreHeads (environment_of env.now) heads.old }
    ensures heads { AreHeads (environment_of env.now) heads.new }
    ensures answer { IfOk result (λ b. b ≡ each_holds Coloured false (environment_of env.now)
        (pvalues (map value_of vs.now)) (typ_of ty.now)) }
{
    for v in vs {
        if !holds(alloc, v, ty, env, heads)? {
            return Ok(false);
        }
    }
    Ok(true)
}

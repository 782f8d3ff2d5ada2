// The type of a term, where captured values count as of their types.

ghost use Rattle.std.specs.Prelude.{◌≡◌, ◌<◌, ◌^◌, IfOk, Some, true, length, map, option_map, option_and_then};
ghost use Rattle.ac_types.specs.ReadTypes.{typ_of};
ghost use Rattle.ac_terms.specs.Terms.{Lam, Rec, exprs, arms};
ghost use Rattle.ac_terms.specs.Read.{home_of, expr_of, arm_of, pattern_of};
ghost use Rattle.ac_types.specs.Partial.{has, given};
ghost use Rattle.ac_types.specs.Types.{TExn};
ghost use Rattle.ac_rules.specs.Views.{Coloured};
ghost use Rattle.ac_rules.specs.Typing.{type_of, types_of, arm_types, one_of, kept_in, type_seen, last_of};
ghost use Rattle.ac_check_views.specs.Sites.{entries_of, scope_at, typs_of};
ghost use Rattle.ac_check_terms.specs.inner.Parts.{types_in, arm_type};

use crate::arms::{both_same, go_on, if_type, is_test, sequence_type};
use crate::data::{cons_type, empty_type, nil_type, present_type, tuple_type};
use crate::exceptions::text_exception_type;
use crate::functions::{applied, kept_function_type, own_type, recursive_type};
use crate::patterns::variables;
use crate::primitives::result_type;
use crate::scope::{TypeScope, variable_type};
use crate::written::{marshal_type, promised_type};
use ac_check_views::{Base, Site, field_type, is_seen_as, ref_type, seen_type};
use ac_terms::{Arm, Term};
use ac_types::{Many, Memory, Ty, both};
use std::alloc::Global;

/// The type of a term, where the variables have the types `ctx`, the newest first, and each
/// captured value counts as of the type beside it; `None` exactly where it has none.
#[tactic(auto, using(crate::proofs::ScopeLaws::scope_laws))]
pub fn declared_type<'a>(
    alloc: Global,
    site: &'a Site<'a>,
    ctx: &'a Many<Ty>,
    t: &'a Term,
) -> Result<Option<Ty>, Memory>
    requires { length site.now.env.now.entries < 2 ^ 32 }
    ensures { IfOk result (λ o. option_map typ_of o ≡ type_of Coloured true (entries_of site.now)
        (scope_at site.now (map typ_of ctx.now)) (expr_of t.now)) }
{
    let vars = TypeScope::Given(ctx.as_slice());
    typed(alloc, t, site, &vars)
}

// The type of a term, where it has one.
#[cycle(typing)]
#[tactic(auto, using(crate::proofs::TermLaws::typing_laws))]
fn typed<'a>(
    alloc: Global,
    t: &'a Term,
    site: &'a Site<'a>,
    vars: &'a TypeScope<'a>,
) -> Result<Option<Ty>, Memory>
    requires { length site.now.env.now.entries < 2 ^ 32 }
    ensures { IfOk result (λ o. option_map typ_of o ≡ type_of Coloured true (entries_of site.now)
        (scope_at site.now (types_in vars.now)) (expr_of t.now)) }
{
    match t {
        Term::Int(_) => Ok(Some(Ty::Int)),
        Term::Bool(_) => Ok(Some(Ty::Bool)),
        Term::Str(_) => Ok(Some(Ty::Str)),
        Term::Unit => Ok(Some(Ty::Unit)),
        Term::ExnVal(_) => Ok(Some(Ty::Exn)),
        Term::ExnOf(_, text) => {
            let text = typed(alloc, text, site, vars)?;
            Ok(text_exception_type(text))
        }
        Term::Tuple(parts) => {
            let parts = types_of(alloc, parts.as_slice(), site, vars)?;
            Ok(tuple_type(parts))
        }
        Term::Nil(ty) => nil_type(alloc, ty, site),
        Term::Empty(ty) => empty_type(alloc, ty, site),
        Term::Present(inner) => {
            let inner = typed(alloc, inner, site, vars)?;
            present_type(alloc, inner)
        }
        Term::Cons(head, tail) => {
            let (head, tail) = both(
                typed(alloc, head, site, vars),
                typed(alloc, tail, site, vars),
            )?;
            Ok(cons_type(head, tail))
        }
        Term::Var(i) => variable_type(alloc, vars, *i),
        Term::Lam(ty, body) => function(alloc, body, ty, site, vars),
        Term::Rec(from, to, body) => recursive(alloc, body, from, to, site, vars),
        Term::App(f, a) => {
            let (f, a) = both(typed(alloc, f, site, vars), typed(alloc, a, site, vars))?;
            Ok(applied(f, a))
        }
        Term::Let(ty, bound, body) => {
            let Some(found) = typed(alloc, bound, site, vars)? else {
                return Ok(None);
            };
            if !is_seen_as(ty, &found, &*site) {
                drop(found);
                return Ok(None);
            }
            let end = typed(alloc, &*body, &*site, &TypeScope::One(&*vars, &found));
            drop(found);
            end
        }
        Term::If(test, so, otherwise) => {
            let found = typed(alloc, test, site, vars)?;
            let test = is_test(found);
            let (so, otherwise) = both(
                typed(alloc, so, site, vars),
                typed(alloc, otherwise, site, vars),
            )?;
            Ok(if_type(test, so, otherwise))
        }
        Term::Seq(parts) => {
            let parts = types_of(alloc, parts.as_slice(), site, vars)?;
            Ok(sequence_type(parts))
        }
        Term::Match(of, cases) => {
            let Some(ty) = typed(alloc, of, site, vars)? else {
                return Ok(None);
            };
            let end = arms_type(alloc, cases.as_slice(), &ty, &*site, &*vars);
            drop(ty);
            end
        }
        Term::Try(of, cases) => {
            let exn = Ty::Exn;
            let of = typed(alloc, of, site, vars);
            let found = arms_type(alloc, cases.as_slice(), &exn, &*site, &*vars);
            drop(exn);
            let (of, found) = both(of, found)?;
            Ok(both_same(of, found))
        }
        Term::Raise(ty, inner) => {
            let inner = typed(alloc, inner, site, vars)?;
            promised_type(alloc, ty, inner, Base::Exn, site)
        }
        Term::Prim(primitive, args) => {
            let args = types_of(alloc, args.as_slice(), site, vars)?;
            Ok(result_type(*primitive, args))
        }
        Term::Own(f) => field_type(alloc, site, *f),
        Term::Ref(j, x) => ref_type(alloc, site, *j, x),
        Term::Marshal(ty, mark, inner) => {
            let (mark, inner) = both(
                typed(alloc, mark, site, vars),
                typed(alloc, inner, site, vars),
            )?;
            Ok(marshal_type(mark, ty, inner, site))
        }
        Term::Unmarshal(ty, inner) => {
            let inner = typed(alloc, inner, site, vars)?;
            promised_type(alloc, ty, inner, Base::Str, site)
        }
        Term::Val(ty, _) => seen_type(alloc, ty, site),
    }
}

// The type of a function.
#[cycle(typing)]
fn function<'a>(
    alloc: Global,
    body: &'a Term,
    ty: &'a Ty,
    site: &'a Site<'a>,
    vars: &'a TypeScope<'a>,
) -> Result<Option<Ty>, Memory>
    requires { length site.now.env.now.entries < 2 ^ 32 }
    ensures { IfOk result (λ o. option_map typ_of o ≡ type_of Coloured true (entries_of site.now)
        (scope_at site.now (types_in vars.now)) (Lam (typ_of ty.now) (expr_of body.now))) }
{
    let Some(from) = seen_type(alloc, ty, site)? else {
        return Ok(None);
    };
    let to = typed(alloc, &*body, &*site, &TypeScope::One(&*vars, &from))?;
    kept_function_type(alloc, from, to)
}

// The type of a recursive function, which sees itself.
#[cycle(typing)]
fn recursive<'a>(
    alloc: Global,
    body: &'a Term,
    from: &'a Ty,
    to: &'a Ty,
    site: &'a Site<'a>,
    vars: &'a TypeScope<'a>,
) -> Result<Option<Ty>, Memory>
    requires { length site.now.env.now.entries < 2 ^ 32 }
    ensures { IfOk result (λ o. option_map typ_of o ≡ type_of Coloured true (entries_of site.now)
        (scope_at site.now (types_in vars.now))
        (Rec (typ_of from.now) (typ_of to.now) (expr_of body.now))) }
{
    let Some(from) = seen_type(alloc, from, site)? else {
        return Ok(None);
    };
    let Some(to) = seen_type(alloc, to, site)? else {
        return Ok(None);
    };
    let Some(own) = own_type(alloc, &from, &to)? else {
        return Ok(None);
    };
    let outer = TypeScope::One(&*vars, &own);
    let found = typed(alloc, &*body, &*site, &TypeScope::One(&outer, &from))?;
    Ok(recursive_type(own, &to, found))
}

// The types of some terms, where each has one.
#[cycle(typing)]
fn types_of<'a>(
    alloc: Global,
    terms: &'a [Term],
    site: &'a Site<'a>,
    vars: &'a TypeScope<'a>,
) -> Result<Option<Many<Ty>>, Memory>
    requires { length site.now.env.now.entries < 2 ^ 32 }
    ensures { IfOk result (λ o. option_map typs_of o ≡ types_of Coloured true (entries_of site.now)
        (scope_at site.now (types_in vars.now)) (exprs (map expr_of terms.now))) }
{
    let mut found = Many::new(alloc);
    for t in terms {
        let Some(ty) = typed(alloc, t, site, vars)? else {
            return Ok(None);
        };
        found.push(ty)?;
    }
    Ok(Some(found))
}

// The one type of the arms of a match on this type.
#[cycle(typing)]
fn arms_type<'a>(
    alloc: Global,
    cases: &'a [Arm],
    ty: &'a Ty,
    site: &'a Site<'a>,
    vars: &'a TypeScope<'a>,
) -> Result<Option<Ty>, Memory>
    requires { length site.now.env.now.entries < 2 ^ 32 }
    ensures { IfOk result (λ o. option_map typ_of o ≡ option_and_then one_of
        (arm_types Coloured true (entries_of site.now) (scope_at site.now (types_in vars.now))
        (typ_of ty.now) (arms (map arm_of cases.now)))) }
{
    let mut first = None;
    for arm in cases {
        let Some(found) = arm_type(alloc, arm, ty, site, vars)? else {
            drop(first);
            return Ok(None);
        };
        let Some(one) = go_on(first, found) else {
            return Ok(None);
        };
        first = Some(one);
    }
    Ok(first)
}

// The type of an arm's body, whose pattern has this type.
#[cycle(typing)]
fn arm_type<'a>(
    alloc: Global,
    arm: &'a Arm,
    ty: &'a Ty,
    site: &'a Site<'a>,
    vars: &'a TypeScope<'a>,
) -> Result<Option<Ty>, Memory>
    requires { length site.now.env.now.entries < 2 ^ 32 }
    ensures { IfOk result (λ o. option_map typ_of o ≡ arm_type (entries_of site.now)
        (scope_at site.now (types_in vars.now)) (typ_of ty.now) (pattern_of arm.now.pat)
        (expr_of arm.now.body)) }
{
    let Some(bound) = variables(alloc, &arm.pat, ty, site, Many::new(alloc))? else {
        return Ok(None);
    };
    typed(
        alloc,
        &arm.body,
        &*site,
        &TypeScope::More(&*vars, bound.as_slice()),
    )
}

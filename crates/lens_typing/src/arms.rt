// Arms, and the values that their patterns fit.

ghost use Rattle.std.specs.Prelude.{◌<◌, ◌^◌, length};

use crate::agreeing::{another, first_other};
use crate::untyped::{Standing, Typed, Untyped};
use ac_syntax::SArm;
use ac_terms::{Arm, Term};
use ac_types::{Boxed, Many, Memory, Ty, both};
use lens_say::{Message, Owners, write_fact};
use std::alloc::Global;

fn copy_of(alloc: Global, arm: &Arm) -> Result<Arm, Memory> {
    let (pat, body) = both(arm.pat.copy(alloc), arm.body.copy(alloc))?;
    Ok(Arm { pat, body })
}

// The term with one of its arms alone.
fn with_arm(alloc: Global, term: &Term, arm: &Arm) -> Result<Option<Term>, Memory> {
    let mut arms = Many::new(alloc);
    arms.push(copy_of(alloc, arm)?)?;
    match term {
        Term::Match(inner, _) => {
            let inner = Boxed::new(alloc, inner.copy(alloc)?)?;
            Ok(Some(Term::Match(inner, arms)))
        }
        Term::Try(inner, _) => {
            let inner = Boxed::new(alloc, inner.copy(alloc)?)?;
            Ok(Some(Term::Try(inner, arms)))
        }
        _ => Ok(None),
    }
}

// Whether the term has a type with this arm alone.
fn fits(
    alloc: Global,
    standing: &Standing<'_>,
    found: &Untyped<'_>,
    arm: &Arm,
) -> Result<bool, Memory>
    requires { length standing.now.env.now.entries < 2 ^ 32 }
{
    let Some(term) = with_arm(alloc, found.term, arm)? else {
        return Ok(true);
    };
    let ty = standing.type_of(alloc, &term, &found.vars);
    drop(term);
    match ty? {
        None => Ok(false),
        Some(ty) => {
            drop(ty);
            Ok(true)
        }
    }
}

// The place of the first pattern that doesn't fit.
fn first_misfit(
    alloc: Global,
    standing: &Standing<'_>,
    found: &Untyped<'_>,
    cases: &[SArm],
    arms: &[Arm],
) -> Result<Option<u32>, Memory>
    requires { length standing.now.env.now.entries < 2 ^ 32 }
{
    for i in 0..cases.len().min(arms.len()) {
        if !fits(alloc, standing, found, &arms[i])? {
            return Ok(Some(cases[i].pat.at));
        }
    }
    Ok(None)
}

// What is said of a pattern that doesn't fit values of this type.
fn misfit(alloc: Global, owners: &Owners<'_>, at: u32, ty: &Ty) -> Message {
    let asked = b"this pattern fits no value of the type that is matched";
    let mut message = Message::saying(alloc, at, asked);
    write_fact(&mut message.more, owners, b"matched:", ty);
    message
}

// What is said of the first arm of another type, or of the first pattern that doesn't fit.
fn unlike_among(
    alloc: Global,
    standing: &Standing<'_>,
    owners: &Owners<'_>,
    found: &Untyped<'_>,
    cases: &[SArm],
    bodies: &[Typed],
    wanted: &Typed,
    matched: &Ty,
) -> Result<Option<Message>, Memory>
    requires { length standing.now.env.now.entries < 2 ^ 32 }
{
    if let Some(part) = first_other(bodies, &wanted.ty) {
        let asked = b"this arm has another type than stands before it";
        return Ok(another(alloc, owners, part, asked, &wanted.ty));
    }
    let (Term::Match(_, arms) | Term::Try(_, arms)) = found.term else {
        return Ok(None);
    };
    match first_misfit(alloc, standing, found, cases, arms.as_slice())? {
        None => Ok(None),
        Some(at) => Ok(Some(misfit(alloc, owners, at, matched))),
    }
}

/// What is said of a `match`.
pub fn unlike_arm(
    alloc: Global,
    standing: &Standing<'_>,
    owners: &Owners<'_>,
    found: &Untyped<'_>,
    cases: &[SArm],
) -> Result<Option<Message>, Memory>
    requires { length standing.now.env.now.entries < 2 ^ 32 }
{
    let [matched, bodies @ ..] = found.parts.as_slice() else {
        return Ok(None);
    };
    let Some(first) = bodies.first() else {
        return Ok(None);
    };
    unlike_among(
        alloc,
        standing,
        owners,
        found,
        cases,
        bodies,
        first,
        &matched.ty,
    )
}

/// What is said of a `try`.
pub fn unlike_handler(
    alloc: Global,
    standing: &Standing<'_>,
    owners: &Owners<'_>,
    found: &Untyped<'_>,
    cases: &[SArm],
) -> Result<Option<Message>, Memory>
    requires { length standing.now.env.now.entries < 2 ^ 32 }
{
    let [body, bodies @ ..] = found.parts.as_slice() else {
        return Ok(None);
    };
    unlike_among(
        alloc,
        standing,
        owners,
        found,
        cases,
        bodies,
        body,
        &Ty::Exn,
    )
}

// The variables that are in scope at a place of an expression.

use crate::members::bytes_of;
use ac_syntax::{SArm, SExpr, SExprKind, SFun, SName, SPat, SPatKind};
use ac_types::{Many, Memory};

// More steps than lead from a whole expression to any part of it.
const STEPS: usize = 1000;

/// Names in the order in which they come into scope.
pub type NamesInSight<'a> = Many<&'a [u8]>;

fn add<'a>(names: &mut NamesInSight<'a>, name: &'a SName) -> Result<(), Memory> {
    names.push(bytes_of(&name.word))
}

// Adds the variables of a pattern.
#[cycle(pattern)]
fn add_pattern<'a>(names: &mut NamesInSight<'a>, pat: &'a SPat) -> Result<(), Memory> {
    match &pat.kind {
        SPatKind::Var(name, _) => add(names, name),
        SPatKind::Tuple(parts) => add_patterns(names, parts.as_slice()),
        SPatKind::Cons(head, tail) => {
            add_pattern(names, head)?;
            add_pattern(names, tail)
        }
        SPatKind::Present(inner) | SPatKind::ExnOf(_, inner) => add_pattern(names, inner),
        _ => Ok(()),
    }
}

#[cycle(pattern)]
fn add_patterns<'a>(names: &mut NamesInSight<'a>, pats: &'a [SPat]) -> Result<(), Memory> {
    for pat in pats {
        add_pattern(names, pat)?;
    }
    Ok(())
}

// The later of two parts, if the place isn't in front of it.
fn later<'a>(first: &'a SExpr, second: &'a SExpr, at: u32) -> &'a SExpr {
    if second.at <= at { second } else { first }
}

// The last part that the place isn't in front of.
fn last_part(parts: &[SExpr], at: u32) -> Option<&SExpr> {
    let mut last = None;
    for part in parts {
        if part.at <= at {
            last = Some(part);
        }
    }
    last
}

// The part of a form without binders in which a place is.
fn part_at<'a>(kind: &'a SExprKind, at: u32) -> Option<&'a SExpr> {
    match kind {
        SExprKind::ExnOf(_, a) | SExprKind::Present(a) => Some(a),
        SExprKind::Raise(a, _) | SExprKind::Unmarshal(a, _) => Some(a),
        SExprKind::Tuple(parts) | SExprKind::Seq(parts) | SExprKind::Op(_, parts) => {
            last_part(parts.as_slice(), at)
        }
        SExprKind::Cons(a, b) | SExprKind::App(a, b) => Some(later(a, b, at)),
        SExprKind::And(a, b) | SExprKind::Or(a, b) => Some(later(a, b, at)),
        SExprKind::Marshal(a, b, _) => Some(later(a, b, at)),
        SExprKind::If(a, b, c) => Some(later(later(a, b, at), c, at)),
        _ => None,
    }
}

// Steps into the body of a function with a name.
fn in_recursive<'a>(
    names: &mut NamesInSight<'a>,
    fun: &'a SFun,
    at: u32,
) -> Result<Option<&'a SExpr>, Memory> {
    if at < fun.body.at {
        return Ok(None);
    }
    add(names, &fun.name)?;
    add(names, &fun.arg)?;
    Ok(Some(&fun.body))
}

// Steps into a `match` or a `try`.
fn in_arms<'a>(
    names: &mut NamesInSight<'a>,
    tree: &'a SExpr,
    arms: &'a [SArm],
    at: u32,
) -> Result<Option<&'a SExpr>, Memory> {
    let mut last: Option<&'a SArm> = None;
    for arm in arms {
        if arm.pat.at <= at {
            last = Some(arm);
        }
    }
    match last {
        None => Ok(Some(tree)),
        Some(arm) if at < arm.body.at => Ok(None),
        Some(arm) => {
            add_pattern(names, &arm.pat)?;
            Ok(Some(&arm.body))
        }
    }
}

// Steps into the part in which a place is, and adds the variables that the part sees.
fn inward<'a>(
    names: &mut NamesInSight<'a>,
    tree: &'a SExpr,
    at: u32,
) -> Result<Option<&'a SExpr>, Memory> {
    match &tree.kind {
        SExprKind::Fun(name, _, body) => {
            if at < body.at {
                return Ok(None);
            }
            add(names, name)?;
            Ok(Some(body))
        }
        SExprKind::Rec(fun) => in_recursive(names, fun, at),
        SExprKind::Let(name, _, bound, body) => {
            if at < body.at {
                return Ok(Some(bound));
            }
            add(names, name)?;
            Ok(Some(body))
        }
        SExprKind::LetRec(fun, body) => {
            if at < body.at {
                return in_recursive(names, fun, at);
            }
            add(names, &fun.name)?;
            Ok(Some(body))
        }
        SExprKind::Match(a, arms) | SExprKind::Try(a, arms) => {
            in_arms(names, a, arms.as_slice(), at)
        }
        kind => Ok(part_at(kind, at)),
    }
}

/// Adds the variables that are in scope at a place of an expression, the outermost first.
pub fn add_variables<'a>(
    names: &mut NamesInSight<'a>,
    tree: &'a SExpr,
    at: u32,
) -> Result<(), Memory> {
    let mut here = tree;
    for _ in 0..STEPS {
        match inward(names, here, at)? {
            Some(part) => here = part,
            None => return Ok(()),
        }
    }
    Ok(())
}

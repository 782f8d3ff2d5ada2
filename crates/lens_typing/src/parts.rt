// The parts of an expression, in the order of evaluation, each with its term and with the types of
// its variables.

use ac_syntax::{SArm, SExpr, SExprKind};
use ac_terms::{Arm, Pat, Term};
use ac_types::{Many, Memory, Ty, both, function_type};
use std::alloc::Global;

/// An expression, the term that it elaborates to, and the types of the variables in scope, the
/// newest first.
#[derive(Drop)]
pub struct InnerExpression<'a> {
    pub tree: &'a SExpr,
    pub term: &'a Term,
    pub vars: Many<Ty>,
}

impl<'a> InnerExpression<'a> {
    /// The same part.
    pub fn copy(&self, alloc: Global) -> Result<InnerExpression<'a>, Memory> {
        let vars = self.vars.copy(alloc)?;
        Ok(InnerExpression {
            tree: self.tree,
            term: self.term,
            vars,
        })
    }
}

// Adds a part that sees the same variables.
fn add<'a>(
    alloc: Global,
    parts: &mut Many<InnerExpression<'a>>,
    tree: &'a SExpr,
    term: &'a Term,
    vars: &Many<Ty>,
) -> Result<(), Memory> {
    let vars = vars.copy(alloc)?;
    parts.push(InnerExpression { tree, term, vars })
}

// Adds parts that see the same variables.
fn add_all<'a>(
    alloc: Global,
    parts: &mut Many<InnerExpression<'a>>,
    trees: &'a [SExpr],
    terms: &'a [Term],
    vars: &Many<Ty>,
) -> Result<(), Memory> {
    for i in 0..trees.len().min(terms.len()) {
        add(alloc, parts, &trees[i], &terms[i], vars)?;
    }
    Ok(())
}

// These types, and behind them the variables' in scope.
fn under(alloc: Global, newest: Many<Ty>, vars: &Many<Ty>) -> Result<Many<Ty>, Memory> {
    let mut all = newest;
    for ty in vars.as_slice() {
        all.push(ty.copy(alloc)?)?;
    }
    Ok(all)
}

// This type, and behind it the variables' in scope.
fn under_one(alloc: Global, ty: &Ty, vars: &Many<Ty>) -> Result<Many<Ty>, Memory> {
    let mut newest = Many::new(alloc);
    newest.push(ty.copy(alloc)?)?;
    under(alloc, newest, vars)
}

// Adds a part that sees one more variable.
fn add_under<'a>(
    alloc: Global,
    parts: &mut Many<InnerExpression<'a>>,
    tree: &'a SExpr,
    term: &'a Term,
    ty: &Ty,
    vars: &Many<Ty>,
) -> Result<(), Memory> {
    let vars = under_one(alloc, ty, vars)?;
    parts.push(InnerExpression { tree, term, vars })
}

// The type of the functions between two types, with copies of both.
fn type_of_functions(alloc: Global, from: &Ty, to: &Ty) -> Result<Ty, Memory> {
    let (from, to) = both(from.copy(alloc), to.copy(alloc))?;
    function_type(alloc, from, to)
}

// Adds the body of a recursive function, which sees the function and its argument.
fn add_recursive<'a>(
    alloc: Global,
    parts: &mut Many<InnerExpression<'a>>,
    tree: &'a SExpr,
    term: &'a Term,
    vars: &Many<Ty>,
) -> Result<(), Memory> {
    let Term::Rec(from, to, body) = term else {
        return Ok(());
    };
    let own = type_of_functions(alloc, from, to)?;
    let outer = under_one(alloc, &own, vars);
    drop(own);
    add_under(alloc, parts, tree, body, from, &outer?)
}

// Puts the types of a pattern's variables in front of these, the last variable first.
#[cycle(bound)]
fn bound(alloc: Global, pat: &Pat, vars: Many<Ty>) -> Result<Many<Ty>, Memory> {
    match pat {
        Pat::Var(ty) => under_one(alloc, ty, &vars),
        Pat::Tuple(pats) => bound_by_all(alloc, pats.as_slice(), vars),
        Pat::Cons(head, tail) => {
            let vars = bound(alloc, head, vars)?;
            bound(alloc, tail, vars)
        }
        Pat::Present(inner) | Pat::ExnOf(_, inner) => bound(alloc, inner, vars),
        _ => Ok(vars),
    }
}

#[cycle(bound)]
fn bound_by_all(alloc: Global, pats: &[Pat], vars: Many<Ty>) -> Result<Many<Ty>, Memory> {
    let mut all = vars;
    for pat in pats {
        let more = bound(alloc, pat, all)?;
        all = more;
    }
    Ok(all)
}

// Adds the bodies of arms, which see their patterns' variables.
fn add_arms<'a>(
    alloc: Global,
    parts: &mut Many<InnerExpression<'a>>,
    cases: &'a [SArm],
    arms: &'a [Arm],
    vars: &Many<Ty>,
) -> Result<(), Memory> {
    for i in 0..cases.len().min(arms.len()) {
        let vars = bound(alloc, &arms[i].pat, vars.copy(alloc)?)?;
        parts.push(InnerExpression {
            tree: &cases[i].body,
            term: &arms[i].body,
            vars,
        })?;
    }
    Ok(())
}

// Adds the parts of a form that binds no variable.
fn add_plain<'a>(
    alloc: Global,
    parts: &mut Many<InnerExpression<'a>>,
    kind: &'a SExprKind,
    term: &'a Term,
    vars: &Many<Ty>,
) -> Result<(), Memory> {
    match (kind, term) {
        (SExprKind::ExnOf(_, a), Term::ExnOf(_, x))
        | (SExprKind::Present(a), Term::Present(x))
        | (SExprKind::Raise(a, _), Term::Raise(_, x))
        | (SExprKind::Unmarshal(a, _), Term::Unmarshal(_, x)) => add(alloc, parts, a, x, vars),
        (SExprKind::Tuple(trees), Term::Tuple(terms))
        | (SExprKind::Seq(trees), Term::Seq(terms))
        | (SExprKind::Op(_, trees), Term::Prim(_, terms)) => {
            add_all(alloc, parts, trees.as_slice(), terms.as_slice(), vars)
        }
        (SExprKind::App(_, a), Term::Prim(_, terms)) => match terms.get(0) {
            Some(x) => add(alloc, parts, a, x, vars),
            None => Ok(()),
        },
        (SExprKind::Cons(a, b), Term::Cons(x, y))
        | (SExprKind::App(a, b), Term::App(x, y))
        | (SExprKind::Marshal(a, b, _), Term::Marshal(_, x, y))
        | (SExprKind::And(a, b), Term::If(x, y, _))
        | (SExprKind::Or(a, b), Term::If(x, _, y)) => {
            add(alloc, parts, a, x, vars)?;
            add(alloc, parts, b, y, vars)
        }
        (SExprKind::If(a, b, c), Term::If(x, y, z)) => {
            add(alloc, parts, a, x, vars)?;
            add(alloc, parts, b, y, vars)?;
            add(alloc, parts, c, z, vars)
        }
        _ => Ok(()),
    }
}

// Adds the parts of an expression.
fn add_parts<'a>(
    alloc: Global,
    parts: &mut Many<InnerExpression<'a>>,
    whole: &InnerExpression<'a>,
) -> Result<(), Memory> {
    let vars = &whole.vars;
    match (&whole.tree.kind, whole.term) {
        (SExprKind::Fun(_, _, a), Term::Lam(ty, x)) => add_under(alloc, parts, a, x, ty, vars),
        (SExprKind::Rec(fun), rec) => add_recursive(alloc, parts, &fun.body, rec, vars),
        (SExprKind::Let(_, _, a, b), Term::Let(ty, x, y)) => {
            add(alloc, parts, a, x, vars)?;
            add_under(alloc, parts, b, y, ty, vars)
        }
        (SExprKind::LetRec(fun, b), Term::Let(ty, rec, y)) => {
            add_recursive(alloc, parts, &fun.body, rec, vars)?;
            add_under(alloc, parts, b, y, ty, vars)
        }
        (SExprKind::Match(a, cases), Term::Match(x, arms))
        | (SExprKind::Try(a, cases), Term::Try(x, arms)) => {
            add(alloc, parts, a, x, vars)?;
            add_arms(alloc, parts, cases.as_slice(), arms.as_slice(), vars)
        }
        (kind, term) => add_plain(alloc, parts, kind, term, vars),
    }
}

/// The parts of an expression. Those of a `let` see the type that it writes.
pub fn parts_of<'a>(
    alloc: Global,
    whole: &InnerExpression<'a>,
) -> Result<Many<InnerExpression<'a>>, Memory> {
    let mut parts = Many::new(alloc);
    add_parts(alloc, &mut parts, whole)?;
    Ok(parts)
}

// Fields that compute something as their module is loaded.

use crate::trees::{ExplainedPart, field_at};
use ac_modules::valuable;
use ac_syntax::{SDefKind, SExpr, SExprKind, SField};
use ac_terms::{Def, Term};
use lens_say::{Message, write_name};
use std::alloc::Global;

// More steps than lead from a whole expression to any part of it.
const STEPS: usize = 1000;

// The first of these parts that computes something.
fn first_of<'a>(trees: &'a [SExpr], terms: &'a [Term]) -> Option<(&'a SExpr, &'a Term)> {
    for i in 0..trees.len().min(terms.len()) {
        if !valuable(&terms[i]) {
            return Some((&trees[i], &terms[i]));
        }
    }
    None
}

// The part of a form that computes something, where the form itself doesn't.
fn inner<'a>(tree: &'a SExpr, term: &'a Term) -> Option<(&'a SExpr, &'a Term)> {
    match (&tree.kind, term) {
        (SExprKind::ExnOf(_, a), Term::ExnOf(_, x)) => Some((a, x)),
        (SExprKind::Present(a), Term::Present(x)) => Some((a, x)),
        (SExprKind::Tuple(trees), Term::Tuple(terms)) => {
            first_of(trees.as_slice(), terms.as_slice())
        }
        (SExprKind::Cons(a, b), Term::Cons(x, y)) => {
            if valuable(x) {
                Some((b, y))
            } else {
                Some((a, x))
            }
        }
        _ => None,
    }
}

// The place of the part of an expression that computes something.
fn place_in(tree: &SExpr, term: &Term) -> u32 {
    let mut here = (tree, term);
    for _ in 0..STEPS {
        match inner(here.0, here.1) {
            Some(part) => here = part,
            None => return here.0.at,
        }
    }
    here.0.at
}

/// What is said of definition `def`, whose value `k` computes something.
pub fn why_not_valuable(
    alloc: Global,
    part: &ExplainedPart<'_>,
    def: u32,
    k: u32,
) -> Option<Message> {
    let SDefKind::Module { fields, .. } = &part.tree(def)?.kind else {
        return None;
    };
    let Def::Module(module) = &part.entry(def)?.def else {
        return None;
    };
    let SField::Val(name, _, body) = field_at(fields.as_slice(), k)? else {
        return None;
    };
    let field = module.fields.get(k as usize)?;
    let mut message = Message::saying(alloc, place_in(body, &field.term), b"the field ");
    write_name(&mut message.why, name.word.text().as_slice());
    message.why.put(b" of ");
    write_name(&mut message.why, module.name.text().as_slice());
    message.why.put(b" computes something here: put it into a function, as `fun (u : unit) -> ..`");
    Some(message)
}

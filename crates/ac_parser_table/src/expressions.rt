// Expressions: the form, the names and types that stand in front, the parts, the type that stands
// behind.

use crate::page::TreePage;
use crate::patterns::write_pattern;
use crate::types::write_type;
use ac_syntax::{SArm, SExpr, SExprKind, SFun};
use ac_types::Primitive;

fn operator(primitive: Primitive) -> &'static [u8] {
    match primitive {
        Primitive::Add => b"+",
        Primitive::Sub => b"-",
        Primitive::Mul => b"*",
        Primitive::Div => b"/",
        Primitive::Rem => b"mod",
        Primitive::Neg => b"neg",
        Primitive::Eq => b"=",
        Primitive::Lt => b"<",
        Primitive::Concat => b"^",
        Primitive::Not => b"not",
        Primitive::PrintInt | Primitive::PrintString => b"no operator",
        Primitive::Send | Primitive::Receive => b"no operator",
        Primitive::Length | Primitive::SubString | Primitive::OfInt => b"no operator",
    }
}

fn is_leaf(kind: &SExprKind) -> bool {
    matches!(
        kind,
        SExprKind::Int(_)
            | SExprKind::Bool(_)
            | SExprKind::Str(_)
            | SExprKind::Unit
            | SExprKind::Exn(_)
            | SExprKind::Var(_)
    )
}

fn leaf(page: &mut TreePage, kind: &SExprKind, at: u32) {
    match kind {
        SExprKind::Int(number) => page.integer(*number, at),
        SExprKind::Bool(truth) => page.truth(*truth, at),
        SExprKind::Str(text) => page.string(text, at),
        SExprKind::Unit => page.leaf(b"()", at),
        SExprKind::Exn(exn) => page.leaf(exn.name(), at),
        SExprKind::Var(word) => page.leaf(word.text().as_slice(), at),
        _ => {}
    }
}

fn form(kind: &SExprKind) -> &'static [u8] {
    match kind {
        SExprKind::ExnOf(exn, _) => exn.name(),
        SExprKind::Op(primitive, _) => operator(*primitive),
        SExprKind::Tuple(_) => b"tuple",
        SExprKind::Nil(_) => b"[]",
        SExprKind::Absent(_) => b"None",
        SExprKind::Present(_) => b"Some",
        SExprKind::Cons(_, _) => b"::",
        SExprKind::Of(_, _) => b".",
        SExprKind::App(_, _) => b"app",
        SExprKind::Seq(_) => b";",
        SExprKind::And(_, _) => b"&&",
        SExprKind::Or(_, _) => b"||",
        kind => word(kind),
    }
}

fn word(kind: &SExprKind) -> &'static [u8] {
    match kind {
        SExprKind::Fun(_, _, _) => b"fun",
        SExprKind::Rec(_) => b"rec",
        SExprKind::Let(_, _, _, _) => b"let",
        SExprKind::LetRec(_, _) => b"letrec",
        SExprKind::If(_, _, _) => b"if",
        SExprKind::Match(_, _) => b"match",
        SExprKind::Try(_, _) => b"try",
        SExprKind::Raise(_, _) => b"raise",
        SExprKind::Marshal(_, _, _) => b"marshal",
        SExprKind::Unmarshal(_, _) => b"unmarshal",
        _ => b"no form",
    }
}

// What stands in front of the parts.
fn front(page: &mut TreePage, kind: &SExprKind) {
    match kind {
        SExprKind::Nil(ty) | SExprKind::Absent(ty) => write_type(page, ty),
        SExprKind::Of(owner, name) => {
            page.name(owner);
            page.name(name);
        }
        SExprKind::Fun(name, ty, _) | SExprKind::Let(name, ty, _, _) => {
            page.name(name);
            write_type(page, ty);
        }
        SExprKind::Rec(fun) | SExprKind::LetRec(fun, _) => head(page, fun),
        _ => {}
    }
}

// A function but for its body.
fn head(page: &mut TreePage, fun: &SFun) {
    page.name(&fun.name);
    page.name(&fun.arg);
    write_type(page, &fun.ty);
    write_type(page, &fun.result);
}

// What stands behind the parts.
fn back(page: &mut TreePage, kind: &SExprKind) {
    match kind {
        SExprKind::Raise(_, ty) | SExprKind::Marshal(_, _, ty) | SExprKind::Unmarshal(_, ty) => {
            write_type(page, ty);
        }
        _ => {}
    }
}

/// Adds an expression.
#[cycle(expressions)]
pub fn write_tree(page: &mut TreePage, tree: &SExpr) {
    if is_leaf(&tree.kind) {
        leaf(page, &tree.kind, tree.at);
    } else {
        page.open(form(&tree.kind), tree.at);
        front(page, &tree.kind);
        write_parts(page, &tree.kind);
        back(page, &tree.kind);
        page.close();
    }
}

#[cycle(expressions)]
fn write_parts(page: &mut TreePage, kind: &SExprKind) {
    match kind {
        SExprKind::ExnOf(_, part)
        | SExprKind::Present(part)
        | SExprKind::Fun(_, _, part)
        | SExprKind::Raise(part, _)
        | SExprKind::Unmarshal(part, _) => write_tree(page, part),
        SExprKind::Rec(fun) => write_tree(page, &fun.body),
        SExprKind::Cons(first, second)
        | SExprKind::App(first, second)
        | SExprKind::Let(_, _, first, second)
        | SExprKind::And(first, second)
        | SExprKind::Or(first, second)
        | SExprKind::Marshal(first, second, _) => {
            write_tree(page, first);
            write_tree(page, second);
        }
        SExprKind::LetRec(fun, body) => {
            write_tree(page, &fun.body);
            write_tree(page, body);
        }
        SExprKind::If(test, so, otherwise) => {
            write_tree(page, test);
            write_tree(page, so);
            write_tree(page, otherwise);
        }
        SExprKind::Tuple(parts) | SExprKind::Seq(parts) | SExprKind::Op(_, parts) => {
            write_trees(page, parts.as_slice());
        }
        SExprKind::Match(of, arms) | SExprKind::Try(of, arms) => {
            write_tree(page, of);
            write_arms(page, arms.as_slice());
        }
        _ => {}
    }
}

#[cycle(expressions)]
fn write_trees(page: &mut TreePage, trees: &[SExpr]) {
    for tree in trees {
        write_tree(page, tree);
    }
}

#[cycle(expressions)]
fn write_arms(page: &mut TreePage, arms: &[SArm]) {
    for arm in arms {
        write_pattern(page, &arm.pat);
        write_tree(page, &arm.body);
    }
}

// The part that has another type than is wanted of it.

ghost use Rattle.std.specs.Prelude.{◌<◌, ◌^◌, length};

use crate::agreeing::{another, first_other};
use crate::arms::{unlike_arm, unlike_handler};
use crate::untyped::{Standing, Typed, Untyped};
use ac_resolve_names::named;
use ac_syntax::{SExpr, SExprKind};
use ac_terms::Term;
use ac_types::{Memory, Primitive, Ty};
use lens_say::{Message, Owners, write_fact};
use std::alloc::Global;

// The type of the argument of a primitive that is applied.
fn wanted(alloc: Global, function: &SExpr) -> Result<Option<Ty>, Memory> {
    let SExprKind::Of(owner, name) = &function.kind else {
        return Ok(None);
    };
    match named(&owner.word, &name.word) {
        Some(primitive) => primitive.argument(alloc).map(Some),
        None => Ok(None),
    }
}

// What is said of an argument that has another type than a function's.
fn unlike_argument(alloc: Global, owners: &Owners<'_>, part: &Typed, ty: &Ty) -> Option<Message> {
    another(
        alloc,
        owners,
        part,
        b"this argument has another type than the function takes",
        ty,
    )
}

// What is said of a value that is applied and is no function.
fn no_function(alloc: Global, owners: &Owners<'_>, applied: &Typed, argument: &Typed) -> Message {
    let mut message = Message::saying(
        alloc,
        argument.at,
        b"what stands in front of this is no function: a `;` may be missing between the two",
    );
    write_fact(&mut message.more, owners, b"in front:", &applied.ty);
    message
}

fn unlike_application(
    alloc: Global,
    owners: &Owners<'_>,
    function: &SExpr,
    parts: &[Typed],
) -> Result<Option<Message>, Memory> {
    match parts {
        [argument] => match wanted(alloc, function)? {
            None => Ok(None),
            Some(ty) => {
                let message = unlike_argument(alloc, owners, argument, &ty);
                drop(ty);
                Ok(message)
            }
        },
        [applied, argument] => Ok(match &applied.ty {
            Ty::Fun(from, _) => unlike_argument(alloc, owners, argument, from),
            _ => Some(no_function(alloc, owners, applied, argument)),
        }),
        _ => Ok(None),
    }
}

fn unlike_choice(alloc: Global, owners: &Owners<'_>, parts: &[Typed]) -> Option<Message> {
    let [condition, first, second] = parts else {
        return None;
    };
    let asked = b"an `if` asks for a bool";
    if let Some(message) = another(alloc, owners, condition, asked, &Ty::Bool) {
        return Some(message);
    }
    let asked = b"both parts of an `if` have one type";
    another(alloc, owners, second, asked, &first.ty)
}

fn unlike_list(alloc: Global, owners: &Owners<'_>, parts: &[Typed]) -> Option<Message> {
    let [first, rest] = parts else {
        return None;
    };
    match &rest.ty {
        Ty::List(item) => {
            let asked = b"this stands in front of a list of another type";
            another(alloc, owners, first, asked, item)
        }
        _ => {
            let asked = b"behind `::` stands a list";
            let mut message = Message::saying(alloc, rest.at, asked);
            write_fact(&mut message.more, owners, b"found:", &rest.ty);
            Some(message)
        }
    }
}

// What is said of the first of these parts that has another type.
fn unlike_any(
    alloc: Global,
    owners: &Owners<'_>,
    parts: &[Typed],
    asked: &[u8],
    ty: &Ty,
) -> Option<Message> {
    let part = first_other(parts, ty)?;
    another(alloc, owners, part, asked, ty)
}

fn unlike_sequence(alloc: Global, owners: &Owners<'_>, parts: &[Typed]) -> Option<Message> {
    let (_, front) = parts.split_last()?;
    let asked = b"all parts of a sequence but the last are unit";
    unlike_any(alloc, owners, front, asked, &Ty::Unit)
}

fn is_compared(ty: &Ty) -> bool {
    matches!(ty, Ty::Int | Ty::Bool | Ty::Str)
}

fn unlike_comparison(alloc: Global, owners: &Owners<'_>, parts: &[Typed]) -> Option<Message> {
    let [left, right] = parts else {
        return None;
    };
    if !is_compared(&left.ty) {
        let asked = b"both sides of `=` and `<` have one type, which is int, bool or string";
        let mut message = Message::saying(alloc, left.at, asked);
        write_fact(&mut message.more, owners, b"found:", &left.ty);
        return Some(message);
    }
    let asked = b"both sides of `=` and `<` have one type";
    another(alloc, owners, right, asked, &left.ty)
}

fn unlike_operands(
    alloc: Global,
    owners: &Owners<'_>,
    primitive: Primitive,
    parts: &[Typed],
) -> Option<Message> {
    match primitive {
        Primitive::Eq | Primitive::Lt => unlike_comparison(alloc, owners, parts),
        Primitive::Concat => {
            let asked = b"both sides of `^` are strings";
            unlike_any(alloc, owners, parts, asked, &Ty::Str)
        }
        Primitive::Not => {
            let asked = b"`not` stands in front of a bool";
            unlike_any(alloc, owners, parts, asked, &Ty::Bool)
        }
        Primitive::Add
        | Primitive::Sub
        | Primitive::Mul
        | Primitive::Div
        | Primitive::Rem
        | Primitive::Neg => {
            let asked = b"arithmetic is done on ints";
            unlike_any(alloc, owners, parts, asked, &Ty::Int)
        }
        Primitive::PrintInt
        | Primitive::PrintString
        | Primitive::Send
        | Primitive::Receive
        | Primitive::Length
        | Primitive::SubString
        | Primitive::OfInt => None,
    }
}

// What is said of what a `let` binds, or of the body of a function with a name.
fn unlike_binding(
    alloc: Global,
    owners: &Owners<'_>,
    term: &Term,
    parts: &[Typed],
) -> Option<Message> {
    let first = parts.first()?;
    match term {
        Term::Let(_, bound, _) => match &**bound {
            Term::Rec(_, to, _) => unlike_body(alloc, owners, first, to),
            _ => unlike_bound(alloc, owners, term, first),
        },
        Term::Rec(_, to, _) => unlike_body(alloc, owners, first, to),
        _ => None,
    }
}

fn unlike_bound(alloc: Global, owners: &Owners<'_>, term: &Term, bound: &Typed) -> Option<Message> {
    let Term::Let(ty, _, _) = term else {
        return None;
    };
    let asked = b"this `let` writes another type than it binds";
    another(alloc, owners, bound, asked, ty)
}

fn unlike_body(alloc: Global, owners: &Owners<'_>, body: &Typed, ty: &Ty) -> Option<Message> {
    let asked = b"the body has another type than the function writes as its result";
    another(alloc, owners, body, asked, ty)
}

fn unlike_marshal(
    alloc: Global,
    owners: &Owners<'_>,
    term: &Term,
    parts: &[Typed],
) -> Option<Message> {
    let ([mark, value], Term::Marshal(ty, _, _)) = (parts, term) else {
        return None;
    };
    if let Some(message) = another(alloc, owners, mark, b"a mark is a string", &Ty::Str) {
        return Some(message);
    }
    let asked = b"what is marshalled has another type than is written";
    another(alloc, owners, value, asked, ty)
}

// The parts of a form that binds no variable and has no arms.
fn unlike_plain(
    alloc: Global,
    owners: &Owners<'_>,
    tree: &SExpr,
    parts: &[Typed],
) -> Option<Message> {
    match &tree.kind {
        SExprKind::If(_, _, _) => unlike_choice(alloc, owners, parts),
        SExprKind::Cons(_, _) => unlike_list(alloc, owners, parts),
        SExprKind::Seq(_) => unlike_sequence(alloc, owners, parts),
        SExprKind::Op(primitive, _) => unlike_operands(alloc, owners, *primitive, parts),
        SExprKind::And(_, _) | SExprKind::Or(_, _) => {
            let asked = b"both sides of `&&` and `||` are bools";
            unlike_any(alloc, owners, parts, asked, &Ty::Bool)
        }
        SExprKind::Raise(_, _) => {
            unlike_any(alloc, owners, parts, b"what is raised is an exn", &Ty::Exn)
        }
        SExprKind::ExnOf(_, _) => {
            let asked = b"an exception takes a string";
            unlike_any(alloc, owners, parts, asked, &Ty::Str)
        }
        SExprKind::Unmarshal(_, _) => {
            let asked = b"what is unmarshalled is a string";
            unlike_any(alloc, owners, parts, asked, &Ty::Str)
        }
        _ => None,
    }
}

/// What is said of the part of an expression without a type that has another type than is wanted of
/// it. `None` where the parts agree, as where a type is too large.
pub fn why_unlike(
    alloc: Global,
    standing: &Standing<'_>,
    owners: &Owners<'_>,
    found: &Untyped<'_>,
) -> Result<Option<Message>, Memory>
    requires { length standing.now.env.now.entries < 2 ^ 32 }
{
    let parts = found.parts.as_slice();
    match &found.tree.kind {
        SExprKind::App(function, _) => unlike_application(alloc, owners, function, parts),
        SExprKind::Let(_, _, _, _) | SExprKind::Rec(_) | SExprKind::LetRec(_, _) => {
            Ok(unlike_binding(alloc, owners, found.term, parts))
        }
        SExprKind::Marshal(_, _, _) => Ok(unlike_marshal(alloc, owners, found.term, parts)),
        SExprKind::Match(_, cases) => {
            unlike_arm(alloc, standing, owners, found, cases.as_slice())
        }
        SExprKind::Try(_, cases) => {
            unlike_handler(alloc, standing, owners, found, cases.as_slice())
        }
        _ => Ok(unlike_plain(alloc, owners, found.tree, parts)),
    }
}

// Fields and expressions without a type, and fields of another type than they write.

ghost use Rattle.std.specs.Prelude.{◌<◌, ◌^◌, length};

use crate::unlike::why_unlike;
use crate::untyped::{Standing, Untyped, first_untyped};
use ac_syntax::{SExpr, SExprKind};
use ac_terms::{Field, Term};
use ac_text::Page;
use ac_types::limits::{HIGHEST_TYPE, MOST_TYPE_PARTS};
use ac_types::{Many, Memory, Ty};
use lens_say::{Message, Owners, write_fact, write_two};
use std::alloc::Global;

// The type that is written in an expression, where it decides whether that has one.
fn written(term: &Term) -> Option<&Ty> {
    match term {
        Term::Nil(ty) | Term::Empty(ty) => Some(ty),
        _ => None,
    }
}

// Adds how large a type may be.
fn write_size(page: &mut Page) {
    page.put(b"a type has at most ");
    page.number(u64::from(MOST_TYPE_PARTS));
    page.put(b" parts and a height of at most ");
    page.number(u64::from(HIGHEST_TYPE));
}

// What is said of an expression whose parts agree: a list or an option is written at another type,
// or the type is too large. The types of its parts stand below.
fn why_without(alloc: Global, owners: &Owners<'_>, found: &Untyped<'_>) -> Message {
    let mut message = Message::saying(alloc, found.tree.at, b"this has no type: ");
    match &found.tree.kind {
        SExprKind::Nil(_) => message.why.put(b"the type of `[]` is a list"),
        SExprKind::Absent(_) => message.why.put(b"the type of `None` is an option"),
        _ => write_size(&mut message.why),
    }
    if let Some(ty) = written(found.term) {
        write_fact(&mut message.more, owners, b"written:", ty);
    }
    for part in found.parts.as_slice() {
        write_fact(&mut message.more, owners, b"part of type", &part.ty);
    }
    message
}

/// What is said of the first part of an expression that has no type.
pub fn why_untyped(
    alloc: Global,
    standing: &Standing<'_>,
    owners: &Owners<'_>,
    tree: &SExpr,
    term: &Term,
) -> Result<Option<Message>, Memory>
    requires { length standing.now.env.now.entries < 2 ^ 32 }
{
    let Some(found) = first_untyped(alloc, standing, tree, term)? else {
        return Ok(None);
    };
    match why_unlike(alloc, standing, owners, &found)? {
        Some(message) => Ok(Some(message)),
        None => Ok(Some(why_without(alloc, owners, &found))),
    }
}

// What is said of a field of this type, which writes another.
fn why_other(alloc: Global, owners: &Owners<'_>, at: u32, written: &Ty, found: &Ty) -> Message {
    let asked = b"this field has another type than it writes";
    let mut message = Message::saying(alloc, at, asked);
    write_two(&mut message.more, owners, written, found);
    message
}

/// What is said of a field whose expression has no type, or another one than it writes; `None` where
/// it has the one that it writes.
pub fn why_field(
    alloc: Global,
    standing: &Standing<'_>,
    owners: &Owners<'_>,
    tree: &SExpr,
    field: &Field,
) -> Result<Option<Message>, Memory>
    requires { length standing.now.env.now.entries < 2 ^ 32 }
{
    let Some(ty) = standing.type_of(alloc, &field.term, &Many::new(alloc))? else {
        return why_untyped(alloc, standing, owners, tree, &field.term);
    };
    let message = if standing.sees(&ty, &field.ty) {
        None
    } else {
        Some(why_other(alloc, owners, tree.at, &field.ty, &ty))
    };
    drop(ty);
    Ok(message)
}

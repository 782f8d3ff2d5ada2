// Types, as the language writes them.

use crate::owners::Owners;
use ac_text::Page;
use ac_types::{Many, Ty};

#[cycle(types)]
fn write_tuple(page: &mut Page, owners: &Owners<'_>, parts: &Many<Ty>) {
    let mut between: &[u8] = b"";
    for part in parts.as_slice() {
        page.put(between);
        write_item(page, owners, part);
        between = b" * ";
    }
}

// A type in parentheses.
#[cycle(types)]
fn write_closed(page: &mut Page, owners: &Owners<'_>, ty: &Ty) {
    page.put(b"(");
    write_type_with_owner(page, owners, ty);
    page.put(b")");
}

// A type in front of `->`.
#[cycle(types)]
fn write_argument(page: &mut Page, owners: &Owners<'_>, ty: &Ty) {
    if let Ty::Fun(_, _) = ty {
        write_closed(page, owners, ty);
    } else {
        write_type_with_owner(page, owners, ty);
    }
}

// A type in front of `*`, `list` or `option`.
#[cycle(types)]
fn write_item(page: &mut Page, owners: &Owners<'_>, ty: &Ty) {
    if let Ty::Fun(_, _) | Ty::Tuple(_) = ty {
        write_closed(page, owners, ty);
    } else {
        write_type_with_owner(page, owners, ty);
    }
}

/// Adds a type, with the fewest parentheses.
#[cycle(types)]
pub fn write_type_with_owner(page: &mut Page, owners: &Owners<'_>, ty: &Ty) {
    match ty {
        Ty::Int => page.put(b"int"),
        Ty::Bool => page.put(b"bool"),
        Ty::Str => page.put(b"string"),
        Ty::Unit => page.put(b"unit"),
        Ty::Exn => page.put(b"exn"),
        Ty::Tuple(parts) => write_tuple(page, owners, parts),
        Ty::List(item) => {
            write_item(page, owners, item);
            page.put(b" list");
        }
        Ty::Opt(item) => {
            write_item(page, owners, item);
            page.put(b" option");
        }
        Ty::Fun(from, to) => {
            write_argument(page, owners, from);
            page.put(b" -> ");
            write_type_with_owner(page, owners, to);
        }
        Ty::Abs(name, word) => owners.write_abstract(page, name, word),
        Ty::Mine(word) => page.put(word.text().as_slice()),
    }
}

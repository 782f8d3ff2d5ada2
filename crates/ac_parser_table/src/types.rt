// The trees of types, written on the page.

use crate::page::TreePage;
use ac_syntax::{SType, STypeKind};

fn leaf(page: &mut TreePage, kind: &STypeKind, at: u32) {
    match kind {
        STypeKind::Int => page.leaf(b"int", at),
        STypeKind::Bool => page.leaf(b"bool", at),
        STypeKind::Str => page.leaf(b"string", at),
        STypeKind::Unit => page.leaf(b"unit", at),
        STypeKind::Exn => page.leaf(b"exn", at),
        STypeKind::Local(word) => page.leaf(word.text().as_slice(), at),
        STypeKind::Of(owner, name) => {
            page.open(b".", at);
            page.name(owner);
            page.name(name);
            page.close();
        }
        _ => {}
    }
}

/// Adds a type.
#[cycle(types)]
pub fn write_type(page: &mut TreePage, ty: &SType) {
    match &ty.kind {
        STypeKind::Tuple(parts) => {
            page.open(b"*", ty.at);
            write_types(page, parts.as_slice());
            page.close();
        }
        STypeKind::List(item) => {
            page.open(b"list", ty.at);
            write_type(page, item);
            page.close();
        }
        STypeKind::Opt(item) => {
            page.open(b"option", ty.at);
            write_type(page, item);
            page.close();
        }
        STypeKind::Fun(from, to) => {
            page.open(b"->", ty.at);
            write_type(page, from);
            write_type(page, to);
            page.close();
        }
        kind => leaf(page, kind, ty.at),
    }
}

#[cycle(types)]
fn write_types(page: &mut TreePage, types: &[SType]) {
    for ty in types {
        write_type(page, ty);
    }
}

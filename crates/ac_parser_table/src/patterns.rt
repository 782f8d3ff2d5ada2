// The trees of patterns, written on the page.

use crate::page::TreePage;
use crate::types::write_type;
use ac_syntax::{SPat, SPatKind};

fn leaf(page: &mut TreePage, kind: &SPatKind, at: u32) {
    match kind {
        SPatKind::Wild => page.leaf(b"_", at),
        SPatKind::Int(number) => page.integer(*number, at),
        SPatKind::Bool(truth) => page.truth(*truth, at),
        SPatKind::Str(text) => page.string(text, at),
        SPatKind::Unit => page.leaf(b"()", at),
        SPatKind::Nil => page.leaf(b"[]", at),
        SPatKind::Absent => page.leaf(b"None", at),
        SPatKind::Exn(exn) => page.leaf(exn.name(), at),
        SPatKind::Var(name, ty) => {
            page.open(b"var", at);
            page.name(name);
            write_type(page, ty);
            page.close();
        }
        _ => {}
    }
}

/// Adds a pattern.
#[cycle(patterns)]
pub fn write_pattern(page: &mut TreePage, pattern: &SPat) {
    match &pattern.kind {
        SPatKind::Tuple(parts) => {
            page.open(b"tuple", pattern.at);
            write_patterns(page, parts.as_slice());
            page.close();
        }
        SPatKind::Cons(head, tail) => {
            page.open(b"::", pattern.at);
            write_pattern(page, head);
            write_pattern(page, tail);
            page.close();
        }
        SPatKind::Present(item) => {
            page.open(b"Some", pattern.at);
            write_pattern(page, item);
            page.close();
        }
        SPatKind::ExnOf(exn, item) => {
            page.open(exn.name(), pattern.at);
            write_pattern(page, item);
            page.close();
        }
        kind => leaf(page, kind, pattern.at),
    }
}

#[cycle(patterns)]
fn write_patterns(page: &mut TreePage, patterns: &[SPat]) {
    for pattern in patterns {
        write_pattern(page, pattern);
    }
}

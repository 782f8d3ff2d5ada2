// Patterns, written on the sheet.

use crate::sheet::Sheet;
use crate::types::write_type;
use ac_terms::Pat;

fn truth(sheet: &mut Sheet, truth: bool) {
    sheet.leaf(if truth { b"true" } else { b"false" });
}

/// Adds a pattern.
#[cycle(patterns)]
pub fn write_pattern(sheet: &mut Sheet, pattern: &Pat) {
    match pattern {
        Pat::Wild => sheet.leaf(b"_"),
        Pat::Var(ty) => {
            sheet.open(b":");
            write_type(sheet, ty);
            sheet.close();
        }
        Pat::Int(number) => sheet.number(*number),
        Pat::Bool(so) => truth(sheet, *so),
        Pat::Str(text) => sheet.string(text),
        Pat::Unit => sheet.leaf(b"()"),
        Pat::Tuple(parts) => {
            sheet.open(b"tuple");
            for part in parts.as_slice() {
                write_pattern(sheet, part);
            }
            sheet.close();
        }
        Pat::Nil => sheet.leaf(b"[]"),
        Pat::Cons(head, tail) => {
            sheet.open(b"::");
            write_pattern(sheet, head);
            write_pattern(sheet, tail);
            sheet.close();
        }
        Pat::Absent => sheet.leaf(b"None"),
        Pat::Present(item) => {
            sheet.open(b"Some");
            write_pattern(sheet, item);
            sheet.close();
        }
        Pat::Exn(exn) => sheet.leaf(exn.name()),
        Pat::ExnOf(exn, item) => {
            sheet.open(exn.name());
            write_pattern(sheet, item);
            sheet.close();
        }
    }
}

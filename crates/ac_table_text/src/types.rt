// Types, written on the sheet.

use crate::sheet::Sheet;
use ac_types::{Ty, Word};

fn of(sheet: &mut Sheet, form: &[u8], word: &Word) {
    sheet.open(form);
    sheet.word(word);
    sheet.close();
}

/// Adds a type.
#[cycle(types)]
pub fn write_type(sheet: &mut Sheet, ty: &Ty) {
    match ty {
        Ty::Int => sheet.leaf(b"int"),
        Ty::Bool => sheet.leaf(b"bool"),
        Ty::Str => sheet.leaf(b"string"),
        Ty::Unit => sheet.leaf(b"unit"),
        Ty::Exn => sheet.leaf(b"exn"),
        Ty::Tuple(parts) => {
            sheet.open(b"*");
            for part in parts.as_slice() {
                write_type(sheet, part);
            }
            sheet.close();
        }
        Ty::List(item) => {
            sheet.open(b"list");
            write_type(sheet, item);
            sheet.close();
        }
        Ty::Opt(item) => {
            sheet.open(b"option");
            write_type(sheet, item);
            sheet.close();
        }
        Ty::Fun(from, to) => {
            sheet.open(b"->");
            write_type(sheet, from);
            write_type(sheet, to);
            sheet.close();
        }
        Ty::Abs(name, word) => {
            sheet.open(b"of");
            sheet.name(name);
            sheet.word(word);
            sheet.close();
        }
        Ty::Mine(word) => of(sheet, b"own", word),
    }
}

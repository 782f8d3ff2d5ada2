// Types, written.

use ac_text::Page;
use ac_types::{Many, Name, Ty};

/// The name that the module keeps.
pub const NAME: Name = Name([7; 32]);

/// The name that the import by version keeps.
pub const OTHER: Name = Name([8; 32]);

/// Adds the words of a type.
#[cycle(write_type)]
pub fn write_type(page: &mut Page, ty: &Ty) {
    match ty {
        Ty::Int => page.put(b" int"),
        Ty::Bool => page.put(b" bool"),
        Ty::Str => page.put(b" string"),
        Ty::Unit => page.put(b" unit"),
        Ty::Exn => page.put(b" exn"),
        Ty::Tuple(parts) => write_tuple(page, parts),
        Ty::List(item) => {
            page.put(b" list");
            write_type(page, item);
        }
        Ty::Opt(item) => {
            page.put(b" option");
            write_type(page, item);
        }
        Ty::Fun(from, to) => {
            page.put(b" fun");
            write_type(page, from);
            write_type(page, to);
        }
        Ty::Abs(name, _) if name.0 == OTHER.0 => page.put(b" imported"),
        Ty::Abs(_, _) => page.put(b" abstract"),
        Ty::Mine(_) => page.put(b" mine"),
    }
}

#[cycle(write_type)]
fn write_tuple(page: &mut Page, parts: &Many<Ty>) {
    page.put(b" tuple ");
    page.number(parts.len() as u64);
    for ty in parts.as_slice() {
        write_type(page, ty);
    }
}

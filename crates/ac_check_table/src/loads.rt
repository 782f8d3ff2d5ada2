// Programs by themselves: their types, or why they are refused.

use crate::types::write_type;
use ac_load::{Kind, Refusal, Shelf, load};
use ac_text::Page;
use std::alloc::Global;

fn write_place(page: &mut Page, cause: &[u8], at: u32) {
    page.put(cause);
    page.number(u64::from(at));
}

fn write_both(page: &mut Page, cause: &[u8], first: u32, second: u32) {
    write_place(page, cause, first);
    page.put(b" ");
    page.number(u64::from(second));
}

fn write_kind(page: &mut Page, kind: Kind) {
    match kind {
        Kind::TooLong { len } => {
            page.put(b" too_long ");
            page.number(len);
        }
        Kind::Lexical { at } => write_place(page, b" lexical at ", at),
        Kind::TooDeep { at } => write_place(page, b" too_deep at ", at),
        Kind::Syntax { at } => write_place(page, b" syntax at ", at),
        Kind::Unbound { at } => write_place(page, b" unbound at ", at),
        Kind::Repeated { at } => write_place(page, b" repeated at ", at),
        Kind::TooMany { count } => write_place(page, b" too_many ", count),
        Kind::IllTyped { def } => write_place(page, b" ill_typed ", def),
        Kind::Signature { def, spec } => write_both(page, b" signature ", def, spec),
        Kind::NotValuable { def, field } => write_both(page, b" not_valuable ", def, field),
        Kind::LikeMissing { def, spec } => write_both(page, b" like_missing ", def, spec),
        Kind::Unresolved { def } => write_place(page, b" unresolved ", def),
        Kind::Clash { first, second } => write_both(page, b" clash ", first, second),
        Kind::Memory => page.lose(),
    }
}

fn write_refusal(page: &mut Page, refusal: Refusal) {
    if refusal.part == 0 {
        write_kind(page, refusal.kind);
    } else {
        page.put(b" a shelf");
    }
}

/// Adds the type of a program, or why it is refused.
pub fn write_program(alloc: Global, page: &mut Page, text: &[u8]) {
    let shelf = Shelf::empty(alloc);
    match load(alloc, text, &shelf) {
        Ok(loaded) => {
            write_type(page, &loaded.ty);
            drop(loaded);
        }
        Err(refusal) => write_refusal(page, refusal),
    }
    drop(shelf);
}

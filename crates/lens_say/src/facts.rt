// Lines below a message, and names in its text.

use crate::owners::Owners;
use crate::types::write_type_with_owner;
use ac_text::Page;
use ac_types::Ty;

/// Adds a name between backticks.
pub fn write_name(page: &mut Page, name: &[u8]) {
    page.put(b"`");
    page.put(name);
    page.put(b"`");
}

/// Adds a line: what it is, and a type.
pub fn write_fact(page: &mut Page, owners: &Owners<'_>, what: &[u8], ty: &Ty) {
    page.put(b"  ");
    page.put(what);
    page.put(b" ");
    write_type_with_owner(page, owners, ty);
    page.put(b"\n");
}

/// Adds the type that is wanted and below it the one that is found.
pub fn write_two(page: &mut Page, owners: &Owners<'_>, wanted: &Ty, found: &Ty) {
    write_fact(page, owners, b"wanted:", wanted);
    write_fact(page, owners, b"found: ", found);
}

// The line of a refusal as `acute` writes it.

use ac_load::{Kind, Refusal};
use ac_text::Page;

// The word of a refusal and its number.
fn told(kind: Kind) -> (&'static [u8], u64) {
    match kind {
        Kind::TooLong { len } => (b"too_long", len),
        Kind::Lexical { at } => (b"lexical", u64::from(at)),
        Kind::TooDeep { at } => (b"too_deep", u64::from(at)),
        Kind::Syntax { at } => (b"syntax", u64::from(at)),
        Kind::Unbound { at } => (b"unbound", u64::from(at)),
        Kind::Repeated { at } => (b"repeated", u64::from(at)),
        Kind::TooMany { count } => (b"too_many", u64::from(count)),
        Kind::IllTyped { def } => (b"type", u64::from(def)),
        Kind::Signature { def, .. } => (b"signature", u64::from(def)),
        Kind::NotValuable { def, .. } => (b"not_valuable", u64::from(def)),
        Kind::LikeMissing { def, .. } => (b"like_missing", u64::from(def)),
        Kind::Unresolved { def } => (b"unresolved", u64::from(def)),
        Kind::Clash { second, .. } => (b"clash", u64::from(second)),
        Kind::Memory => (b"memory", 0),
    }
}

/// Adds a refusal as the line of `acute` has it.
pub fn write_cause(page: &mut Page, refusal: Refusal) {
    let (word, number) = told(refusal.kind);
    if refusal.part > 0 {
        page.put(b"shelf ");
        page.number(u64::from(refusal.part));
        page.put(b": ");
    }
    page.put(word);
    page.put(b" at ");
    page.number(number);
}

/// Adds the line of a refusal as `acute` writes it.
pub fn write_told(page: &mut Page, refusal: Refusal) {
    page.put(b"  acute: refused: ");
    write_cause(page, refusal);
    page.put(b"\n");
}

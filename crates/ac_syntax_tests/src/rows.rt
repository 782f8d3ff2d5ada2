// Tables of texts, and behind `~` what is read of them.

use ac_text::Page;
use std::alloc::Global;
use std::process::Abort;

/// What reads the texts of a table.
pub trait Reader {
    /// What is read of a text, as a row has it.
    fn read(rt: &impl Abort, alloc: Global, text: &str) -> Page;
}

/// Checks what is read of each text of a table.
pub fn check_rows<R: Reader>(rt: &impl Abort, alloc: Global, rows: &str) {
    for row in rows.lines() {
        let (text, want) = row.split_once('~').expect(rt, "a row");
        let page = R::read(rt, alloc, text);
        assert_eq!(rt; page.bytes(), Some(want.as_bytes()));
    }
}

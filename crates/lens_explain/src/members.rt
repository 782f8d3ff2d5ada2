// Members of an object of JSON.

use crate::json::write_string;
use ac_text::Page;

/// Adds the name of a member behind another one.
pub fn put_member_name(page: &mut Page, name: &[u8]) {
    page.put(b",\"");
    page.put(name);
    page.put(b"\":");
}

/// Adds a member that is a string.
pub fn put_text_member(page: &mut Page, name: &[u8], text: &[u8]) {
    put_member_name(page, name);
    write_string(page, text);
}

/// Adds a member that is a string, which stands on another page.
pub fn put_page_member(page: &mut Page, name: &[u8], said: &Page) {
    match said.bytes() {
        Some(bytes) => put_text_member(page, name, bytes),
        None => page.lose(),
    }
}

/// Adds a member that is a number.
pub fn put_number_member(page: &mut Page, name: &[u8], number: u64) {
    put_member_name(page, name);
    page.number(number);
}

// A line without the two spaces in front of it.
fn shown(line: &[u8]) -> &[u8] {
    match line {
        [b' ', b' ', rest @ ..] => rest,
        _ => line,
    }
}

/// Adds a member that is a list of strings, the lines of another page.
pub fn put_lines_member(page: &mut Page, name: &[u8], lines: &Page) {
    let Some(bytes) = lines.bytes() else {
        page.lose();
        return;
    };
    put_member_name(page, name);
    page.put(b"[");
    let mut between: &[u8] = b"";
    for line in bytes.split(|byte| *byte == b'\n') {
        if !line.is_empty() {
            page.put(between);
            write_string(page, shown(line));
            between = b",";
        }
    }
    page.put(b"]");
}

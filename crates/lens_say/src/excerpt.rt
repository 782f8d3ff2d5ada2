// Lines of a text, shown with a caret.

ghost use Rattle.std.specs.Prelude.{◌≤◌, length};

use ac_text::{Page, place_behind};

// The most bytes of a line that are shown in front of a place, and as many from it on.
const SHOWN: usize = 100;

// A byte that a terminal may take for a command is shown as `?`.
fn write_shown(page: &mut Page, byte: u8) {
    match byte {
        b'\t' | 32..=126 | 128..=255 => page.put(&[byte]),
        _ => page.put(b"?"),
    }
}

// The room in front of a caret: a tab for a tab, and nothing for a byte that goes on with a letter.
fn write_room(page: &mut Page, byte: u8) {
    match byte {
        b'\t' => page.put(b"\t"),
        128..=191 => {}
        _ => page.put(b" "),
    }
}

/// Adds the line of a text around the place of a byte, and a caret below that byte. Of a long line
/// a piece is shown.
pub fn write_excerpt(page: &mut Page, text: &[u8], at: u32) {
    let (front, rest) = text.split_at((at as usize).min(text.len()));
    let start = front.len() - shown_behind(front);
    for byte in &front[start..] {
        write_shown(page, *byte);
    }
    for byte in &rest[..shown_in(rest)] {
        write_shown(page, *byte);
    }
    page.put(b"\n");
    for byte in &front[start..] {
        write_room(page, *byte);
    }
    page.put(b"^\n");
}

// How many of the last bytes stand in one line, at most those that are shown.
fn shown_behind(bytes: &[u8]) -> usize
    ensures { result ≤ length bytes.now }
{
    let most = bytes.len().min(SHOWN);
    for i in 0..most {
        if bytes[bytes.len() - 1 - i] == b'\n' {
            return i;
        }
    }
    most
}

// How many of the first bytes stand in one line, at most those that are shown.
fn shown_in(bytes: &[u8]) -> usize
    ensures { result ≤ length bytes.now }
{
    let most = bytes.len().min(SHOWN);
    for i in 0..most {
        if bytes[i] == b'\n' {
            return i;
        }
    }
    most
}

/// Adds the line and the column of a byte, with a colon between them.
pub fn write_place(page: &mut Page, text: &[u8], at: u32) {
    let place = place_behind(&text[..(at as usize).min(text.len())]);
    page.number(place.line as u64);
    page.put(b":");
    page.number(place.column as u64);
}

fn is_part(byte: u8) -> bool {
    matches!(byte, b'a'..=b'z' | b'A'..=b'Z' | b'0'..=b'9' | b'_' | b'\'')
}

/// The bytes of the name that begins at a place.
pub fn name_at(text: &[u8], at: u32) -> &[u8] {
    let rest = &text[(at as usize).min(text.len())..];
    for i in 0..rest.len() {
        if !is_part(rest[i]) {
            return &rest[..i];
        }
    }
    rest
}

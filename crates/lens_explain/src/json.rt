// Strings of JSON.

use ac_text::Page;

const DIGITS: &[u8] = b"0123456789abcdef";

fn write_digit(page: &mut Page, digit: u8) {
    match DIGITS.get(digit as usize) {
        Some(byte) => page.put(&[*byte]),
        None => page.lose(),
    }
}

fn write_byte(page: &mut Page, byte: u8) {
    match byte {
        b'"' => page.put(b"\\\""),
        b'\\' => page.put(b"\\\\"),
        0..=31 | 127 => {
            page.put(b"\\u00");
            write_digit(page, byte / 16);
            write_digit(page, byte % 16);
        }
        _ => page.put(&[byte]),
    }
}

/// Adds a string of JSON. Of bytes that aren't UTF-8, those beyond ASCII are replaced.
pub fn write_string(page: &mut Page, bytes: &[u8]) {
    let is_text = str::from_utf8(bytes).is_ok();
    page.put(b"\"");
    for byte in bytes {
        if is_text || byte.is_ascii() {
            write_byte(page, *byte);
        } else {
            page.put(b"\\ufffd");
        }
    }
    page.put(b"\"");
}

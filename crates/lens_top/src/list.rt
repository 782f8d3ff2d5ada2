// What is said of a bad line of the list of a shelf.

use ac_text::Page;
use ac_types::limits::{LONGEST_SHELF_LIST, LONGEST_URI, MOST_SHELF_ENTRIES};
use lens_explain::{Form, Heading, put_number_member, put_text_member};
use lens_say::{write_excerpt, write_place};

fn line_feed(bytes: &[u8]) -> Option<usize> {
    bytes.iter().position(|byte| *byte == b'\n')
}

fn space(bytes: &[u8]) -> Option<usize> {
    bytes.iter().position(|byte| *byte == b' ')
}

// The place of line `number`, from 1.
fn start_of(text: &[u8], number: u32) -> usize {
    let mut left = number;
    let mut start = 0usize;
    for i in 0..text.len() {
        if left <= 1 {
            return start;
        }
        if text[i] == b'\n' {
            left -= 1;
            start = i + 1;
        }
    }
    start
}

// The URI of a line.
fn uri_of(line: &[u8]) -> &[u8] {
    match space(line) {
        Some(at) => line.get(..at).unwrap_or(b""),
        None => line,
    }
}

// Whether a line in front has this URI, and how many lines aren't empty.
fn lines_in_front(front: &[u8], uri: &[u8]) -> (bool, usize) {
    let mut is_there = false;
    let mut count = 0usize;
    for line in front.split(|byte| *byte == b'\n') {
        if !line.is_empty() {
            count = count.saturating_add(1);
            is_there |= uri_of(line) == uri;
        }
    }
    (is_there, count)
}

// What is wrong with a line by itself.
fn wrong_form(line: &[u8]) -> Option<&'static [u8]> {
    let Some(at) = space(line) else {
        if line == b"\r".as_slice() {
            return Some(b"a line ends with a line feed alone, without a carriage return");
        }
        return Some(b"a line is `URI FILE`, with one space between the two");
    };
    let file = line.get(at.saturating_add(1)..).unwrap_or(b"");
    if at == 0 || file.is_empty() {
        return Some(b"a line is `URI FILE`, and neither of the two is empty");
    }
    if space(file).is_some() {
        return Some(b"a line has one space: comments and names with spaces have no form");
    }
    if at > LONGEST_URI as usize {
        return Some(b"this URI is too long");
    }
    if str::from_utf8(file).is_err() {
        return Some(b"this name of a file isn't UTF-8");
    }
    None
}

// What is wrong with a line behind others.
fn wrong_behind(front: &[u8], line: &[u8]) -> &'static [u8] {
    let (is_there, count) = lines_in_front(front, uri_of(line));
    if is_there {
        return b"an earlier line has this URI";
    }
    if count >= MOST_SHELF_ENTRIES {
        return b"the list has too many modules";
    }
    if front.len().saturating_add(line.len()) >= LONGEST_SHELF_LIST {
        return b"the list is too long";
    }
    b"this line of the list is bad"
}

// What is wrong with a line behind this front of the text.
fn wrong(front: &[u8], line: &[u8]) -> &'static [u8] {
    match wrong_form(line) {
        Some(said) => said,
        None => wrong_behind(front, line),
    }
}

// The line that begins with these bytes.
fn line_of(rest: &[u8]) -> &[u8] {
    match line_feed(rest) {
        Some(end) => rest.get(..end).unwrap_or(rest),
        None => rest,
    }
}

fn write_lines(page: &mut Page, list: &str, text: &[u8], at: u32, said: &[u8]) {
    page.put(list.as_bytes());
    page.put(b":");
    write_place(page, text, at);
    page.put(b": refused: ");
    page.put(said);
    page.put(b"\n");
    write_excerpt(page, text, at);
}

fn write_json(page: &mut Page, list: &str, number: u32, at: u32, said: &[u8]) {
    page.put(b"{\"verdict\":\"shelf refused\"");
    put_text_member(page, b"file", list.as_bytes());
    put_number_member(page, b"line", u64::from(number));
    put_number_member(page, b"column", 1);
    put_number_member(page, b"byte", u64::from(at));
    put_text_member(page, b"message", said);
    page.put(b"}\n");
}

/// Adds what is said of a bad line of the list of a shelf.
pub fn write_bad_line(page: &mut Page, list: Heading<'_>, text: &[u8], number: u32) {
    let start = start_of(text, number);
    let front = text.get(..start).unwrap_or(b"");
    let said = wrong(front, line_of(text.get(start..).unwrap_or(b"")));
    let at = u32::try_from(start).unwrap_or(0);
    match list.form {
        Form::Lines => write_lines(page, list.file, text, at, said),
        Form::Json => write_json(page, list.file, number, at, said),
    }
}

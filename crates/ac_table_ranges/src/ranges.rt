// Where the same answers stand.

use ac_text::Page;
use ac_types::Text;

/// How places among answers are written.
#[derive(Clone, Copy)]
pub enum Places {
    /// By decimal digits.
    Lengths,
    /// By two hexadecimal digits.
    Bytes,
}

impl Places {
    fn put(self, page: &mut Page, place: usize) {
        match self {
            Places::Lengths => page.number(place as u64),
            Places::Bytes => put_hex(page, u8::try_from(place).unwrap_or(u8::MAX)),
        }
    }

    // What stands from one place to another.
    fn put_range(self, page: &mut Page, first: usize, last: usize) {
        self.put(page, first);
        if first != last {
            page.put(b"-");
            self.put(page, last);
        }
        page.put(b" ");
    }
}

/// Adds a byte, as two hexadecimal digits.
pub fn put_hex(page: &mut Page, byte: u8) {
    let digits = b"0123456789abcdef".as_slice();
    let high = digits[usize::from(byte / 16)];
    let low = digits[usize::from(byte % 16)];
    page.put(&[high, low]);
}

/// Adds each answer behind the places where it stands, in the order in which they come first.
pub fn put_answers(page: &mut Page, answers: &[Text], places: Places) {
    for (i, answer) in answers.iter().enumerate() {
        let bytes = answer.as_slice();
        if answers.iter().position(|other| other.as_slice() == bytes) == Some(i) {
            page.put(if i == 0 {
                b"".as_slice()
            } else {
                b", ".as_slice()
            });
            put_ranges(page, answers, bytes, places);
            page.put(bytes);
        }
    }
}

// The places where an answer stands, a blank behind each range.
fn put_ranges(page: &mut Page, answers: &[Text], answer: &[u8], places: Places) {
    let mut from = None;
    for (i, other) in answers.iter().enumerate() {
        if other.as_slice() == answer {
            from = Some(from.unwrap_or(i));
        } else if let Some(first) = from {
            places.put_range(page, first, i.saturating_sub(1));
            from = None;
        }
    }
    if let Some(first) = from {
        places.put_range(page, first, answers.len().saturating_sub(1));
    }
}

/// Adds lines, those that follow one another and are alike once, behind their places.
pub fn put_lines(page: &mut Page, lines: &[Page]) {
    let mut first = 0;
    for (at, line) in lines.iter().enumerate() {
        let next = at.saturating_add(1);
        if !is_same(line, lines.get(next)) {
            put_line(page, first, at, line);
            first = next;
        }
    }
}

fn is_same(line: &Page, next: Option<&Page>) -> bool {
    match next {
        Some(next) => next.bytes() == line.bytes(),
        None => false,
    }
}

fn put_line(page: &mut Page, first: usize, last: usize, line: &Page) {
    page.number(first as u64);
    if first != last {
        page.put(b"-");
        page.number(last as u64);
    }
    page.put(b": ");
    match line.bytes() {
        Some(bytes) => page.put(bytes),
        None => page.lose(),
    }
    page.put(b"\n");
}

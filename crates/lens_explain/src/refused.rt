// What is said of a refused text.

use crate::heading::{Form, Heading, put_page};
use crate::members::{put_lines_member, put_number_member, put_page_member, put_text_member};
use crate::reasons::{Subject, why};
use crate::told::{write_cause, write_told};
use ac_load::Refusal;
use ac_text::{Page, place_behind};
use ac_types::Memory;
use lens_say::{Message, write_excerpt, write_place};
use std::alloc::Global;

/// A place in a text, behind a colon, and what is said of it behind the words of the verdict.
#[derive(Drop)]
pub struct Refused {
    /// The place.
    pub place: Page,
    /// What is said.
    pub said: Page,
}

// Whether a text has carriage returns and no line feed.
fn is_one_line(text: &[u8]) -> bool {
    has(text, b'\r') && !has(text, b'\n')
}

fn has(text: &[u8], byte: u8) -> bool {
    text.iter().any(|other| *other == byte)
}

// What there is to say besides.
fn details(alloc: Global, text: &[u8], message: &Message) -> Page {
    let mut page = Page::new(alloc);
    put_page(&mut page, &message.more);
    if is_one_line(text) {
        page.put(b"  the lines end with carriage returns alone, so the text is one line\n");
    }
    page
}

fn in_lines(alloc: Global, text: &[u8], refusal: Refusal, message: &Message) -> Refused {
    let mut place = Page::new(alloc);
    place.put(b":");
    write_place(&mut place, text, message.at);
    let mut said = Page::new(alloc);
    put_page(&mut said, &message.why);
    said.put(b"\n");
    write_excerpt(&mut said, text, message.at);
    put_page(&mut said, &details(alloc, text, message));
    write_told(&mut said, refusal);
    Refused { place, said }
}

fn in_json(alloc: Global, file: &str, text: &[u8], refusal: Refusal, message: &Message) -> Refused {
    let mut said = Page::new(alloc);
    let place = place_behind(&text[..(message.at as usize).min(text.len())]);
    put_text_member(&mut said, b"file", file.as_bytes());
    put_number_member(&mut said, b"line", place.line as u64);
    put_number_member(&mut said, b"column", place.column as u64);
    put_number_member(&mut said, b"byte", u64::from(message.at));
    put_page_member(&mut said, b"message", &message.why);
    put_lines_member(&mut said, b"details", &details(alloc, text, message));
    let mut cause = Page::new(alloc);
    write_cause(&mut cause, refusal);
    put_page_member(&mut said, b"cause", &cause);
    said.put(b"}\n");
    let place = Page::new(alloc);
    Refused { place, said }
}

/// What is said of a text that is refused so.
pub fn refusal_said(
    alloc: Global,
    heading: Heading<'_>,
    subject: &Subject<'_>,
    refusal: Refusal,
) -> Result<Refused, Memory> {
    let message = why(alloc, subject, refusal.kind)?;
    Ok(match heading.form {
        Form::Lines => in_lines(alloc, subject.text, refusal, &message),
        Form::Json => in_json(alloc, heading.file, subject.text, refusal, &message),
    })
}

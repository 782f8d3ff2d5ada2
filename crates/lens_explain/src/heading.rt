// How a verdict is said of a file.

ghost use Rattle.std.specs.Prelude.{◌≡◌, IfSome};
ghost use Rattle.lens_explain.specs.Verdicts.{SaysVerdict, SaysInLines, SaysInJson, verdict_words, json_words};
ghost use Rattle.lens_explain.specs.inner.Pages.{Adds};

use crate::explained::TextVerdict;
use ac_text::Page;
use std::alloc::Global;

/// The form of what is said.
#[derive(Clone, Copy, Debug, PartialEq, Eq)]
pub enum Form {
    /// Lines for people and editors.
    Lines,
    /// A line of JSON for tools.
    Json,
}

/// The file of which something is said, and in which form.
#[derive(Clone, Copy)]
pub struct Heading<'a> {
    /// The form.
    pub form: Form,
    /// The file.
    pub file: &'a str,
}

impl TextVerdict {
    // The words of the verdict in lines.
    fn words(self) -> &'static [u8]
        ensures { result.now ≡ verdict_words self }
    {
        match self {
            TextVerdict::Accepted => b": accepted, of type ",
            TextVerdict::AcceptedModule => b": accepted as a module of a shelf",
            TextVerdict::Refused => b": refused: ",
        }
    }

    // The words of the verdict in JSON.
    fn json_words(self) -> &'static [u8]
        ensures { result.now ≡ json_words self }
    {
        match self {
            TextVerdict::Accepted => b"{\"verdict\":\"accepted\"",
            TextVerdict::AcceptedModule => b"{\"verdict\":\"accepted module\"",
            TextVerdict::Refused => b"{\"verdict\":\"refused\"",
        }
    }
}

/// Adds what is on another page, and is lost where that is.
pub fn put_page(page: &mut Page, more: &Page)
    ensures { Adds page.old page.new }
{
    match more.bytes() {
        Some(bytes) => page.put(bytes),
        None => page.lose(),
    }
}

// Lines that say a verdict of a file, perhaps with a place in it.
fn in_lines(alloc: Global, file: &str, place: &Page, verdict: TextVerdict, more: &Page) -> Page
    ensures { IfSome result (SaysInLines verdict) }
{
    let mut page = Page::new(alloc);
    page.put(file.as_bytes());
    put_page(&mut page, place);
    page.put(verdict.words());
    put_page(&mut page, more);
    page
}

// JSON that says a verdict.
fn in_json(alloc: Global, verdict: TextVerdict, more: &Page) -> Page
    ensures { IfSome result (SaysInJson verdict) }
{
    let mut page = Page::new(alloc);
    page.put(verdict.json_words());
    put_page(&mut page, more);
    page
}

impl Heading<'_> {
    /// What says a verdict of the file: its name, perhaps a place in it, the words of the verdict, and
    /// more; in JSON the words and more. It is lost where one of the two pages is.
    pub fn headed(self, alloc: Global, place: &Page, verdict: TextVerdict, more: &Page) -> Page
        ensures { IfSome result (SaysVerdict self.entry.form verdict) }
    {
        match self.form {
            Form::Lines => in_lines(alloc, self.file, place, verdict, more),
            Form::Json => in_json(alloc, verdict, more),
        }
    }
}

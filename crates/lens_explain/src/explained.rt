// What is said of a text beside a shelf.

ghost use Rattle.std.specs.Prelude.{◌≡◌, ◌≤◌, IfOk, IfSome, length};
ghost use Rattle.ac_types.specs.Limits.{most_shelf_entries};
ghost use Rattle.ac_load_rules.specs.Accepting.{IsShelf};
ghost use Rattle.ac_load.specs.Kinds.{Says};
ghost use Rattle.ac_load.specs.Loading.{shelf_of, Rejects};
ghost use Rattle.lens_explain.specs.Verdicts.{IsRight, IsRejected, SaysVerdict};

use crate::accepted::program_said;
use crate::heading::Heading;
use crate::module::{explain_module, is_module};
use crate::reasons::Subject;
use crate::refused::refusal_said;
use ac_load::{Kind, Refusal, Shelf, load};
use ac_text::Page;
use ac_types::Memory;
use acute_files::ShelfLine;
use lens_hints::Grammar;
use std::alloc::Global;

/// What is said of a text: whether it is accepted.
#[derive(Clone, Copy, Debug, PartialEq, Eq)]
pub enum TextVerdict {
    /// It is accepted.
    Accepted,
    /// It is a module by itself, and accepted as a module of a shelf.
    AcceptedModule,
    /// It is refused, or a module of the shelf is.
    Refused,
}

/// What is said of a text.
#[derive(Drop)]
pub struct Explained {
    /// Whether it is accepted.
    pub verdict: TextVerdict,
    /// What is printed.
    pub page: Page,
}

/// A shelf, and the lines of its list.
#[derive(Clone, Copy)]
pub struct Beside<'a> {
    /// The texts of the shelf.
    pub shelf: &'a Shelf,
    /// The lines of its list, which name the files of the texts.
    pub lines: &'a [ShelfLine],
}

/// What is said of the text of a file beside a shelf. What is printed begins with the verdict, and the
/// verdict is right.
pub fn explain(
    alloc: Global,
    beside: &Beside<'_>,
    heading: Heading<'_>,
    text: &[u8],
) -> Result<Explained, Memory>
    requires few { length beside.now.shelf.now.0 ≤ most_shelf_entries }
    requires shelved { IsShelf (shelf_of beside.now.shelf.now) }
    ensures right { IfOk result (λ x. IsRight text.now (shelf_of beside.now.shelf.now) x.verdict) }
    ensures said { IfOk result (λ x. IfSome x.page (SaysVerdict heading.entry.form x.verdict)) }
{
    match load(alloc, text, beside.shelf) {
        Ok(loaded) => {
            let front = beside.shelf.0.len();
            let said = program_said(alloc, heading, &loaded, front);
            drop(loaded);
            let verdict = TextVerdict::Accepted;
            let page = heading.headed(alloc, &Page::new(alloc), verdict, &said);
            Ok(Explained { verdict, page })
        }
        Err(refusal) => explain_refused(alloc, beside, heading, text, refusal),
    }
}

// The same of a text that is refused so as a program.
fn explain_refused(
    alloc: Global,
    beside: &Beside<'_>,
    heading: Heading<'_>,
    text: &[u8],
    refusal: Refusal,
) -> Result<Explained, Memory>
    requires refused { Says refusal.kind (Rejects text.now (shelf_of beside.now.shelf.now)
        refusal.part refusal.kind) }
    ensures right { IfOk result (λ x. IsRight text.now (shelf_of beside.now.shelf.now) x.verdict) }
    ensures said { IfOk result (λ x. IfSome x.page (SaysVerdict heading.entry.form x.verdict)) }
{
    match refusal.kind {
        Kind::Memory => Err(Memory),
        _ => explain_rejected(alloc, beside, heading, text, refusal),
    }
}

// Whether a refusal is one of syntax, of a program that is a module by itself.
fn is_of_module(alloc: Global, text: &[u8], refusal: Refusal) -> Result<bool, Memory> {
    match refusal.kind {
        Kind::Syntax { at: _ } if refusal.part == 0 => is_module(alloc, text),
        _ => Ok(false),
    }
}

fn explain_rejected(
    alloc: Global,
    beside: &Beside<'_>,
    heading: Heading<'_>,
    text: &[u8],
    refusal: Refusal,
) -> Result<Explained, Memory>
    requires rejected { IsRejected text.now (shelf_of beside.now.shelf.now) }
    ensures right { IfOk result (λ x. IsRight text.now (shelf_of beside.now.shelf.now) x.verdict) }
    ensures said { IfOk result (λ x. IfSome x.page (SaysVerdict heading.entry.form x.verdict)) }
{
    match is_of_module(alloc, text, refusal) {
        Ok(true) => explain_module(alloc, heading, text),
        Ok(false) => explain_part(alloc, beside, heading, text, refusal),
        Err(memory) => Err(memory),
    }
}

// The name of the file of a text of the shelf.
fn file_of<'a>(lines: &'a [ShelfLine], number: usize) -> &'a str {
    match lines.get(number) {
        Some(line) => line.file.as_str(),
        None => "the shelf",
    }
}

// What is said of the part that is refused: the program, or a text of the shelf.
fn explain_part(
    alloc: Global,
    beside: &Beside<'_>,
    heading: Heading<'_>,
    text: &[u8],
    refusal: Refusal,
) -> Result<Explained, Memory>
    requires rejected { IsRejected text.now (shelf_of beside.now.shelf.now) }
    ensures right { IfOk result (λ x. IsRight text.now (shelf_of beside.now.shelf.now) x.verdict) }
    ensures said { IfOk result (λ x. IfSome x.page (SaysVerdict heading.entry.form x.verdict)) }
{
    let texts = beside.shelf.0.as_slice();
    let number = (refusal.part as usize).checked_sub(1);
    match number {
        Some(number) if number < texts.len() => {
            let subject = Subject {
                grammar: Grammar::Module,
                text: texts[number].text.as_slice(),
                shelf: &texts[..number],
            };
            let heading = Heading {
                form: heading.form,
                file: file_of(beside.lines, number),
            };
            explain_subject(alloc, heading, &subject, refusal)
        }
        _ => {
            let subject = Subject {
                grammar: Grammar::Program,
                text,
                shelf: texts,
            };
            explain_subject(alloc, heading, &subject, refusal)
        }
    }
}

/// What is said of a text of that file that is refused so.
pub fn explain_subject(
    alloc: Global,
    heading: Heading<'_>,
    subject: &Subject<'_>,
    refusal: Refusal,
) -> Result<Explained, Memory>
    ensures refused { IfOk result (λ x. x.verdict ≡ TextVerdict.Refused) }
    ensures said { IfOk result (λ x. IfSome x.page (SaysVerdict heading.entry.form x.verdict)) }
{
    let found = refusal_said(alloc, heading, subject, refusal)?;
    let verdict = TextVerdict::Refused;
    let page = heading.headed(alloc, &found.place, verdict, &found.said);
    Ok(Explained { verdict, page })
}

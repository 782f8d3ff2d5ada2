// A module by itself, as a text of a shelf.

ghost use Rattle.std.specs.Prelude.{◌≡◌, ◌∷◌, [], List, IfOk, IfSome, codes, length};
ghost use Rattle.ac_load_rules.specs.Accepting.{Shelved, IsShelf};
ghost use Rattle.ac_load.specs.Loading.{shelf_of};
ghost use Rattle.lens_explain.specs.Verdicts.{IsRight, IsRejected, SaysVerdict};

use crate::accepted::module_said;
use crate::explained::{Explained, TextVerdict, explain_subject};
use crate::heading::Heading;
use crate::reasons::Subject;
use ac_load::{Kind, Refusal, Shelf, ShelfEntry, load};
use ac_parser::parse_module;
use ac_syntax::ParseFault;
use ac_text::Page;
use ac_types::{Many, Memory, Text};
use lens_hints::Grammar;
use std::alloc::Global;

/// Whether a text is a module by itself.
pub fn is_module(alloc: Global, text: &[u8]) -> Result<bool, Memory> {
    match parse_module(alloc, text) {
        Ok(surface) => {
            drop(surface);
            Ok(true)
        }
        Err(ParseFault::Memory) => Err(Memory),
        Err(_) => Ok(false),
    }
}

// The shelf that has this text alone.
fn shelf_with(alloc: Global, text: &[u8]) -> Result<Shelf, Memory>
    ensures texts { IfOk result (λ s. shelf_of s ≡
        record { uri = codes "module"; text = text.now } ∷ []) }
    ensures shelved { IfOk result (λ s. IsShelf (shelf_of s)) }
    ensures one { IfOk result (λ s. length s.0 ≡ 1) }
{
    let uri = Text::from_slice(alloc, b"module")?;
    let text = Text::from_slice(alloc, text)?;
    let mut entries = Many::new(alloc);
    entries.push(ShelfEntry { uri, text })?;
    Ok(Shelf(entries))
}

/// What is said of a module by itself, which is refused as a program.
pub fn explain_module(alloc: Global, heading: Heading<'_>, text: &[u8]) -> Result<Explained, Memory>
    ensures right { (shelf : List Shelved) → IsRejected text.now shelf →
        IfOk result (λ x. IsRight text.now shelf x.verdict) }
    ensures said { IfOk result (λ x. IfSome x.page (SaysVerdict heading.entry.form x.verdict)) }
{
    let shelf = shelf_with(alloc, text)?;
    match load(alloc, b"()", &shelf) {
        Ok(loaded) => {
            let said = module_said(alloc, heading, &loaded, 0);
            drop(loaded);
            let verdict = TextVerdict::AcceptedModule;
            let page = heading.headed(alloc, &Page::new(alloc), verdict, &said);
            Ok(Explained { verdict, page })
        }
        Err(refusal) => explain_fault(alloc, heading, text, refusal.kind),
    }
}

// What is said of a module by itself that is refused as this kind.
fn explain_fault(
    alloc: Global,
    heading: Heading<'_>,
    text: &[u8],
    kind: Kind,
) -> Result<Explained, Memory>
    ensures right { (shelf : List Shelved) → IsRejected text.now shelf →
        IfOk result (λ x. IsRight text.now shelf x.verdict) }
    ensures said { IfOk result (λ x. IfSome x.page (SaysVerdict heading.entry.form x.verdict)) }
{
    let subject = Subject {
        grammar: Grammar::Module,
        text,
        shelf: &[],
    };
    explain_subject(alloc, heading, &subject, Refusal { part: 1, kind })
}

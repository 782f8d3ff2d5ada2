// The listing of patterns.

ghost use Rattle.std.specs.Prelude.{◌≡◌, ◌++◌, [], map, OnOk};
ghost use Rattle.ac_terms.specs.Terms.{patterns};
ghost use Rattle.ac_terms.specs.Read.{pattern_of};
ghost use Rattle.acute_listings.specs.Listing.{pattern_shown, patterns_shown, truth_word};

use crate::types::show_type;
use ac_terms::Pat;
use ac_text::{put_integer, put_literal};
use ac_types::{Memory, Text};
use std::alloc::Global;

/// Adds a pattern.
#[cycle(pat)]
#[tactic(auto, using(ac_canon::proofs::PatternForms::pattern_laws))]
pub fn show_pattern(alloc: Global, text: &mut Text, pat: &Pat) -> Result<(), Memory>
    ensures { OnOk result (text.new.0 ≡ text.old.0 ++ pattern_shown (pattern_of pat.now)) }
{
    match pat {
        Pat::Wild => text.extend(b"_"),
        Pat::Var(ty) => {
            text.extend(b"(")?;
            show_type(alloc, text, ty)?;
            text.extend(b")")
        }
        Pat::Int(n) => put_integer(alloc, text, *n),
        Pat::Bool(b) => show_truth(text, *b),
        Pat::Str(s) => put_literal(text, s.as_slice()),
        Pat::Unit => text.extend(b"()"),
        Pat::Tuple(parts) => {
            text.extend(b"(")?;
            put_patterns(alloc, text, parts.as_slice())?;
            text.extend(b")")
        }
        Pat::Nil => text.extend(b"[]"),
        Pat::Cons(head, tail) => {
            text.extend(b"(")?;
            show_pattern(alloc, text, head)?;
            text.extend(b" :: ")?;
            show_pattern(alloc, text, tail)?;
            text.extend(b")")
        }
        Pat::Absent => text.extend(b"None"),
        Pat::Present(item) => {
            text.extend(b"(Some ")?;
            show_pattern(alloc, text, item)?;
            text.extend(b")")
        }
        Pat::Exn(exn) => text.extend(exn.name()),
        Pat::ExnOf(exn, argument) => {
            text.extend(b"(")?;
            text.extend(exn.name())?;
            text.extend(b" ")?;
            show_pattern(alloc, text, argument)?;
            text.extend(b")")
        }
    }
}

// Adds the parts of a tuple's pattern.
#[cycle(pat)]
#[tactic(auto, using(ac_canon::proofs::PatternForms::pattern_laws))]
fn put_patterns(alloc: Global, text: &mut Text, pats: &[Pat]) -> Result<(), Memory>
    ensures { OnOk result (text.new.0 ≡
        text.old.0 ++ patterns_shown [] (patterns (map pattern_of pats.now))) }
{
    let mut front: &[u8] = b"";
    for pat in pats {
        text.extend(front)?;
        show_pattern(alloc, text, pat)?;
        front = b", ";
    }
    Ok(())
}

/// Adds a truth value.
pub fn show_truth(text: &mut Text, truth: bool) -> Result<(), Memory>
    ensures { OnOk result (text.new.0 ≡ text.old.0 ++ truth_word truth) }
{
    text.extend(if truth { b"true" } else { b"false" })
}

// What is said of texts that are checked.
ghost use Rattle.std.specs.Prelude.{◌≡◌, ◌≤◌, ◌++◌, IfOk, OnOk, length, map};
ghost use Rattle.std.specs.List.{list_all};
ghost use Rattle.ac_types.specs.Limits.{most_shelf_entries};
ghost use Rattle.ac_load_rules.specs.Accepting.{IsShelf};
ghost use Rattle.ac_load.specs.Loading.{shelf_of};
ghost use Rattle.acute_answers.specs.Answers.{answer_of};
ghost use Rattle.acute_answers.specs.Checking.{Checks, is_accepted, verdict_line, verdict_lines, verdict_shown, verdicts_status};

use crate::answer::Answer;
use crate::reason::put_reason;
use crate::status::Status;
use ac_batch::{Verdict, check_all};
use ac_load::Shelf;
use ac_outside::Gate;
use ac_types::{Many, Memory, Text};
use std::alloc::Global;
use std::thread::Threads;

/// Checks each text, in a thread of its own where one can be had, beside a shelf of at most
/// `MOST_SHELF_ENTRIES` texts, each under a URI of its own. The texts have these names, one each.
/// `Err` for want of memory.
pub fn check<R: Threads + Sync, G: Gate + Sync>(
    rt: &R,
    alloc: Global,
    names: &[&str],
    texts: &Many<Text>,
    shelf: &Shelf,
    gate: &G,
) -> Result<Answer, Memory>
    requires few { length shelf.now.0 ≤ most_shelf_entries }
    requires shelved { IsShelf (shelf_of shelf.now) }
    requires each { length names.now ≡ length texts.now }
    ensures { IfOk result
        (λ a. Checks (map (λ s. s.now) names.now) texts.now (shelf_of shelf.now) (answer_of a)) }
{
    let verdicts = check_all(rt, alloc, texts, shelf, gate)?;
    let lines = lines_of(alloc, names, verdicts.as_slice())?;
    let status = status_of(verdicts.as_slice());
    Ok(Answer::printing(alloc, status, lines))
}

// A line for each name, with the verdict at its place.
fn lines_of(alloc: Global, names: &[&str], verdicts: &[Verdict]) -> Result<Text, Memory>
    requires { length names.now ≡ length verdicts.now }
    ensures { IfOk result
        (λ lines. lines.0 ≡ verdict_lines (map (λ s. s.now) names.now) verdicts.now) }
{
    let mut lines = Text::new(alloc);
    for i in 0..names.len() {
        put_line(alloc, &mut lines, names[i], verdicts[i])?;
    }
    Ok(lines)
}

// Adds the line of a name with a verdict.
fn put_line(alloc: Global, lines: &mut Text, name: &str, verdict: Verdict) -> Result<(), Memory>
    ensures { OnOk result (lines.new.0 ≡ lines.old.0 ++ verdict_line name.now verdict) }
{
    lines.extend(name.as_bytes())?;
    lines.extend(b": ")?;
    put_verdict(alloc, lines, verdict)
}

// Adds a verdict, up to the end of the line.
fn put_verdict(alloc: Global, lines: &mut Text, verdict: Verdict) -> Result<(), Memory>
    ensures { OnOk result (lines.new.0 ≡ lines.old.0 ++ verdict_shown verdict) }
{
    match verdict {
        Verdict::Accepted => lines.extend(b"accepted\n"),
        Verdict::Refused(refusal) => {
            lines.extend(b"refused: ")?;
            put_reason(alloc, lines, refusal.part, refusal.kind)
        }
    }
}

// The status of a `check` with these verdicts.
fn status_of(verdicts: &[Verdict]) -> Status
    ensures { result ≡ verdicts_status verdicts.now }
{
    if are_accepted(verdicts) {
        Status::FINISHED
    } else {
        Status::REFUSED
    }
}

// Whether each verdict is that of an accepted text.
fn are_accepted(verdicts: &[Verdict]) -> bool
    ensures { result ≡ list_all is_accepted verdicts.now }
{
    for i in 0..verdicts.len() {
        if !is_accepted(verdicts[i]) {
            return false;
        }
    }
    true
}

fn is_accepted(verdict: Verdict) -> bool
    ensures { result ≡ is_accepted verdict }
{
    match verdict {
        Verdict::Accepted => true,
        Verdict::Refused(_) => false,
    }
}

// What is said of the frames of a channel.
ghost use Rattle.std.specs.Prelude.{◌≡◌, ◌≤◌, ◌++◌, IfOk, IsErrOf, OnOk, codes, length, map};
ghost use Rattle.std.specs.List.{list_all};
ghost use Rattle.ac_types.specs.Limits.{most_shelf_entries};
ghost use Rattle.ac_types.specs.ReadTypes.{typ_of};
ghost use Rattle.ac_terms.specs.Read.{bytes_of, environment_of, expr_of};
ghost use Rattle.ac_rules.specs.Coherent.{IsCoherent};
ghost use Rattle.ac_channels.specs.ChannelFrames.{AllFrames};
ghost use Rattle.ac_load_rules.specs.Accepting.{IsShelf};
ghost use Rattle.ac_load.specs.Loading.{Loads, shelf_of};
ghost use Rattle.ac_audit.specs.TypeTexts.{IsTypeText, RefusesType};
ghost use Rattle.acute_answers.specs.declared.status.TheConstants.Status.{CHANNEL_REFUSED, REFUSED};
ghost use Rattle.acute_answers.specs.Answers.{answer_of, telling};
ghost use Rattle.acute_answers.specs.Auditing.{AuditsFrames, RefusesAudit, channel_line, frame_line, frame_lines, frame_word, frames_status, takes_frame, type_line};

use crate::answer::Answer;
use crate::reason::put_reason;
use crate::status::Status;
use ac_audit::{AuditVerdict, audit_all, load_type};
use ac_load::{Kind, Shelf, load};
use ac_outside::Gate;
use ac_rules::Loaded;
use ac_text::put_number;
use ac_types::{Many, Memory, Text, Ty, Word};
use std::alloc::Global;
use std::thread::Threads;

/// A program that is loaded, and the type at which it is asked of strings.
#[derive(Drop)]
pub struct Auditor {
    /// The program.
    pub program: Loaded,
    /// The type.
    pub ty: Ty,
}

/// Why there is no auditor.
#[derive(Drop)]
pub enum Unaudited {
    /// The program is refused, or the text of the type: the answer that says so.
    Refused(Answer),
    /// Memory ran out.
    Memory,
}

impl From<Memory> for Unaudited {
    ghost use Rattle.acute_answers.specs.declared.auditing.Unaudited.TheVariants as unaudited;

    ghost from_gives = { λ _ e. e ≡ unaudited.Memory };

    fn from(_e: Memory) -> Unaudited {
        Unaudited::Memory
    }
}

/// The program of a text beside a shelf of at most `MOST_SHELF_ENTRIES` texts, each under a URI of
/// its own, with the type that a text is behind its last definition.
pub fn load_auditor(
    alloc: Global,
    text: &[u8],
    shelf: &Shelf,
    ty: &[u8],
) -> Result<Auditor, Unaudited>
    requires few { length shelf.now.0 ≤ most_shelf_entries }
    requires shelved { IsShelf (shelf_of shelf.now) }
    ensures loads { IfOk result (λ a. Loads text.now (shelf_of shelf.now)
        (environment_of a.program.env) (expr_of a.program.main) (typ_of a.program.ty)) }
    ensures coherent { IfOk result (λ a. IsCoherent (environment_of a.program.env)) }
    ensures ty { IfOk result (λ a. IsTypeText (environment_of a.program.env) ty.now (typ_of a.ty)) }
    ensures refused { (a : Answer) → IsErrOf result (Unaudited.Refused a) →
        RefusesAudit text.now (shelf_of shelf.now) ty.now (answer_of a) }
{
    match load(alloc, text, shelf) {
        Ok(program) => auditor_of(alloc, program, ty),
        Err(refusal) => Err(Unaudited::Refused(Answer::refused(alloc, refusal)?)),
    }
}

// That of a program that is loaded.
fn auditor_of(alloc: Global, program: Loaded, ty: &[u8]) -> Result<Auditor, Unaudited>
    requires { IsCoherent (environment_of program.env) }
    ensures program { IfOk result (λ a. a.program ≡ program) }
    ensures ty { IfOk result (λ a. IsTypeText (environment_of program.env) ty.now (typ_of a.ty)) }
    ensures refused { (a : Answer) → IsErrOf result (Unaudited.Refused a) →
        (kind : Kind) × RefusesType (environment_of program.env) ty.now kind ×
        (answer_of a ≡ telling REFUSED (type_line kind)) }
{
    match load_type(alloc, &program, ty) {
        Ok(ty) => Ok(Auditor { program, ty }),
        Err(kind) => {
            drop(program);
            let line = type_line(alloc, kind)?;
            Err(Unaudited::Refused(Answer::telling(alloc, Status::REFUSED, line)))
        }
    }
}

// The line that says why the text of a type is refused. `Err` for want of memory, also where the kind
// tells it.
fn type_line(alloc: Global, kind: Kind) -> Result<Text, Memory>
    ensures line { IfOk result (λ line. line.0 ≡ type_line kind) }
    ensures cause { IfOk result (λ _. kind ≡ Kind.Memory → ⊥) }
{
    match kind {
        Kind::Memory => Err(Memory),
        kind => line_of(alloc, kind),
    }
}

fn line_of(alloc: Global, kind: Kind) -> Result<Text, Memory>
    ensures { IfOk result (λ line. line.0 ≡ type_line kind) }
{
    let mut line = Text::from_slice(alloc, b"acute: refused: as: ")?;
    put_reason(alloc, &mut line, 0, kind)?;
    Ok(line)
}

/// What is said of a channel whose frame of that number is refused. `Err` for want of memory.
pub fn refused_channel(alloc: Global, number: u32) -> Result<Answer, Memory>
    ensures { IfOk result
        (λ a. answer_of a ≡ telling CHANNEL_REFUSED (channel_line number)) }
{
    let mut line = Text::from_slice(alloc, b"acute: channel: frame ")?;
    put_number(alloc, &mut line, u64::from(number))?;
    line.extend(b"\n")?;
    Ok(Answer::telling(alloc, Status::CHANNEL_REFUSED, line))
}

/// What is said of a channel with these strings, which are judged in threads where these can be had.
/// `Err` for want of memory.
pub fn audit<R: Threads + Sync, G: Gate + Sync>(
    rt: &R,
    alloc: Global,
    auditor: &Auditor,
    frames: &Many<Text>,
    gate: &G,
) -> Result<Answer, Memory>
    requires { IsCoherent (environment_of auditor.now.program.env) }
    ensures { IfOk result (λ a. AuditsFrames (environment_of auditor.now.program.env)
        (typ_of auditor.now.ty) (AllFrames (map bytes_of frames.now)) (answer_of a)) }
{
    let verdicts = audit_all(rt, alloc, &auditor.program.env, frames, &auditor.ty, gate)?;
    let lines = lines_of(alloc, verdicts.as_slice())?;
    let status = status_of(verdicts.as_slice());
    Ok(Answer::printing(alloc, status, lines))
}

// A line for each verdict.
fn lines_of(alloc: Global, verdicts: &[AuditVerdict]) -> Result<Text, Memory>
    ensures { IfOk result (λ lines. lines.0 ≡ frame_lines verdicts.now) }
{
    let mut lines = Text::new(alloc);
    for i in 0..verdicts.len() {
        put_line(alloc, &mut lines, i as u64 + 1, &verdicts[i])?;
    }
    Ok(lines)
}

// Adds the line of a frame.
fn put_line(
    alloc: Global,
    lines: &mut Text,
    number: u64,
    verdict: &AuditVerdict,
) -> Result<(), Memory>
    ensures { OnOk result (lines.new.0 ≡ lines.old.0 ++ frame_line number verdict.now) }
{
    lines.extend(b"frame ")?;
    put_number(alloc, lines, number)?;
    lines.extend(b": ")?;
    put_verdict(lines, verdict)?;
    lines.extend(b"\n")
}

// Adds a verdict.
fn put_verdict(lines: &mut Text, verdict: &AuditVerdict) -> Result<(), Memory>
    ensures { OnOk result (lines.new.0 ≡ lines.old.0 ++ frame_word verdict.now) }
{
    match verdict {
        AuditVerdict::Accepted => lines.extend(b"accepted"),
        AuditVerdict::Format => lines.extend(b"format"),
        AuditVerdict::Definition => lines.extend(b"definition"),
        AuditVerdict::Clash => lines.extend(b"clash"),
        AuditVerdict::Full => lines.extend(b"full"),
        AuditVerdict::Unresolved(name) => put_unresolved(lines, name),
        AuditVerdict::WrongType => lines.extend(b"type"),
        AuditVerdict::Value => lines.extend(b"value"),
    }
}

// Adds that an import of that name has no link.
fn put_unresolved(lines: &mut Text, name: &Word) -> Result<(), Memory>
    ensures { OnOk result (lines.new.0 ≡ lines.old.0 ++ (codes "unresolved " ++ name.now)) }
{
    lines.extend(b"unresolved ")?;
    lines.extend(name.text().as_slice())
}

// The status of an `audit` with these verdicts.
fn status_of(verdicts: &[AuditVerdict]) -> Status
    ensures { result ≡ frames_status verdicts.now }
{
    if are_taken(verdicts) {
        Status::FINISHED
    } else {
        Status::REFUSED
    }
}

// Whether each verdict is that of a frame that is taken.
fn are_taken(verdicts: &[AuditVerdict]) -> bool
    ensures { result ≡ list_all takes_frame verdicts.now }
{
    for i in 0..verdicts.len() {
        if !takes_frame(&verdicts[i]) {
            return false;
        }
    }
    true
}

fn takes_frame(verdict: &AuditVerdict) -> bool
    ensures { result ≡ takes_frame verdict.now }
{
    match verdict {
        AuditVerdict::Accepted => true,
        _ => false,
    }
}

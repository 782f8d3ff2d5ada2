// The command that says which frames of a channel a program would take.
ghost use Rattle.std.specs.Prelude.{◌≡◌, ◌≤◌, [], ◌∷◌, IsTrue, length};
ghost use Rattle.ac_types.specs.Limits.{most_shelf_entries};
ghost use Rattle.ac_types.specs.ReadTypes.{typ_of};
ghost use Rattle.ac_terms.specs.Read.{environment_of};
ghost use Rattle.ac_rules.specs.Coherent.{IsCoherent};
ghost use Rattle.ac_load_rules.specs.Accepting.{IsShelf};
ghost use Rattle.ac_load.specs.Loading.{shelf_of};
ghost use Rattle.acute_files.specs.Files.{Since, reading, seen};
ghost use Rattle.acute_files.specs.ReadOrder.{TextsRead};
ghost use Rattle.acute_words.specs.Commands.{audit, files_of};
ghost use Rattle.acute_top.specs.Streams.{writing};
ghost use Rattle.acute_top.specs.Endings.{AnswerEnded};
ghost use Rattle.acute_top.specs.inner.Audited.{HasAudited, HasAuditedChannel};

use crate::delivery::{deliver, deliver_answer};
use crate::saying::{no_memory, say, tell_unread};
use ac_channels::ChannelFault;
use ac_outside::{Files, Gate, Sink};
use acute_answers::{Auditor, Status, Unaudited, audit, load_auditor, refused_channel};
use acute_files::{ProgramTexts, read_frames, read_program};
use acute_words::Audit;
use std::alloc::Global;
use std::thread::Threads;

/// Says of each frame of a channel's file whether the program of a file would take it.
pub fn audit_file<R: Threads + Sync, F: Files, O: Sink, E: Sink, G: Gate + Sync>(
    rt: &R,
    alloc: Global,
    asked: Audit,
    files: &mut F,
    output: &mut O,
    errors: &mut E,
    gate: &G,
) -> Status
    ensures ends { AnswerEnded
        (audit (files_of asked.entry.program) asked.entry.channel.now asked.entry.ty.now)
        (reading F.Files files.old files.new) (writing O.Sink output.old output.new)
        (writing E.Sink errors.old errors.new) result }
    ensures same { IsTrue F.told → F.contents files.new ≡ F.contents files.old }
    ensures only { TextsRead F.Files
        ((files_of asked.entry.program).file ∷ asked.entry.channel.now ∷ [])
        files.old files.new (files_of asked.entry.program).shelf }
{
    match read_program(alloc, files, asked.program.file, asked.program.shelf) {
        Ok(texts) => audit_texts(rt, alloc, &texts, asked, files, output, errors, gate),
        Err(fault) => tell_unread(alloc, fault, errors),
    }
}

// The same by the text of the program, beside its shelf.
fn audit_texts<R: Threads + Sync, F: Files, O: Sink, E: Sink, G: Gate + Sync>(
    rt: &R,
    alloc: Global,
    texts: &ProgramTexts,
    asked: Audit,
    files: &mut F,
    output: &mut O,
    errors: &mut E,
    gate: &G,
) -> Status
    requires few { length texts.now.shelf.0 ≤ most_shelf_entries }
    requires shelved { IsShelf (shelf_of texts.now.shelf) }
    ensures ends { HasAudited texts.now.program.0 (shelf_of texts.now.shelf) asked.entry.ty.now
        (reading F.Files files.old files.new asked.entry.channel.now)
        (writing O.Sink output.old output.new) (writing E.Sink errors.old errors.new) result }
    ensures since { Since F.told (seen F.Files files.old) (seen F.Files files.new) }
    ensures only { F.reads asked.entry.channel.now files.old files.new }
{
    let text = texts.program.as_slice();
    match load_auditor(alloc, text, &texts.shelf, asked.ty.as_bytes()) {
        Ok(auditor) => {
            audit_channel(
                rt,
                alloc,
                &auditor,
                asked.channel,
                files,
                output,
                errors,
                gate,
            )
        }
        Err(Unaudited::Refused(answer)) => deliver_answer(&answer, output, errors),
        Err(Unaudited::Memory) => no_memory(errors),
    }
}

// The same by a program that is loaded, at a type.
fn audit_channel<R: Threads + Sync, F: Files, O: Sink, E: Sink, G: Gate + Sync>(
    rt: &R,
    alloc: Global,
    auditor: &Auditor,
    channel: &str,
    files: &mut F,
    output: &mut O,
    errors: &mut E,
    gate: &G,
) -> Status
    requires { IsCoherent (environment_of auditor.now.program.env) }
    ensures ends { HasAuditedChannel (environment_of auditor.now.program.env)
        (typ_of auditor.now.ty) (reading F.Files files.old files.new channel.now)
        (writing O.Sink output.old output.new) (writing E.Sink errors.old errors.new) result }
    ensures since { Since F.told (seen F.Files files.old) (seen F.Files files.new) }
    ensures only { F.reads channel.now files.old files.new }
{
    match read_frames(alloc, files, channel) {
        Ok(frames) => {
            let found = audit(rt, alloc, auditor, &frames, gate);
            deliver(found, output, errors)
        }
        Err(ChannelFault::BadFrame(number)) => {
            let found = refused_channel(alloc, number);
            deliver(found, output, errors)
        }
        Err(ChannelFault::Failed) => say(errors, b"acute: read fault\n", Status::READ_FAULT),
        Err(ChannelFault::Memory) => no_memory(errors),
    }
}

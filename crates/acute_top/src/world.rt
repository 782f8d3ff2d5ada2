// The world of a program that is run: it joins files and streams.
ghost use Rattle.std.specs.Prelude.{◌≡◌, ◌≤◌, ◌<◌, ◌⊎◌, ℕ, Option, None, Some, IsTrue, true, false, option_map};
ghost use native.Mathlib.Omega.{arith};
ghost use Rattle.ac_outside.specs.Outside.{Rose, Contents};
ghost use Rattle.acute_words.specs.Commands.{ChannelName, are_one, channel_of};
ghost use Rattle.ac_run.specs.Sessions.{streams};
ghost use Rattle.acute_top.specs.inner.Told.{tells, left_in, stream_left, sent_in};
ghost use Rattle.acute_top.specs.Channels.{of_channel, KeptBut, NoFile, NotStandard};
ghost use Rattle.acute_top.specs.inner.Counts.{count_of_both};
ghost use Rattle.acute_top.specs.Handed.{call};
ghost use Rattle.acute_top.specs.Stages.{UsesFiles};
ghost use Rattle.acute_top.specs.inner.Runs.{RanAmong, WritesRose, ReadsRose, RanIn, ErrorsApart, is_there, IsPlaceIn, UsesSince};

use crate::no_files::NoFiles;
use crate::no_input::NoInput;
use ac_outside::{Files, Got, Put, Sink, Source, SureSink, World};
use ac_run::{RunEnd, Session};
use acute_words::Channel;
use std::alloc::Global;
use std::marker::{Brand, PhantomData};

// What stays the same in a run, for the proof alone: a call at `Brand` picks it.
trait Fixed<F> {
    // The names of the references.
    ghost files: { ℕ };

    ghost input: { ℕ };

    ghost console: { ℕ };

    ghost stream: { ℕ };
    // The channels.
    ghost from: { Option ChannelName };

    ghost to: { Option ChannelName };
    // The files at first, what they had, and how often a write had failed.
    ghost start: { Option F };

    ghost contents: { Contents };

    ghost console_faults: { ℕ };

    ghost channel_faults: { ℕ };
}

impl<F> Fixed<F> for Brand {
    ghost files = { 0 };

    ghost input = { 0 };

    ghost console = { 0 };

    ghost stream = { 0 };

    ghost from = { None };

    ghost to = { None };

    ghost start = { None };

    ghost contents = { λ _. None };

    ghost console_faults = { 0 };

    ghost channel_faults = { 0 };
}

// A world over files and streams, which keeps its place in the file of its input.
#[derive(Drop)]
struct Joined<'a, F: Files, I: Source, C: Sink, S: Sink, K: Fixed<F>> {
    files: &'a mut F,
    input: &'a mut I,
    console: &'a mut C,
    stream: &'a mut S,
    from: Option<Channel<'a>>,
    to: Option<Channel<'a>>,
    place: u64,
    fixed: PhantomData<K>,
    ghost same_files: { files.ghost_name ≡ K.files },
    ghost same_input: { input.ghost_name ≡ K.input },
    ghost same_console: { console.ghost_name ≡ K.console },
    ghost same_stream: { stream.ghost_name ≡ K.stream },
    ghost same_from: { option_map channel_of from ≡ K.from },
    ghost same_to: { option_map channel_of to ≡ K.to },
    ghost apart: { are_one K.from K.to ≡ false },
    ghost kept: { IsTrue F.told → KeptBut K.to K.contents (F.contents files.now) },
    ghost there: { IsTrue F.told → IsTrue (is_there K.to K.contents) →
        IsTrue (is_there K.to (F.contents files.now)) },
    ghost within: { IsTrue F.told → IsPlaceIn K.from K.contents place },
    ghost uses: { UsesSince F.Files K.start K.from K.to K.contents files.now },
    ghost console_later: { K.console_faults ≤ C.faults console.now },
    ghost channel_later: { K.channel_faults ≤ of_channel K.to 0 (S.faults stream.now)
        (F.write_faults files.now) },
}

impl<F: Files, I: Source, C: Sink, S: Sink, K: Fixed<F>> Source for Joined<'_, F, I, C, S, K> {
    ghost use Rattle.std.proofs.Common.{refl, ◌∙◌, arith};

    ghost told = { tells K.from K.to F.told I.told C.told S.told };

    ghost left = { λ s. left_in K.from (F.contents s.files.now) (I.left s.input.now) s.place };

    ghost read_faults = { λ s. of_channel K.from 0 (I.read_faults s.input.now)
        (F.read_faults s.files.now) };

    ghost passes = { λ a b.
        (IsTrue (tells K.from K.to F.told I.told C.told S.told) →
        (C.written b.console.now ≡ C.written a.console.now) ×
        (sent_in K.to (F.contents b.files.now) (S.written b.stream.now)
        ≡ sent_in K.to (F.contents a.files.now) (S.written a.stream.now))) ×
        (count_of_both K.console_faults K.channel_faults (C.faults a.console.now)
        (of_channel K.to 0 (S.faults a.stream.now) (F.write_faults a.files.now))
        ≤ count_of_both K.console_faults K.channel_faults (C.faults b.console.now)
        (of_channel K.to 0 (S.faults b.stream.now) (F.write_faults b.files.now))) };

    #[tactic(auto, using(crate::proofs::ChannelLaws::sent_same, crate::proofs::ChannelLaws::count_later, crate::proofs::ChannelLaws::both_later))]
    fn read(&mut self, buf: &mut [u8]) -> Got {
        match self.from {
            None => Got::End,
            Some(Channel::Standard) => self.input.read(buf),
            Some(Channel::File(name)) => {
                let got = self.files.read(name, self.place, buf);
                if let Got::Bytes(count) = got {
                    self.place = self.place.saturating_add(count as u64);
                }
                got
            }
        }
    }

    ghost passes_none = { λ _. (λ _. (refl, refl), omega arith) };

    ghost passes_on = { λ _ _ _ h k. (
      λ t. ((k.0 t).0 ∙ (h.0 t).0, (k.0 t).1 ∙ (h.0 t).1),
      omega
          (arith, h.1, k.1),
    ) };
}

impl<F: Files, I: Source, C: Sink, S: Sink, K: Fixed<F>> World for Joined<'_, F, I, C, S, K> {
    ghost console = { λ s. C.written s.console.now };

    ghost channel = { λ s. sent_in K.to (F.contents s.files.now) (S.written s.stream.now) };

    ghost write_faults = { λ s. count_of_both K.console_faults K.channel_faults
        (C.faults s.console.now)
        (of_channel K.to 0 (S.faults s.stream.now) (F.write_faults s.files.now)) };

    ghost read_leaves = { λ _ _ h told. h.0 told };

    ghost read_keeps = { λ _ _ h. h.1 };

    fn print(&mut self, bytes: &[u8]) -> Put {
        self.console.write(bytes)
    }

    #[tactic(auto, using(crate::proofs::ChannelLaws::appended, crate::proofs::ChannelLaws::there_after))]
    fn send(&mut self, bytes: &[u8]) -> Put {
        match self.to {
            None => Put::Memory,
            Some(Channel::Standard) => self.stream.write(bytes),
            Some(Channel::File(name)) => self.files.append(name, bytes),
        }
    }
}

/// Runs a program with these channels. Its console is output, or errors where output is its channel.
/// Else errors aren't touched; files are only where a channel is one, and input only where it is the
/// channel.
pub fn run_among<F: Files, I: Source, O: Sink, E: Sink>(
    alloc: Global,
    session: &mut Session,
    from: Option<Channel>,
    to: Option<Channel>,
    files: &mut F,
    input: &mut I,
    output: &mut O,
    errors: &mut E,
) -> RunEnd
    requires { are_one (option_map channel_of from) (option_map channel_of to) ≡ false }
    ensures ends { RanAmong F.Files I.Source O.Sink E.Sink (option_map channel_of from.entry)
        (option_map channel_of to.entry) (call files.old input.old output.old errors.old)
        (call files.new input.new output.new errors.new) session.old session.new result }
    ensures cause { session.old.end ≡ None → result ≡ RunEnd.WriteFault →
        WritesRose F.Files I.Source O.Sink E.Sink (option_map channel_of to.entry)
        (call files.old input.old output.old errors.old)
        (call files.new input.new output.new errors.new) }
    ensures cause_read { session.old.end ≡ None → result ≡ RunEnd.ReadFault →
        ReadsRose F.Files I.Source O.Sink E.Sink (option_map channel_of from.entry)
        (call files.old input.old output.old errors.old)
        (call files.new input.new output.new errors.new) }
    ensures later { E.faults errors.old ≤ E.faults errors.new }
    ensures apart { ErrorsApart (option_map channel_of to.entry) errors.old errors.new }
    ensures kept { IsTrue F.told →
        KeptBut (option_map channel_of to.entry) (F.contents files.old) (F.contents files.new) }
    ensures there { IsTrue F.told →
        IsTrue (is_there (option_map channel_of to.entry) (F.contents files.old)) →
        IsTrue (is_there (option_map channel_of to.entry) (F.contents files.new)) }
    ensures idle { NotStandard (option_map channel_of from.entry) → input.new ≡ input.old }
    ensures only { NoFile (option_map channel_of from.entry) →
        NoFile (option_map channel_of to.entry) → files.new ≡ files.old }
    ensures uses { UsesFiles F.Files (option_map channel_of from.entry)
        (option_map channel_of to.entry) files.old files.new }
{
    if is_file(from) || is_file(to) {
        run_with(alloc, session, from, to, files, input, output, errors)
    } else {
        run_with(
            alloc,
            session,
            from,
            to,
            &mut NoFiles,
            input,
            output,
            errors,
        )
    }
}

// Runs it with these files, and with input only where that is a channel.
fn run_with<F: Files, I: Source, O: Sink, E: Sink>(
    alloc: Global,
    session: &mut Session,
    from: Option<Channel>,
    to: Option<Channel>,
    files: &mut F,
    input: &mut I,
    output: &mut O,
    errors: &mut E,
) -> RunEnd
    requires { are_one (option_map channel_of from) (option_map channel_of to) ≡ false }
    ensures ends { RanAmong F.Files I.Source O.Sink E.Sink (option_map channel_of from.entry)
        (option_map channel_of to.entry) (call files.old input.old output.old errors.old)
        (call files.new input.new output.new errors.new) session.old session.new result }
    ensures cause { session.old.end ≡ None → result ≡ RunEnd.WriteFault →
        WritesRose F.Files I.Source O.Sink E.Sink (option_map channel_of to.entry)
        (call files.old input.old output.old errors.old)
        (call files.new input.new output.new errors.new) }
    ensures cause_read { session.old.end ≡ None → result ≡ RunEnd.ReadFault →
        ReadsRose F.Files I.Source O.Sink E.Sink (option_map channel_of from.entry)
        (call files.old input.old output.old errors.old)
        (call files.new input.new output.new errors.new) }
    ensures later { E.faults errors.old ≤ E.faults errors.new }
    ensures apart { ErrorsApart (option_map channel_of to.entry) errors.old errors.new }
    ensures kept { IsTrue F.told →
        KeptBut (option_map channel_of to.entry) (F.contents files.old) (F.contents files.new) }
    ensures there { IsTrue F.told →
        IsTrue (is_there (option_map channel_of to.entry) (F.contents files.old)) →
        IsTrue (is_there (option_map channel_of to.entry) (F.contents files.new)) }
    ensures idle { NotStandard (option_map channel_of from.entry) → input.new ≡ input.old }
    ensures uses { UsesFiles F.Files (option_map channel_of from.entry)
        (option_map channel_of to.entry) files.old files.new }
{
    if is_standard(from) {
        run_between(alloc, session, from, to, files, input, output, errors)
    } else {
        run_between(
            alloc,
            session,
            from,
            to,
            files,
            &mut NoInput,
            output,
            errors,
        )
    }
}

// Whether a channel is a standard stream.
fn is_standard(channel: Option<Channel>) -> bool
    ensures { result ≡ of_channel (option_map channel_of channel.entry) false true (λ _. false) }
{
    match channel {
        Some(Channel::Standard) => true,
        Some(Channel::File(_)) | None => false,
    }
}

// Whether a channel is a file.
fn is_file(channel: Option<Channel>) -> bool
    ensures { result ≡ of_channel (option_map channel_of channel.entry) false false (λ _. true) }
{
    match channel {
        Some(Channel::File(_)) => true,
        Some(Channel::Standard) | None => false,
    }
}

// Runs it, whatever the files are.
fn run_between<F: Files, I: Source, O: Sink, E: Sink>(
    alloc: Global,
    session: &mut Session,
    from: Option<Channel>,
    to: Option<Channel>,
    files: &mut F,
    input: &mut I,
    output: &mut O,
    errors: &mut E,
) -> RunEnd
    requires { are_one (option_map channel_of from) (option_map channel_of to) ≡ false }
    ensures ends { RanAmong F.Files I.Source O.Sink E.Sink (option_map channel_of from.entry)
        (option_map channel_of to.entry) (call files.old input.old output.old errors.old)
        (call files.new input.new output.new errors.new) session.old session.new result }
    ensures cause { session.old.end ≡ None → result ≡ RunEnd.WriteFault →
        WritesRose F.Files I.Source O.Sink E.Sink (option_map channel_of to.entry)
        (call files.old input.old output.old errors.old)
        (call files.new input.new output.new errors.new) }
    ensures cause_read { session.old.end ≡ None → result ≡ RunEnd.ReadFault →
        ReadsRose F.Files I.Source O.Sink E.Sink (option_map channel_of from.entry)
        (call files.old input.old output.old errors.old)
        (call files.new input.new output.new errors.new) }
    ensures later { E.faults errors.old ≤ E.faults errors.new }
    ensures apart { ErrorsApart (option_map channel_of to.entry) errors.old errors.new }
    ensures kept { IsTrue F.told →
        KeptBut (option_map channel_of to.entry) (F.contents files.old) (F.contents files.new) }
    ensures there { IsTrue F.told →
        IsTrue (is_there (option_map channel_of to.entry) (F.contents files.old)) →
        IsTrue (is_there (option_map channel_of to.entry) (F.contents files.new)) }
    ensures uses { UsesFiles F.Files (option_map channel_of from.entry)
        (option_map channel_of to.entry) files.old files.new }
{
    let mut none = SureSink::new(alloc);
    match to {
        None => run_on(session, from, None, files, input, output, &mut none),
        Some(Channel::Standard) => {
            run_on(
                session,
                from,
                Some(Channel::Standard),
                files,
                input,
                errors,
                output,
            )
        }
        Some(Channel::File(name)) => {
            run_on(
                session,
                from,
                Some(Channel::File(name)),
                files,
                input,
                output,
                &mut none,
            )
        }
    }
}

// Runs it with this console, and this stream for the channel that is one.
fn run_on<F: Files, I: Source, C: Sink, S: Sink>(
    session: &mut Session,
    from: Option<Channel>,
    to: Option<Channel>,
    files: &mut F,
    input: &mut I,
    console: &mut C,
    stream: &mut S,
) -> RunEnd
    requires { are_one (option_map channel_of from) (option_map channel_of to) ≡ false }
    ensures ends { let a = option_map channel_of from.entry in let b = option_map channel_of
        to.entry in
        session.old.end ≡ None → RanIn a (tells a b F.told I.told C.told S.told)
        (left_in a (F.contents files.old) (I.left input.old) 0)
        (stream_left a (I.left input.new))
        (streams (C.written console.old) (sent_in b (F.contents files.old) (S.written stream.old)))
        (streams (C.written console.new) (sent_in b (F.contents files.new) (S.written stream.new)))
        session.old session.new result }
    ensures cause { let b = option_map channel_of to.entry in
        session.old.end ≡ None → result ≡ RunEnd.WriteFault →
        Rose (C.faults console.old) (C.faults console.new) ⊎
        Rose (of_channel b 0 (S.faults stream.old) (F.write_faults files.old))
        (of_channel b 0 (S.faults stream.new) (F.write_faults files.new)) }
    ensures cause_read { let a = option_map channel_of from.entry in
        session.old.end ≡ None → result ≡ RunEnd.ReadFault →
        Rose (of_channel a 0 (I.read_faults input.old) (F.read_faults files.old))
        (of_channel a 0 (I.read_faults input.new) (F.read_faults files.new)) }
    ensures later { C.faults console.old ≤ C.faults console.new }
    ensures kept { IsTrue F.told →
        KeptBut (option_map channel_of to.entry) (F.contents files.old) (F.contents files.new) }
    ensures there { IsTrue F.told →
        IsTrue (is_there (option_map channel_of to.entry) (F.contents files.old)) →
        IsTrue (is_there (option_map channel_of to.entry) (F.contents files.new)) }
    ensures uses { UsesFiles F.Files (option_map channel_of from.entry)
        (option_map channel_of to.entry) files.old files.new }
{
    let mut end = RunEnd::Memory;
    // the references that it gives back are for the proof alone
    let _ = run_at::<F, I, C, S, Brand>(session, from, to, files, input, console, stream, &mut end);
    end
}

// Runs it over references of these names, and gives them back. The end is written to a place of its
// own: in one tuple with them, what it owns would hide what becomes of them.
#[tactic(auto, using(crate::proofs::LeftLaws::same_left))]
fn run_at<'a, F: Files, I: Source, C: Sink, S: Sink, K: Fixed<F>>(
    session: &mut Session,
    from: Option<Channel<'a>>,
    to: Option<Channel<'a>>,
    files: &'a mut F,
    input: &'a mut I,
    console: &'a mut C,
    stream: &'a mut S,
    end: &mut RunEnd,
) -> (&'a mut F, &'a mut I, &'a mut C, &'a mut S)
    requires same_files { files.ghost_name ≡ K.files }
    requires same_input { input.ghost_name ≡ K.input }
    requires same_console { console.ghost_name ≡ K.console }
    requires same_stream { stream.ghost_name ≡ K.stream }
    requires same_from { option_map channel_of from ≡ K.from }
    requires same_to { option_map channel_of to ≡ K.to }
    requires apart { are_one K.from K.to ≡ false }
    requires start { K.start ≡ Some files.now }
    requires contents { F.contents files.now ≡ K.contents }
    requires console_faults { C.faults console.now ≡ K.console_faults }
    requires channel_faults { of_channel K.to 0 (S.faults stream.now) (F.write_faults files.now)
        ≡ K.channel_faults }
    ensures ends { session.old.end ≡ None → RanIn K.from
        (tells K.from K.to F.told I.told C.told S.told)
        (left_in K.from (F.contents files.entry.now) (I.left input.entry.now) 0)
        (stream_left K.from (I.left result.1.now))
        (streams (C.written console.entry.now)
        (sent_in K.to (F.contents files.entry.now) (S.written stream.entry.now)))
        (streams (C.written result.2.now) (sent_in K.to (F.contents result.0.now)
        (S.written result.3.now)))
        session.old session.new end.new }
    ensures cause { session.old.end ≡ None → end.new ≡ RunEnd.WriteFault →
        Rose K.console_faults (C.faults result.2.now) ⊎
        Rose K.channel_faults
        (of_channel K.to 0 (S.faults result.3.now) (F.write_faults result.0.now)) }
    ensures cause_read { session.old.end ≡ None → end.new ≡ RunEnd.ReadFault →
        Rose (of_channel K.from 0 (I.read_faults input.entry.now) (F.read_faults files.entry.now))
        (of_channel K.from 0 (I.read_faults result.1.now) (F.read_faults result.0.now)) }
    ensures later { K.console_faults ≤ C.faults result.2.now }
    ensures kept { IsTrue F.told → KeptBut K.to K.contents (F.contents result.0.now) }
    ensures there { IsTrue F.told → IsTrue (is_there K.to K.contents) →
        IsTrue (is_there K.to (F.contents result.0.now)) }
    ensures uses { UsesSince F.Files K.start K.from K.to K.contents result.0.now }
    ensures same_files { result.0.ghost_name ≡ files.entry.ghost_name }
    ensures same_input { result.1.ghost_name ≡ input.entry.ghost_name }
    ensures same_console { result.2.ghost_name ≡ console.entry.ghost_name }
    ensures same_stream { result.3.ghost_name ≡ stream.entry.ghost_name }
{
    let mut world = Joined::<F, I, C, S, K> {
        files,
        input,
        console,
        stream,
        from,
        to,
        place: 0,
        fixed: PhantomData,
    };
    *end = run_in(session, from, &mut world);
    let Joined {
        files,
        input,
        console,
        stream,
        from: _,
        to: _,
        place: _,
        fixed: _,
    } = world;
    (files, input, console, stream)
}

// Runs a session in a world, whose input is this channel.
fn run_in<W: World>(session: &mut Session, from: Option<Channel>, world: &mut W) -> RunEnd
    ensures ends { session.old.end ≡ None → RanIn (option_map channel_of from.entry) W.Source.told
        (W.Source.left world.old)
        (stream_left (option_map channel_of from.entry) (W.Source.left world.new))
        (streams (W.console world.old) (W.channel world.old))
        (streams (W.console world.new) (W.channel world.new)) session.old session.new result }
    ensures cause { session.old.end ≡ None → result ≡ RunEnd.WriteFault →
        Rose (W.write_faults world.old) (W.write_faults world.new) }
    ensures cause_read { session.old.end ≡ None → result ≡ RunEnd.ReadFault →
        Rose (W.Source.read_faults world.old) (W.Source.read_faults world.new) }
{
    match from {
        Some(_) => session.run(world),
        None => session.run_without_input(world),
    }
}

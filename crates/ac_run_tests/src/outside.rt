// Calls with ample memory, and each fault once.

use crate::make::{numbers, one_file, text};
use ac_outside::{
    Files, Got, MemoryFiles, MemorySink, MemorySource, MemoryWorld, Put, Sink, Source, SureSink,
    SureSource, SureWorld, World,
};
use ac_outside_system::{RealFiles, RealSource};
use std::fs;
use std::os::unix::fs::symlink;
use std::process::Abort;

#[test]
fn a_sink_keeps_all_but_the_write_that_fails(rt: HostRuntime) {
    let mut sink = MemorySink::new(rt.alloc(), numbers(&rt, rt.alloc(), &[1]));
    let puts = [sink.write(b"a"), sink.write(b"b"), sink.write(b"c")];
    assert!(rt; puts == [Put::Done, Put::Failed, Put::Done]);
    assert!(rt; sink.bytes().as_slice() == b"ac".as_slice());
}

#[test]
fn a_sure_sink_keeps_what_is_written(rt: HostRuntime) {
    let mut sink = SureSink::new(rt.alloc());
    let puts = [sink.write(b"ab"), sink.write(b"c")];
    assert!(rt; puts == [Put::Done, Put::Done]);
    assert!(rt; sink.bytes().as_slice() == b"abc".as_slice());
}

fn has(files: &MemoryFiles, name: &str, bytes: &[u8]) -> bool {
    match files.bytes(name) {
        Some(text) => text.as_slice() == bytes,
        None => false,
    }
}

// The fourth read fails.
#[test]
fn files_are_read(rt: HostRuntime) {
    let mut files = one_file(&rt, rt.alloc(), b"12345", &[3]);
    let mut buf = [0u8; 3];
    let front = files.read("a", 0, &mut buf);
    let end = files.read("a", 5, &mut buf);
    let missing = files.read("b", 0, &mut buf);
    let failed = files.read("a", 0, &mut buf);
    let wanted = [Got::Bytes(3), Got::End, Got::Failed, Got::Failed];
    assert!(rt; [front, end, missing, failed] == wanted);
}

// The fourth write fails.
#[test]
fn files_are_made_and_added_to(rt: HostRuntime) {
    let mut files = one_file(&rt, rt.alloc(), b"12345", &[3]);
    let made = files.create("b");
    let added = files.append("b", b"x");
    let longer = files.append("a", b"6");
    let failed = files.append("a", b"7");
    let wanted = [Put::Done, Put::Done, Put::Done, Put::Failed];
    assert!(rt; [made, added, longer, failed] == wanted);
    assert!(rt; has(&files, "a", b"123456"));
    assert!(rt; has(&files, "b", b"x"));
    assert!(rt; files.bytes("c").is_none());
}

// The files of the system, where one of this name may be read after the first write.
fn real<'a>(
    abort: &impl Abort,
    rt: &'a HostRuntime,
    later: Option<&'a str>,
) -> RealFiles<'a, &'a HostRuntime> {
    RealFiles::new(rt.alloc(), rt, &[], later).expect(abort, "memory")
}

#[test]
fn a_missing_file_of_the_system_is_a_failed_read(rt: HostRuntime) {
    let mut files = real(&rt, &rt, None);
    let mut buf = [0u8; 1];
    assert!(rt; files.read("no/such/file", 0, &mut buf) == Got::Failed);
    assert!(rt; files.create("no/such/file") == Put::Failed);
}

// Whether what a file of this name has from a place on is this.
fn has_from<F: Files>(files: &mut F, name: &str, from: u64, bytes: &[u8]) -> bool {
    let mut buf = [0u8; 8];
    match files.read(name, from, &mut buf) {
        Got::Bytes(count) => &buf[..count] == bytes,
        Got::End => bytes.is_empty(),
        Got::Failed => false,
    }
}

#[test]
fn files_of_the_system_are_made_and_added_to(rt: HostRuntime) {
    let mut files = real(&rt, &rt, None);
    let made = files.create("made") == Put::Done
        && has_from(&mut real(&rt, &rt, None), "made", 0, b"");
    let added = files.append("made", b"ab") == Put::Done && files.append("made", b"c") == Put::Done;
    let mut again = real(&rt, &rt, None);
    let whole = has_from(&mut again, "made", 1, b"bc") && has_from(&mut again, "made", 0, b"abc");
    let emptied = files.create("made") == Put::Done && has_from(&mut again, "made", 0, b"");
    fs::remove_file(&rt, "made").expect(&rt, "a file that goes");
    assert!(rt; made && added && whole && emptied);
}

#[test]
fn a_file_of_the_system_has_one_writer(rt: HostRuntime) {
    let mut files = real(&rt, &rt, None);
    let made = files.append("one", b"abc") == Put::Done;
    let mut other = real(&rt, &rt, None);
    let kept = other.create("one") == Put::Failed && other.append("one", b"d") == Put::Failed;
    let whole = has_from(&mut other, "one", 0, b"abc");
    drop(files);
    let free = real(&rt, &rt, None).create("one") == Put::Done;
    fs::remove_file(&rt, "one").expect(&rt, "a file that goes");
    assert!(rt; made && kept && whole && free);
}

#[test]
fn a_file_is_read_and_written_on_where_its_name_moves(rt: HostRuntime) {
    fs::write(&rt, "old", b"abcdefghij").expect(&rt, "a file");
    fs::write(&rt, "new", b"0123456789").expect(&rt, "a file");
    let mut files = real(&rt, &rt, None);
    let front = has_from(&mut files, "old", 0, b"abcdefgh");
    let written = files.create("out") == Put::Done && files.append("out", b"x") == Put::Done;
    fs::rename(&rt, "new", "old").expect(&rt, "a name that moves");
    fs::rename(&rt, "out", "moved").expect(&rt, "a name that moves");
    let rest = has_from(&mut files, "old", 8, b"ij") && has_from(&mut files, "old", 10, b"");
    let added = files.append("out", b"y") == Put::Done
        && fs::exists(&rt, "out").ok() == Some(false);
    let whole = has_from(&mut files, "moved", 0, b"xy");
    fs::remove_file(&rt, "old").expect(&rt, "a file that goes");
    fs::remove_file(&rt, "moved").expect(&rt, "a file that goes");
    assert!(rt; front && written && rest && added && whole);
}

// A file that was read and one that will be are kept, under whatever name.
#[test]
fn a_file_that_is_read_is_not_emptied(rt: HostRuntime) {
    fs::write(&rt, "text", b"abc").expect(&rt, "a file");
    fs::write(&rt, "channel", b"def").expect(&rt, "a file");
    fs::hard_link(&rt, "text", "hard").expect(&rt, "a link");
    symlink(&rt, "channel", "soft").expect(&rt, "a link");
    let mut files = real(&rt, &rt, Some("channel"));
    let read = has_from(&mut files, "text", 0, b"abc");
    let mut kept = true;
    for name in ["text", "./text", "hard", "channel", "./channel", "soft"] {
        kept = kept && files.create(name) == Put::Failed;
        kept = kept && files.append(name, b"x") == Put::Failed;
    }
    let whole = has_from(&mut real(&rt, &rt, None), "hard", 0, b"abc")
        && has_from(&mut real(&rt, &rt, None), "soft", 0, b"def");
    for name in ["text", "hard", "soft", "channel"] {
        fs::remove_file(&rt, name).expect(&rt, "a file that goes");
    }
    assert!(rt; read && kept && whole);
}

// Whether a source gives these bytes, two at a time, and then its end.
fn gives_abc<S: Source>(source: &mut S) -> bool {
    let mut buf = [0u8; 2];
    let two = source.read(&mut buf) == Got::Bytes(2) && buf == [b'a', b'b'];
    let one = source.read(&mut buf) == Got::Bytes(1) && buf[0] == b'c';
    two && one && source.read(&mut buf) == Got::End
}

#[test]
fn sources_are_read(rt: HostRuntime) {
    let mut sure = SureSource::new(text(&rt, rt.alloc(), b"abc"));
    assert!(rt; gives_abc(&mut sure));
    drop(sure);
    let mut real = RealSource::new(b"abc".as_slice());
    assert!(rt; gives_abc(&mut real));
}

// It gives the same then.
#[test]
fn the_first_read_of_a_source_fails(rt: HostRuntime) {
    let bytes = text(&rt, rt.alloc(), b"abc");
    let mut source = MemorySource::new(bytes, numbers(&rt, rt.alloc(), &[0]));
    let mut buf = [0u8; 1];
    assert!(rt; source.read(&mut buf) == Got::Failed);
    assert!(rt; gives_abc(&mut source));
}

// Sends a string of one byte as a whole frame.
fn send_one<W: World>(world: &mut W, byte: u8) -> Put {
    world.send(&[0, 0, 0, 1, byte])
}

#[test]
fn a_world_keeps_input_console_and_channel_apart(rt: HostRuntime) {
    let mut world = SureWorld::new(rt.alloc(), text(&rt, rt.alloc(), b"abc"));
    let mut buf = [0u8; 2];
    let two = world.read(&mut buf);
    let printed = world.print(b"p");
    let one = world.read(&mut buf);
    let sent = send_one(&mut world, b's');
    let end = world.read(&mut buf);
    assert!(rt; [two, one, end] == [Got::Bytes(2), Got::Bytes(1), Got::End]);
    assert!(rt; [printed, sent] == [Put::Done, Put::Done]);
    assert!(rt; world.console().as_slice() == b"p".as_slice());
    assert!(rt; world.channel().as_slice() == b"\x00\x00\x00\x01s".as_slice());
}

#[test]
fn the_calls_of_a_world_fail_where_they_are_to(rt: HostRuntime) {
    let alloc = rt.alloc();
    let input = text(&rt, alloc, b"a");
    let reads = numbers(&rt, alloc, &[0]);
    let mut world = MemoryWorld::new(alloc, input, reads, numbers(&rt, alloc, &[0, 2]));
    let mut buf = [0u8; 1];
    let no_byte = world.read(&mut buf);
    let byte = world.read(&mut buf);
    let unprinted = world.print(b"1");
    let printed = world.print(b"2");
    let unsent = send_one(&mut world, b'3');
    let sent = send_one(&mut world, b'4');
    assert!(rt; [no_byte, byte] == [Got::Failed, Got::Bytes(1)]);
    let wanted = [Put::Failed, Put::Done, Put::Failed, Put::Done];
    assert!(rt; [unprinted, printed, unsent, sent] == wanted);
    assert!(rt; world.console().as_slice() == b"2".as_slice());
    assert!(rt; world.channel().as_slice() == b"\x00\x00\x00\x014".as_slice());
}

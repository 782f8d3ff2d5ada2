//! Runs the command lines of its input over files in memory, and prints what each wrote and how it
//! ended. Started with words, it is the program `acute` over the real files and streams, as it
//! starts itself for pairs of processes.
//!
//! A line of input is one of these, and is printed again:
//!
//! - `file NAME` begins a file; each line behind it that begins with `|` is a line of it, without
//!   the `|`.
//! - `bytes NAME DIGITS` is a file of these bytes, in hexadecimal digits.
//! - `blanks NAME COUNT` is a file of so many spaces and a `1`.
//! - `take NAME` is the file of that name that lies beside the program.
//! - `$ WORDS` calls `acute` with these words, which are parted by single spaces. Behind it stand
//!   its status, what it wrote on output, a `|` in front and behind each line feed, and on errors.
//! - `input DIGITS` stands in front of a call that gets these bytes on standard input, and `fail
//!   PLACE NUMBER` in front of one in which the call of that number, from 0, fails; PLACE is
//!   `input`, `output`, `errors`, `starts` of children or `child`, its reads and the wait for it.
//! - `child STATUS DIGITS` stands in front of a call whose child gives these bytes and ends with this
//!   status. Behind the call stand the words of each start, too.
//! - `each PLACE WORDS` calls `acute` anew for each number, up to the first call without a fault;
//!   PLACE may be `reads` or `writes` of files, too. The files stay as they are. Behind it stand
//!   the statuses and lines of faults of these calls, the same ones once, and `no front` where a
//!   stream or a file has something that isn't a front of what it gets without a fault.
//! - `show NAME` prints a file's bytes, in hexadecimal digits; `length NAME` how many they are.
//! - `pipe WORDS | WORDS` starts two processes with these words, a writer and a reader whose input
//!   is the writer's output. The system joins the two: no byte of theirs passes through this
//!   process. Their files are those that lie beside the program, where `save NAME` lays one, too.
//!   Behind it stands for each what stands behind a call. Under `rt try` the program can't start
//!   itself, and both end with 127.
//! - `alone WORDS` starts one process with these words, of which `%` is the name of this program's
//!   file. Behind it stands what stands behind a call. Under `rt try` it ends with 127.
//! - `new` begins anew, without files. Any other line is a heading.
#![tactic(auto)]

mod call;
mod children;
mod desk;
mod faults;
mod fronts;
mod given;
mod pairs;

use ac_text::Page;
use acute_top_system::{Status, call_really, words_given};
use desk::Desk;
use faults::{Fault, place_of};
use pairs::{join_pair, start_alone};
use std::alloc::Global;
use std::fs;
use std::io::{self, Write};
use std::process::ExitCode;
use std::thread::Threads;

// Does what a line says that is no call, and writes what is printed behind it.
fn prepare(rt: &HostRuntime, desk: &mut Desk, page: &mut Page, line: &str) {
    if let Some(text) = line.strip_prefix("|") {
        desk.add_line(page, text);
    } else if let Some((word, rest)) = line.split_once(' ') {
        set_up(rt, desk, page, word, rest);
    } else if line == "new" {
        *desk = Desk::new(rt.alloc());
    }
}

// A line that speaks of one file, of the next call, or of processes.
fn set_up(rt: &HostRuntime, desk: &mut Desk, page: &mut Page, word: &str, rest: &str) {
    let alloc = rt.alloc();
    match word {
        "file" => desk.begin(alloc, page, rest, b""),
        "bytes" => add_bytes(alloc, desk, page, rest),
        "blanks" => add_blanks(alloc, desk, page, rest),
        "take" => take(rt, desk, page, rest),
        "save" => save(rt, desk, page, rest),
        "show" => desk.show(alloc, page, rest),
        "length" => desk.measure(page, rest),
        "input" => feed(alloc, desk, page, rest),
        "fail" => fail(desk, page, rest),
        "child" => give(alloc, desk, page, rest),
        "pipe" => join_pair(rt, page, rest),
        "alone" => start_alone(rt, page, rest),
        _ => {}
    }
}

// What stands in front of the first space, and what behind it.
fn parted(line: &str) -> (&str, &str) {
    line.split_once(' ').unwrap_or((line, ""))
}

fn add_bytes(alloc: Global, desk: &mut Desk, page: &mut Page, rest: &str) {
    let (name, digits) = parted(rest);
    match hex::decode(alloc, digits) {
        Ok(bytes) => desk.begin(alloc, page, name, &bytes),
        Err(_) => page.put(b"no digits\n"),
    }
}

fn add_blanks(alloc: Global, desk: &mut Desk, page: &mut Page, rest: &str) {
    let (name, count) = parted(rest);
    let text = blanks(alloc, count.parse::<u32>().unwrap_or(0));
    match text.bytes() {
        Some(bytes) => desk.begin(alloc, page, name, bytes),
        None => page.lose(),
    }
}

fn blanks(alloc: Global, count: u32) -> Page {
    let mut text = Page::new(alloc);
    for _ in 0..count {
        text.put(b" ");
    }
    text.put(b"1");
    text
}

fn take(rt: &HostRuntime, desk: &mut Desk, page: &mut Page, name: &str) {
    match fs::read(rt, name) {
        Ok(bytes) => desk.begin(rt.alloc(), page, name, &bytes),
        Err(_) => page.put(b"no such file\n"),
    }
}

fn save(rt: &HostRuntime, desk: &Desk, page: &mut Page, name: &str) {
    match desk.bytes(name) {
        Some(bytes) if fs::write(rt, name, bytes).is_ok() => {}
        _ => page.put(b"not saved\n"),
    }
}

fn feed(alloc: Global, desk: &mut Desk, page: &mut Page, digits: &str) {
    match hex::decode(alloc, digits) {
        Ok(bytes) => desk.feed(page, &bytes),
        Err(_) => page.put(b"no digits\n"),
    }
}

fn give(alloc: Global, desk: &mut Desk, page: &mut Page, rest: &str) {
    let (status, digits) = parted(rest);
    match (status.parse::<i32>(), hex::decode(alloc, digits)) {
        (Ok(status), Ok(bytes)) => desk.give(page, status, &bytes),
        _ => page.put(b"no child\n"),
    }
}

fn fail(desk: &mut Desk, page: &mut Page, rest: &str) {
    let (word, number) = parted(rest);
    match (place_of(word), number.parse::<u64>()) {
        (Some(place), Ok(number)) => desk.fail(page, Fault { place, number }),
        _ => page.put(b"no fault\n"),
    }
}

// Makes the calls of a line, if it is one of calls.
fn make_calls<R: Threads + Sync>(
    rt: &R,
    alloc: Global,
    desk: &mut Desk,
    page: &mut Page,
    line: &str,
) {
    if let Some(words) = line.strip_prefix("$ ") {
        desk.call(rt, alloc, page, words);
    } else if let Some(rest) = line.strip_prefix("each ") {
        let (word, words) = parted(rest);
        match place_of(word) {
            Some(place) => desk.try_each(rt, alloc, page, place, words),
            None => page.put(b"no fault\n"),
        }
    }
}

// Does each line of the input. Its calls start their threads by a handle of its own.
fn do_lines<R: Threads + Sync>(threads: &R, rt: &HostRuntime) -> io::Result<()> {
    let mut desk = Desk::new(rt.alloc());
    for line in rt.lines(rt.alloc()) {
        do_line(threads, rt, &mut desk, line?.as_str())?;
    }
    Ok(())
}

// Prints a line, and behind it what it gives.
fn do_line<R: Threads + Sync>(
    threads: &R,
    rt: &HostRuntime,
    desk: &mut Desk,
    line: &str,
) -> io::Result<()> {
    println!(rt; "{line}")?;
    let mut page = Page::new(rt.alloc());
    prepare(rt, desk, &mut page, line);
    make_calls(threads, rt.alloc(), desk, &mut page, line);
    rt.stdout()
        .write_all(page.bytes().unwrap_or(b"out of memory\n"))
}

fn main(rt: HostRuntime) -> ExitCode {
    let words = match words_given(rt.alloc(), &rt) {
        Ok(words) => words,
        Err(_) => return ExitCode::from(Status::OUT_OF_MEMORY.0),
    };
    if words.is_empty() {
        return match do_lines(&rt, &rt) {
            Ok(()) => ExitCode::SUCCESS,
            Err(_) => ExitCode::FAILURE,
        };
    }
    let Status(status) = call_really(&rt, rt, &words);
    ExitCode::from(status)
}

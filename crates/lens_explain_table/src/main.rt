//! Runs the command lines of its input over files in memory, and prints what `lens` wrote and how it
//! ended.
//!
//! A line of input is one of these, and is printed again:
//!
//! - `file NAME` begins a file; each line behind it that begins with `|` is a line of it, without
//!   the `|`.
//! - `bytes NAME DIGITS` is a file of these bytes, in hexadecimal digits.
//! - `blanks NAME COUNT` is a file of so many spaces and a `1`.
//! - `$ WORDS` calls `lens` with these words, which are parted by single spaces. Behind it stand its
//!   status and what it wrote on output and on errors, a `|` in front of each line.
//! - `new` begins anew, without files. Any other line is a heading.
#![tactic(auto)]

mod desk;

use ac_text::Page;
use desk::Desk;
use std::alloc::Global;
use std::io::{self, Write};

// What stands in front of the first space, and what behind it.
fn parted(line: &str) -> (&str, &str) {
    line.split_once(' ').unwrap_or((line, ""))
}

fn add_bytes(alloc: Global, desk: &mut Desk, page: &mut Page, rest: &str) {
    let (name, digits) = parted(rest);
    match hex::decode(alloc, digits) {
        Ok(bytes) => desk.begin(alloc, page, name, &bytes),
        Err(_) => page.put(b"no digits\n"),
    }
}

fn add_blanks(alloc: Global, desk: &mut Desk, page: &mut Page, rest: &str) {
    let (name, count) = parted(rest);
    let mut text = Page::new(alloc);
    for _ in 0..count.parse::<u32>().unwrap_or(0) {
        text.put(b" ");
    }
    text.put(b"1");
    match text.bytes() {
        Some(bytes) => desk.begin(alloc, page, name, bytes),
        None => page.lose(),
    }
}

// Does what a line says.
fn do_line(alloc: Global, desk: &mut Desk, page: &mut Page, line: &str) {
    if let Some(text) = line.strip_prefix("|") {
        return desk.add_line(page, text);
    }
    if let Some(words) = line.strip_prefix("$ ") {
        return desk.call(alloc, page, words);
    }
    match parted(line) {
        ("file", name) => desk.begin(alloc, page, name, b""),
        ("bytes", rest) => add_bytes(alloc, desk, page, rest),
        ("blanks", rest) => add_blanks(alloc, desk, page, rest),
        ("new", _) => *desk = Desk::new(alloc),
        _ => {}
    }
}

fn main(rt: HostRuntime) -> io::Result<()> {
    let mut desk = Desk::new(rt.alloc());
    for line in rt.lines(rt.alloc()) {
        let line = line?;
        println!(rt; "{line}")?;
        let mut page = Page::new(rt.alloc());
        do_line(rt.alloc(), &mut desk, &mut page, line.as_str());
        rt.stdout()
            .write_all(page.bytes().unwrap_or(b"out of memory\n"))?;
    }
    Ok(())
}

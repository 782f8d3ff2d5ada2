//! Prints what comes of damaged packets: of each front of one, and of each string that differs from
//! it in one byte.
//!
//! A line of input is one of these, and is printed again:
//!
//! - `send TEXT` is a program that sends the packet.
//! - `receive TEXT` is a program that receives strings up to the end of its input, and prints a line
//!   for each.
//! - `damage` prints the packet's bytes, in hexadecimal digits, and behind `as packets`, `as frames`,
//!   `as programs` and `as lists` what comes of the damaged ones. Any other line is a heading.
//!
//! As a packet a string is `format` where it is none, `accepted` where the receiving program may take
//! it in at the packet's type, and else refused for the cause that is printed, with the number of a
//! definition where that has one. Behind it stands `and otherwise spelled` where it isn't written
//! again as it stands there, and `and left entries` where the program's definitions aren't the same
//! after a refusal. As a frame it is received, and the line that the program prints is its answer. As
//! a program it is the file that `run` runs, and as a list it is the list of the shelf of a program
//! whose files aren't there; its answer is the status.
//!
//! Behind `fronts` stand the lengths with each answer. Behind a place, or behind several that are
//! alike, stand the bytes with each answer, in hexadecimal digits, the packet's own byte among them.
#![tactic(auto)]

mod damaged;
mod entries;
mod frames;
mod packets;
mod sections;
mod statuses;

use ac_text::Page;
use ac_types::{Memory, Text};
use frames::sent_by;
use sections::put_sections;
use std::alloc::Global;
use std::io::{self, Write};
use std::thread::Threads;

/// A packet, and the program that receives what is made of it.
pub struct Subject {
    /// The packet.
    pub packet: Text,
    /// The text of the program.
    pub receiver: Text,
}

impl Drop for Subject {
    fn drop(self) {
        let Subject {
            packet: _,
            receiver: _,
        } = self;
    }
}

// Does what a line says, and writes what is printed behind it.
fn do_line<R: Threads + Sync>(
    rt: &R,
    alloc: Global,
    page: &mut Page,
    subject: &mut Subject,
    line: &str,
) -> Result<(), Memory> {
    if let Some(text) = line.strip_prefix("send ") {
        subject.packet = sent_by(alloc, text.as_bytes())?;
    } else if let Some(text) = line.strip_prefix("receive ") {
        subject.receiver = Text::from_slice(alloc, text.as_bytes())?;
    } else if line == "damage" {
        put_sections(rt, alloc, page, subject)?;
    }
    Ok(())
}

// Does each line of the input. Its calls start their threads by a handle of its own.
fn do_lines<R: Threads + Sync>(threads: &R, rt: &HostRuntime) -> io::Result<()> {
    let alloc = rt.alloc();
    let mut subject = Subject {
        packet: Text::new(alloc),
        receiver: Text::new(alloc),
    };
    for line in rt.lines(alloc) {
        let line = line?;
        println!(rt; "{line}")?;
        let mut page = Page::new(alloc);
        if do_line(threads, alloc, &mut page, &mut subject, line.as_str()).is_err() {
            page.lose();
        }
        rt.stdout()
            .write_all(page.bytes().unwrap_or(b"out of memory\n"))?;
    }
    Ok(())
}

fn main(rt: HostRuntime) -> io::Result<()> {
    do_lines(&rt, &rt)
}

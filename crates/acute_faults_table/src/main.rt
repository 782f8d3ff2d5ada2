//! Prints how programs and command lines end over devices of which one call fails, the first one,
//! then the second, and so on, up to the first run in which none does.
//!
//! A line of input is one of these, and is printed again:
//!
//! - `file NAME` begins a file; each line behind it that begins with `|` is a line of it, without
//!   the `|`. `bytes NAME DIGITS` is a file of these bytes, in hexadecimal digits.
//! - `input DIGITS` is what each of the runs behind it gets on standard input or from its world.
//! - `call PLACE WORDS` calls `acute` with these words, which are parted by single spaces. The calls
//!   that fail are those of PLACE: `input`, `reads` or `writes` of files, `output` or `errors`.
//! - `world PLACE FILE` runs the program of a file in a world, and `world PLACE FILE LIST` with the
//!   shelf whose list is in another file; PLACE is `reads` or `writes`.
//! - `new` begins anew, without files and without input. Any other line is a heading.
//!
//! Each run begins with these files and this input. Behind a line of runs stand three lines: of
//! devices that give all that is asked for, of such that give a byte a read, and of such that give 1
//! to 7 bytes by turns. Each has the ends behind the numbers of the calls that failed, from 0; of
//! `acute` the status, behind it the line of a fault where one stands last on errors. `no front`
//! stands where a stream or a file isn't as it was before and has no front of what the whole run
//! writes. The last end is the one that is the whole run's, with all that it writes.
#![tactic(auto)]

mod calls;
mod desk;
mod faults;
mod outcome;
mod paced;
mod trials;
mod worlds;

use ac_text::Page;
use ac_types::Memory;
use desk::Desk;
use faults::place_of;
use std::alloc::Global;
use std::io::{self, Write};
use std::thread::Threads;
use trials::{Bench, Trial, put_trials};

// Changes the files or the input as a line says.
fn set_up(alloc: Global, desk: &mut Desk, line: &str) -> Result<(), Memory> {
    if let Some(text) = line.strip_prefix("|") {
        return desk.add_line(text);
    }
    let (word, rest) = parted(line);
    match word {
        "file" => desk.begin(alloc, rest),
        "bytes" => {
            let (name, digits) = parted(rest);
            desk.begin(alloc, name)?;
            desk.add_digits(alloc, digits)
        }
        "input" => desk.feed(alloc, rest),
        "new" => {
            *desk = Desk::new(alloc);
            Ok(())
        }
        _ => Ok(()),
    }
}

// What stands in front of the first space, and what behind it.
fn parted(line: &str) -> (&str, &str) {
    line.split_once(' ').unwrap_or((line, ""))
}

// The runs that a line asks for.
fn trial_of(line: &str) -> Option<Trial<'_>> {
    if let Some(rest) = line.strip_prefix("call ") {
        let (_, words) = parted(rest);
        return Some(Trial::Call(words));
    }
    let (_, rest) = parted(line.strip_prefix("world ")?);
    let (program, list) = parted(rest);
    let list = if list.is_empty() { None } else { Some(list) };
    Some(Trial::World { program, list })
}

// Makes the runs that a line asks for, if it asks for some.
fn try_out<R: Threads + Sync>(
    rt: &R,
    alloc: Global,
    page: &mut Page,
    desk: &Desk,
    line: &str,
) -> Result<(), Memory> {
    let Some(trial) = trial_of(line) else {
        return Ok(());
    };
    let (_, rest) = parted(line);
    let (place, _) = parted(rest);
    match place_of(place) {
        Some(place) => put_trials(rt, alloc, page, &Bench { desk, trial, place }),
        None => {
            page.put(b"no place\n");
            Ok(())
        }
    }
}

// Does each line of the input. Its calls start their threads by a handle of its own.
fn do_lines<R: Threads + Sync>(threads: &R, rt: &HostRuntime) -> io::Result<()> {
    let alloc = rt.alloc();
    let mut desk = Desk::new(alloc);
    for line in rt.lines(alloc) {
        let line = line?;
        println!(rt; "{line}")?;
        let mut page = Page::new(alloc);
        if set_up(alloc, &mut desk, line.as_str()).is_err()
            || try_out(threads, alloc, &mut page, &desk, line.as_str()).is_err()
        {
            page.lose();
        }
        rt.stdout()
            .write_all(page.bytes().unwrap_or(b"out of memory\n"))?;
    }
    Ok(())
}

fn main(rt: HostRuntime) -> io::Result<()> {
    do_lines(&rt, &rt)
}

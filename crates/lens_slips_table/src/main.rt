//! Prints for each slip of its input what `lens explain` says of it, and whether this has the words
//! that it has to have.
//!
//! A slip is a line `slip NAME`, lines that begin with `|`, which are its text, and lines
//! `has WORDS`. Words that stand in the text itself count for nothing, since a message quotes it.
#![tactic(auto)]

use ac_load::Shelf;
use ac_text::Page;
use ac_types::{Memory, Text};
use lens_explain::{Beside, Form, Heading, explain};
use std::alloc::Global;
use std::io::{self, Write};

// A slip, as far as it was read.
#[derive(Drop)]
struct Slip {
    text: Text,
    words: Vec<String>,
}

// How many slips there were, and how many messages had all words.
#[derive(Clone, Copy)]
struct Counts {
    slips: u64,
    good: u64,
}

fn contains(bytes: &[u8], word: &[u8]) -> bool {
    for i in 0..bytes.len() {
        if bytes[i..].starts_with(word) {
            return true;
        }
    }
    false
}

// Adds what is said of a text, each line behind a `|`.
fn write_quoted(page: &mut Page, said: &[u8]) {
    for line in said.split(|byte| *byte == b'\n') {
        if !line.is_empty() {
            page.put(b"|");
            page.put(line);
            page.put(b"\n");
        }
    }
}

// Adds whether a message has some words, and gives it.
fn write_found(page: &mut Page, slip: &Slip, said: &[u8], word: &str) -> bool {
    let is_quoted = contains(slip.text.as_slice(), word.as_bytes());
    let is_there = contains(said, word.as_bytes());
    let found: &[u8] = if is_quoted {
        b"in the text: "
    } else if is_there {
        b"has "
    } else {
        b"lacks "
    };
    page.put(found);
    page.put(word.as_bytes());
    page.put(b"\n");
    is_there && !is_quoted
}

impl Slip {
    fn new(alloc: Global) -> Slip {
        Slip {
            text: Text::new(alloc),
            words: Vec::new(alloc),
        }
    }

    fn add_line(&mut self, line: &str) -> Result<(), Memory> {
        self.text.extend(line.as_bytes())?;
        self.text.extend(b"\n")
    }

    fn add_word(&mut self, alloc: Global, word: &str) -> Result<(), Memory> {
        self.words.push(String::from_str(alloc, word)?)?;
        Ok(())
    }

    // Adds what is said of the slip, and whether that has all words.
    fn tell(&self, alloc: Global, page: &mut Page) -> Result<bool, Memory> {
        let shelf = Shelf::empty(alloc);
        let beside = Beside {
            shelf: &shelf,
            lines: &[],
        };
        let heading = Heading {
            form: Form::Lines,
            file: "slip.ac",
        };
        let found = explain(alloc, &beside, heading, self.text.as_slice())?;
        let said = found.page.bytes().unwrap_or(b"out of memory\n");
        write_quoted(page, said);
        let mut has_all = true;
        for word in &self.words {
            has_all &= write_found(page, self, said, word.as_str());
        }
        Ok(has_all)
    }
}

// Prints what is said of a slip that was read, and counts it.
fn print_slip(rt: &HostRuntime, slip: &Slip, counts: &mut Counts) -> io::Result<()> {
    if slip.words.is_empty() {
        return Ok(());
    }
    let mut page = Page::new(rt.alloc());
    counts.slips = counts.slips.saturating_add(1);
    match slip.tell(rt.alloc(), &mut page) {
        Ok(true) => counts.good = counts.good.saturating_add(1),
        Ok(false) => {}
        Err(_) => page.lose(),
    }
    rt.stdout()
        .write_all(page.bytes().unwrap_or(b"out of memory\n"))
}

// Takes a line of a slip.
fn take(alloc: Global, slip: &mut Slip, line: &str) -> Result<(), Memory> {
    if let Some(text) = line.strip_prefix("|") {
        return slip.add_line(text);
    }
    match line.strip_prefix("has ") {
        Some(word) => slip.add_word(alloc, word),
        None => Ok(()),
    }
}

fn main(rt: HostRuntime) -> io::Result<()> {
    let mut slip = Slip::new(rt.alloc());
    let mut counts = Counts { slips: 0, good: 0 };
    for line in rt.lines(rt.alloc()) {
        let line = line?;
        if let Some(name) = line.as_str().strip_prefix("slip ") {
            print_slip(&rt, &slip, &mut counts)?;
            slip = Slip::new(rt.alloc());
            println!(rt; "slip {name}")?;
        } else if take(rt.alloc(), &mut slip, line.as_str()).is_err() {
            println!(rt; "out of memory")?;
        }
    }
    print_slip(&rt, &slip, &mut counts)?;
    let Counts { slips, good } = counts;
    println!(rt; "{good} of {slips} have their words")
}

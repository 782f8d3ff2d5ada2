//! Prints for each line of its input, bytes in hexadecimal digits, the packet that they spell, or
//! the place of the first byte that doesn't fit.
//!
//! A piece of a line may stand for so many of itself, as `07*3` for `070707`. A packet is printed as
//! its definitions, its type and its value. A leaf is printed as it is, any other node in
//! parentheses, its form in front of its parts. A string is `x` and its bytes in digits, a name its
//! digits. Of a longer answer than 1,000 bytes the first 60 and the length are printed.
//!
//! The place is that of the first piece that doesn't fit: a tag, a number, an identifier, a string,
//! a type of too many parts, or the term that should be a function. Where the bytes end within a
//! piece it is their end.
//!
//! Behind `prefixes` and `changes` stand bytes of which all proper prefixes are read, or all strings
//! that differ from them in one byte: how many are no packet, how many of these because they end too
//! early, and how many are packets that are spelled as they stand there, or otherwise.
#![tactic(auto)]

mod alike;
mod defs;

use ac_decode::DecodeFault;
use ac_table_text::{Leaves, Sheet};
use ac_text::Page;
use ac_types::{Memory, Text};
use alike::{read_again, write_changes, write_prefixes};
use defs::write_packet;
use std::alloc::Global;
use std::io::{self, Write};

// The bytes that pieces write, `None` where one has no digits.
fn bytes_of(alloc: Global, pieces: &str) -> Result<Option<Text>, Memory> {
    let mut text = Text::new(alloc);
    for piece in pieces.split(' ') {
        let (digits, times) = match piece.split_once('*') {
            None => (piece, 1),
            Some((digits, times)) => (digits, times.parse::<u32>().unwrap_or(0)),
        };
        let Ok(bytes) = hex::decode(alloc, digits) else {
            return Ok(None);
        };
        for _ in 0..times {
            text.extend(bytes.as_slice())?;
        }
    }
    Ok(Some(text))
}

// The packet that bytes spell, or the place of the first byte that doesn't fit.
fn write_read(alloc: Global, page: &mut Page, bytes: &[u8]) {
    match read_again(alloc, bytes) {
        Err(DecodeFault::Format { at }) => {
            page.put(b" no packet at ");
            page.number(u64::from(at));
        }
        Err(DecodeFault::Memory) => page.lose(),
        Ok((packet, same)) => {
            if !same {
                page.put(b" otherwise");
            }
            write_packet(&mut Sheet::on(page, Leaves::Digits), &packet);
        }
    }
}

// What is done with the bytes of a line.
#[derive(Clone, Copy)]
enum Asked {
    Packet,
    Prefixes,
    Changes,
}

fn what_is_asked(line: &str) -> (Asked, &str) {
    if let Some(pieces) = line.strip_prefix("prefixes ") {
        return (Asked::Prefixes, pieces);
    }
    if let Some(pieces) = line.strip_prefix("changes ") {
        return (Asked::Changes, pieces);
    }
    (Asked::Packet, line)
}

fn write_answer(alloc: Global, page: &mut Page, line: &str) -> Result<(), Memory> {
    let (asked, pieces) = what_is_asked(line);
    let Some(text) = bytes_of(alloc, pieces)? else {
        page.put(b" no bytes");
        return Ok(());
    };
    match asked {
        Asked::Packet => write_read(alloc, page, text.as_slice()),
        Asked::Prefixes => write_prefixes(alloc, page, text.as_slice())?,
        Asked::Changes => write_changes(alloc, page, text.as_slice())?,
    }
    Ok(())
}

// What is printed of an answer.
fn shown(bytes: &[u8]) -> &[u8] {
    match bytes.get(..60) {
        Some(front) if bytes.len() > 1000 => front,
        _ => bytes,
    }
}

fn main(rt: HostRuntime) -> io::Result<()> {
    for line in rt.lines(rt.alloc()) {
        let line = line?;
        let mut page = Page::new(rt.alloc());
        if write_answer(rt.alloc(), &mut page, line.as_str()).is_err() {
            page.lose();
        }
        print!(rt; "{line} =>")?;
        let bytes = page.bytes().unwrap_or(b" out of memory");
        let (front, length) = (shown(bytes), bytes.len());
        rt.stdout().write_all(front)?;
        if front.len() < length {
            print!(rt; " .. of {length}")?;
        }
        println!(rt)?;
    }
    Ok(())
}

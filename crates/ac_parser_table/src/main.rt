//! Prints for each line of its input the tree of the text on it, or why it has none.
//!
//! A line is a word, a space and a text. `program` gives the tree of a program, `module` that of a
//! module alone, `places` that of a program, with the place of each node and name behind an `@`.
//! After `long` and
//! `long_module` `{N PIECE}` stands in the text for N times that piece, and no tree is printed. A
//! leaf is
//! printed as it is, any other node in parentheses, its form in front of its parts.
#![tactic(auto)]

mod definitions;
mod expressions;
mod page;
mod patterns;
mod pieces;
mod types;
mod versions;

use ac_parser::{parse_module, parse_program};
use ac_syntax::{ParseFault, Surface};
use ac_types::{Memory, Text};
use definitions::write_program;
use page::TreePage;
use pieces::expanded;
use std::alloc::Global;
use std::io::{self, Write};

fn write_place(page: &mut TreePage, cause: &[u8], at: u32) {
    page.put(cause);
    page.number(i64::from(at));
}

fn write_fault(page: &mut TreePage, fault: ParseFault) {
    match fault {
        ParseFault::TooLong { len } => {
            page.put(b" too_long ");
            page.number(i64::try_from(len).unwrap_or(-1));
        }
        ParseFault::Lexical { at } => write_place(page, b" lexical at ", at),
        ParseFault::TooDeep { at } => write_place(page, b" too_deep at ", at),
        ParseFault::Syntax { at } => write_place(page, b" syntax at ", at),
        ParseFault::Memory => page.put(b" out of memory"),
    }
}

fn write_answer(page: &mut TreePage, answer: &Result<Surface, ParseFault>) {
    match answer {
        Ok(program) => write_program(page, program),
        Err(fault) => write_fault(page, *fault),
    }
}

// Whether there is a tree, for a text whose tree would be too long to read.
fn write_outcome(page: &mut TreePage, answer: &Result<Surface, ParseFault>) {
    match answer {
        Ok(_) => page.put(b" a tree"),
        Err(fault) => write_fault(page, *fault),
    }
}

fn long_program(alloc: Global, written: &str) -> Result<Surface, ParseFault> {
    match expanded(alloc, written) {
        Ok(text) => parse_program(alloc, text.as_slice()),
        Err(Memory) => Err(ParseFault::Memory),
    }
}

fn long_module(alloc: Global, written: &str) -> Result<Surface, ParseFault> {
    match expanded(alloc, written) {
        Ok(text) => parse_module(alloc, text.as_slice()),
        Err(Memory) => Err(ParseFault::Memory),
    }
}

fn answer_to(alloc: Global, line: &str) -> TreePage {
    let (word, text) = line.split_once(' ').unwrap_or((line, ""));
    let mut page = TreePage::new(alloc, word == "places");
    match word {
        "program" | "places" => {
            write_answer(&mut page, &parse_program(alloc, text.as_bytes()));
        }
        "module" => write_answer(&mut page, &parse_module(alloc, text.as_bytes())),
        "long" => write_outcome(&mut page, &long_program(alloc, text)),
        "long_module" => write_outcome(&mut page, &long_module(alloc, text)),
        _ => page.put(b" no row"),
    }
    page
}

fn main(rt: HostRuntime) -> io::Result<()> {
    for line in rt.lines(rt.alloc()) {
        let line = line?;
        let page = answer_to(rt.alloc(), line.as_str());
        rt.stdout().write_all(line.as_bytes())?;
        rt.stdout().write_all(b" =>")?;
        rt.stdout().write_all(page.bytes())?;
        println!(rt)?;
    }
    Ok(())
}

//! Prints for each line of its input, a row, the needed entries of some roots.
//!
//! A row is the digits of the roots and the mark's letter, and behind a colon the entries. An entry
//! is `m`, `i` or `k`, for a module, an import or a mark, and a letter, its name. Behind that stands
//! its signature: a capital is a value of that definition's type `t`, a small letter a manifest one.
//! Behind `=` stand its own types, or its likespec, in capitals, and its fields: a digit is a
//! reference to that entry, and a small letter a function from that definition's type `t`. Each
//! import is linked to entry 0.
#![tactic(auto)]

mod entries;

use ac_closure::{NeedFault, needed};
use ac_terms::Env;
use ac_text::Page;
use ac_types::{Many, Memory, Text};
use entries::Make;
use std::alloc::Global;
use std::io::{self, Write};

// The digits, as numbers.
fn roots_of(alloc: Global, digits: &str) -> Result<Many<u32>, Memory> {
    let mut roots = Many::new(alloc);
    for digit in digits.as_bytes() {
        if digit.is_ascii_digit() {
            roots.push(u32::from(*digit - b'0'))?;
        }
    }
    Ok(roots)
}

fn environment(alloc: Global, spelled: &str) -> Result<Env, Memory> {
    let mut env = Env::new(alloc);
    for word in spelled.split_whitespace() {
        env.push(Make(alloc).entry(word.as_bytes())?)?;
    }
    Ok(env)
}

fn answer(alloc: Global, row: &str, page: &mut Page) -> Result<(), Memory> {
    let Some((before, spelled)) = row.split_once(':') else {
        return Ok(());
    };
    let Some((digits, mark)) = before.split_once(' ') else {
        return Ok(());
    };
    let env = environment(alloc, spelled)?;
    let mark = Text::from_slice(alloc, mark.as_bytes())?;
    let roots = roots_of(alloc, digits)?;
    if env.len() > 10 {
        return Ok(());
    }
    match needed(alloc, &env, &mark, &roots) {
        Err(NeedFault::NoMark) => page.put(b" no mark"),
        Err(NeedFault::Memory) => page.lose(),
        Ok(all) => {
            for i in all.as_slice() {
                page.put(b" ");
                page.number(u64::from(*i));
            }
        }
    }
    Ok(())
}

fn main(rt: HostRuntime) -> io::Result<()> {
    for row in rt.lines(rt.alloc()) {
        let row = row?;
        let mut page = Page::new(rt.alloc());
        let _ = answer(rt.alloc(), row.as_str(), &mut page);
        print!(rt; "{row} =>")?;
        rt.stdout().write_all(page.bytes().unwrap_or(b"!"))?;
        println!(rt)?;
    }
    Ok(())
}

//! Prints for each line of its input, a seed and a number of modules, how long the program is that
//! they give, and its SHA-256.
//!
//! Of a program of one or two modules the text follows.
#![tactic(auto)]

use ac_make::make;
use ac_types::{Memory, Text};
use sha2::{Digest, Sha256};
use std::alloc::Global;
use std::io::{self, Write};

// The seed and the number of modules.
fn asked(row: &str) -> Option<(u64, u32)> {
    let (seed, modules) = row.split_once(' ')?;
    Some((seed.parse::<u64>().ok()?, modules.parse::<u32>().ok()?))
}

fn answer(alloc: Global, row: &str) -> Result<Text, Memory> {
    let Some((seed, modules)) = asked(row) else {
        return Text::from_slice(alloc, b"no row\n");
    };
    let program = make(alloc, seed, modules)?;
    let len = program.as_slice().len();
    let digits = hex::encode(alloc, Sha256::digest(program.as_slice()).as_slice())?;
    let line = format!(in alloc; "{len} bytes, {digits}\n")?;
    let mut answer = Text::from_slice(alloc, line.as_bytes())?;
    if modules < 3 {
        answer.extend(program.as_slice())?;
    }
    Ok(answer)
}

fn main(rt: HostRuntime) -> io::Result<()> {
    for row in rt.lines(rt.alloc()) {
        let row = row?;
        print!(rt; "{row} => ")?;
        match answer(rt.alloc(), row.as_str()) {
            Ok(text) => rt.stdout().write_all(text.as_slice())?,
            Err(Memory) => println!(rt; "out of memory")?,
        }
    }
    Ok(())
}

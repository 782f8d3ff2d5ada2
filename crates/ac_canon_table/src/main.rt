//! Prints for each line of its input, a definition, its canonical text and its name, in hexadecimal
//! digits.
//!
//! A form is written in front of its parts, as `Lam int Var 0`; parentheses may stand anywhere. A
//! form of any number of parts is followed by that number. An identifier begins with `'`, a string
//! is `x` and its bytes in hexadecimal digits, and `@2` is the name of the definition on line 2,
//! from 0. `sig` is followed by the number of its types and these, and the number of its values and
//! these; `module` has its name, version, signature, types and fields, `import` its name,
//! signature, constraint, likespec and resolvespec.
#![tactic(auto)]

mod defs;
mod parts;
mod reading;

use ac_canon::{def_text, has_text};
use ac_names::{has_name, name_hex, name_of};
use ac_terms::{Def, Entry, Env, Seen};
use ac_text::Page;
use ac_types::{Memory, Name};
use reading::read;
use std::alloc::Global;
use std::io::{self, Write};

// The name of an entry, where it has one.
fn name_at(alloc: Global, env: &Env, i: u32) -> Result<Option<Name>, Memory> {
    if !has_name(env, i) {
        return Ok(None);
    }
    name_of(alloc, env, i).map(Some)
}

// The definition comes last, under its name. Its number is answered.
fn enter(alloc: Global, env: &mut Env, def: Def) -> Result<u32, Memory> {
    let number = env.len();
    env.push(Entry {
        def,
        name: None,
        seen: Seen::Own,
        link: None,
    })?;
    let Ok(i) = u32::try_from(number) else {
        return Err(Memory);
    };
    let name = name_at(alloc, env, i)?;
    if let Some(entry) = env.pop() {
        let mut entry = entry;
        entry.name = name;
        env.push(entry)?;
    }
    Ok(i)
}

// Adds the canonical text and the name of an entry in digits, `-` where there is none.
fn write_entry(alloc: Global, page: &mut Page, env: &Env, i: u32) -> Result<(), Memory> {
    if has_text(env, i) {
        let text = def_text(alloc, env, i)?;
        page.put(hex::encode(alloc, text.as_slice())?.as_bytes());
    } else {
        page.put(b"-");
    }
    page.put(b" ");
    match name_at(alloc, env, i)? {
        None => page.put(b"-"),
        Some(name) => page.put(name_hex(alloc, &name)?.as_slice()),
    }
    Ok(())
}

fn write_row(alloc: Global, page: &mut Page, env: &mut Env, line: &str) -> Result<(), Memory> {
    match read(alloc, env, line) {
        None => {
            page.put(b"no definition");
            Ok(())
        }
        Some(def) => {
            let i = enter(alloc, env, def)?;
            write_entry(alloc, page, env, i)
        }
    }
}

// A line with its answer.
fn row(alloc: Global, env: &mut Env, line: &str) -> Page {
    let mut page = Page::new(alloc);
    page.put(line.as_bytes());
    page.put(b" => ");
    if write_row(alloc, &mut page, env, line).is_err() {
        page.lose();
    }
    page.put(b"\n");
    page
}

fn main(rt: HostRuntime) -> io::Result<()> {
    let mut env = Env::new(rt.alloc());
    for line in rt.lines(rt.alloc()) {
        let page = row(rt.alloc(), &mut env, line?.as_str());
        rt.stdout()
            .write_all(page.bytes().unwrap_or(b"out of memory\n"))?;
    }
    Ok(())
}

//! Prints for each line of its input what the text on it elaborates to, or why it is refused.
//!
//! A line is a word, a space and a text. In front of the text may stand one or two modules by
//! themselves, each with ` %% ` behind it, whose entries are in front of it. `main` gives the term of
//! a program, `defs` the definitions that a program adds, `module` that of a module by itself. A leaf
//! is printed as it is, any other node in parentheses, its form in front of its parts. An abstract
//! type is one of the first entry of its name.
#![tactic(auto)]

ghost use Rattle.std.specs.Prelude.{◌≤◌, ◌+◌, length, IfSome, IsTrue};
ghost use Rattle.std.specs.List.{list_all};
ghost use Rattle.ac_terms.specs.Read.{environment_of};
ghost use Rattle.ac_resolve_names.specs.Entries.{keeps_name};

mod definitions;

use ac_parser::{parse_module, parse_program};
use ac_resolve::{ScopeFault, elaborate};
use ac_resolve_terms::RawProgram;
use ac_syntax::{ParseFault, Surface};
use ac_table_text::{Leaves, Sheet, write_term};
use ac_terms::Env;
use ac_text::Page;
use definitions::write_added;
use std::alloc::Global;
use std::io::{self, Write};

// Where the entries in front of a text come from.
const BETWEEN: &str = " %% ";

fn message(alloc: Global, cause: &[u8]) -> Page {
    let mut page = Page::new(alloc);
    page.put(cause);
    page
}

fn fault(alloc: Global, fault: ScopeFault) -> Page {
    let (cause, number): (&[u8], u32) = match fault {
        ScopeFault::Unbound { at } => (b" unbound at ", at),
        ScopeFault::Repeated { at } => (b" repeated at ", at),
        ScopeFault::TooMany { count } => (b" too_many ", count),
        ScopeFault::Memory => (b" out of memory ", 0),
    };
    let mut page = message(alloc, cause);
    page.number(u64::from(number));
    page
}

// The term of a program, or the definitions behind the first `front` entries.
fn written(alloc: Global, word: &str, raw: &RawProgram, front: usize) -> Page {
    let mut page = Page::new(alloc);
    let mut sheet = Sheet::on(&mut page, Leaves::Entries(&raw.env));
    if word == "main" {
        write_term(&mut sheet, &raw.main);
    } else {
        write_added(&mut sheet, raw.env.entries(), front);
    }
    page
}

fn parsed(alloc: Global, word: &str, text: &str) -> Result<Surface, ParseFault> {
    if word == "module" {
        parse_module(alloc, text.as_bytes())
    } else {
        parse_program(alloc, text.as_bytes())
    }
}

fn answer(alloc: Global, word: &str, env: Env, text: &str) -> Page
    requires names { IsTrue (list_all keeps_name (environment_of env)) }
    requires few { length (environment_of env) ≤ 65535 }
{
    let front = env.len();
    match parsed(alloc, word, text) {
        Err(_) => message(alloc, b" no tree"),
        Ok(surface) => match elaborate(alloc, &surface, env) {
            Err(cause) => fault(alloc, cause),
            Ok(raw) => written(alloc, word, &raw, front),
        },
    }
}

// The entries, and that of a module by itself behind them; `None` where it is refused.
fn behind(alloc: Global, env: Env, text: &str) -> Option<Env>
    requires names { IsTrue (list_all keeps_name (environment_of env)) }
    requires few { length (environment_of env) ≤ 4096 }
    ensures names { IfSome result (λ e. IsTrue (list_all keeps_name (environment_of e))) }
    ensures few { IfSome result (λ e. length (environment_of e) ≤ length (environment_of env)
        + 4096) }
{
    let Ok(surface) = parse_module(alloc, text.as_bytes()) else {
        return None;
    };
    match elaborate(alloc, &surface, env) {
        Ok(raw) => Some(raw.env),
        Err(_) => None,
    }
}

fn refused_in_front(alloc: Global) -> Page {
    message(alloc, b" refused in front")
}

fn behind_one(alloc: Global, word: &str, env: Env, text: &str) -> Page
    requires names { IsTrue (list_all keeps_name (environment_of env)) }
    requires few { length (environment_of env) ≤ 4096 }
{
    match text.split_once(BETWEEN) {
        None => answer(alloc, word, env, text),
        Some((second, last)) => match behind(alloc, env, second) {
            None => refused_in_front(alloc),
            Some(env) => answer(alloc, word, env, last),
        },
    }
}

fn answer_to(alloc: Global, line: &str) -> Page {
    let (word, text) = line.split_once(' ').unwrap_or((line, ""));
    let env = Env::new(alloc);
    match text.split_once(BETWEEN) {
        None => answer(alloc, word, env, text),
        Some((first, rest)) => match behind(alloc, env, first) {
            None => refused_in_front(alloc),
            Some(env) => behind_one(alloc, word, env, rest),
        },
    }
}

fn main(rt: HostRuntime) -> io::Result<()> {
    for line in rt.lines(rt.alloc()) {
        let line = line?;
        let page = answer_to(rt.alloc(), line.as_str());
        rt.stdout().write_all(line.as_bytes())?;
        rt.stdout().write_all(b" =>")?;
        rt.stdout()
            .write_all(page.bytes().unwrap_or(b" out of memory"))?;
        println!(rt)?;
    }
    Ok(())
}

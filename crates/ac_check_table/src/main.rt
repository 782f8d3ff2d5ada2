//! Prints for each line of its input, a word and a term or the text of a program, its type.
//!
//! After `program` stands a text: the answer is the program's type, or why it is refused. After the
//! other words stands a term. `valuable` asks whether it is valuable, `check` whether a captured value
//! is of its type, behind the three definitions below.
//!
//! A form is written in front of its parts, as `Lam int Var 0`; a form of any number of parts is
//! followed by that number. `Str` is the string `s`. After `main`, `own`, `import` and `exact` three
//! definitions stand before the term: a module of number 0, whose type `abstract` is int and whose
//! field and value have that type; an import of it by version, of number 1, whose type is
//! `imported`; and one by exact name, of number 2. The term's home is the main program or that
//! definition. `Ref 1` is the value of definition 1, `Val T 1` the captured value 1 at T, `Carried T
//! l` a function of the module, `Foreign T l` one of the import by version. After `type` there is no
//! definition, variable 0 is an int and variable 1 a bool. The answer is `none` where a term has no
//! type, and `no term` where there is none, as of a primitive's number that is none.
#![tactic(auto)]

mod loads;
mod reading;
mod site;
mod types;

use ac_check::CheckFault;
use ac_modules::valuable;
use ac_terms::{Home, Term};
use ac_text::Page;
use ac_types::{Memory, Ty};
use loads::write_program;
use reading::read;
use site::Site;
use std::alloc::Global;
use std::io::{self, Write};
use types::write_type;

fn write_answer(page: &mut Page, answer: Option<Result<Ty, CheckFault>>) {
    match answer {
        None => page.put(b" many definitions"),
        Some(Ok(ty)) => write_type(page, &ty),
        Some(Err(CheckFault::IllTyped)) => page.put(b" none"),
        Some(Err(CheckFault::Memory)) => page.lose(),
    }
}

fn write_type_of(alloc: Global, page: &mut Page, site: Result<Site, Memory>, term: &Term) {
    match site {
        Ok(site) => write_answer(page, site.type_of(alloc, term)),
        Err(Memory) => page.lose(),
    }
}

fn write_check(alloc: Global, page: &mut Page, site: Result<Site, Memory>, term: &Term) {
    match (site, term) {
        (Ok(site), Term::Val(ty, v)) => match site.check_value(alloc, ty, v) {
            None => page.put(b" many definitions"),
            Some(Ok(())) => page.put(b" yes"),
            Some(Err(CheckFault::IllTyped)) => page.put(b" no"),
            Some(Err(CheckFault::Memory)) => page.lose(),
        },
        (Ok(_), _) => page.put(b" no value"),
        (Err(Memory), _) => page.lose(),
    }
}

fn write_row(alloc: Global, page: &mut Page, word: &str, term: &Term) {
    match word {
        "type" => write_type_of(alloc, page, Site::alone(alloc), term),
        "main" => write_type_of(alloc, page, Site::behind_module(alloc, Home::Main), term),
        "own" => write_type_of(alloc, page, Site::behind_module(alloc, Home::In(0)), term),
        "import" => write_type_of(alloc, page, Site::behind_module(alloc, Home::In(1)), term),
        "exact" => write_type_of(alloc, page, Site::behind_module(alloc, Home::In(2)), term),
        "check" => write_check(alloc, page, Site::behind_module(alloc, Home::Main), term),
        "valuable" if valuable(term) => page.put(b" yes"),
        "valuable" => page.put(b" no"),
        _ => page.put(b" no row"),
    }
}

fn write_term(alloc: Global, page: &mut Page, word: &str, written: &str) {
    match read(alloc, written) {
        None => page.put(b" no term"),
        Some(term) => write_row(alloc, page, word, &term),
    }
}

fn answer_to(alloc: Global, line: &str) -> Page {
    let (word, written) = line.split_once(' ').unwrap_or((line, ""));
    let mut page = Page::new(alloc);
    if word == "program" {
        write_program(alloc, &mut page, written.as_bytes());
    } else {
        write_term(alloc, &mut page, word, written);
    }
    page
}

fn main(rt: HostRuntime) -> io::Result<()> {
    for line in rt.lines(rt.alloc()) {
        let line = line?;
        let page = answer_to(rt.alloc(), line.as_str());
        rt.stdout().write_all(line.as_bytes())?;
        rt.stdout().write_all(b" =>")?;
        rt.stdout()
            .write_all(page.bytes().unwrap_or(b" out of memory".as_slice()))?;
        println!(rt)?;
    }
    Ok(())
}

//! Makes the syntax files for editors from the words and symbols of the language.
//!
//! Without words it says of each file whether it stands where it runs as it is made. With the name of
//! a file it prints that file.
#![tactic(auto)]

mod groups;
mod textmate;
mod vim;

use ac_syntax::symbol_of;
use ac_text::Page;
use groups::SPELLINGS;
use std::alloc::Global;
use std::io::{self, Write};
use std::{env, fs};
use textmate::put_textmate;
use vim::put_vim;

const FILES: &[&str] = &[
    "vim/syntax/acute.vim",
    "vscode/syntaxes/acute.tmLanguage.json",
];

fn made(alloc: Global, file: &str) -> Page {
    let mut page = Page::new(alloc);
    match file {
        "vim/syntax/acute.vim" => put_vim(&mut page),
        "vscode/syntaxes/acute.tmLanguage.json" => put_textmate(&mut page),
        _ => page.put(b"no such file\n"),
    }
    page
}

// Prints whether a file is as it is made.
fn compare(rt: &HostRuntime, file: &str) -> io::Result<()> {
    let page = made(rt.alloc(), file);
    let found = fs::read(rt, file)?;
    let said = match page.bytes() {
        None => "out of memory",
        Some(bytes) if bytes == found.as_slice() => "as it is made",
        Some(_) => "another one is made",
    };
    println!(rt; "{file}: {said}")
}

// Prints which words are none.
fn tell_words(rt: &HostRuntime) -> io::Result<()> {
    for spelling in SPELLINGS {
        if symbol_of(spelling).is_none() {
            rt.stdout().write_all(spelling)?;
            println!(rt; " is no word")?;
        }
    }
    Ok(())
}

fn main(rt: HostRuntime) -> io::Result<()> {
    let mut words = env::args(&rt)?;
    words.next();
    if let Some(file) = words.next() {
        let page = made(rt.alloc(), file.as_str());
        return rt
            .stdout()
            .write_all(page.bytes().unwrap_or(b"out of memory\n"));
    }
    tell_words(&rt)?;
    for file in FILES {
        compare(&rt, file)?;
    }
    Ok(())
}

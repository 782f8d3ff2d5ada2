// Strings that are files of a command.

use ac_outside::{Files, MemoryFiles, OpenGate, Put, SureSink, SureSource};
use ac_spawn::MemorySpawner;
use ac_text::Page;
use ac_types::{Many, Memory, Text};
use acute_top::{Status, acute};
use std::alloc::Global;
use std::thread::Threads;

// The program beside a list.
const SEVEN: &[u8] = b"IO.print_int (3 + 4)";

/// The status of a run of each string as a program.
pub fn of_programs<R: Threads + Sync>(
    rt: &R,
    alloc: Global,
    strings: &[Text],
) -> Result<Vec<Text>, Memory> {
    statuses(rt, alloc, "run program", "program", strings)
}

/// The status of a run of a program beside each string as the list of its shelf.
pub fn of_lists<R: Threads + Sync>(
    rt: &R,
    alloc: Global,
    strings: &[Text],
) -> Result<Vec<Text>, Memory> {
    statuses(rt, alloc, "run seven --shelf list", "list", strings)
}

// The status of a call with the words of a line for each string as the file of that name.
fn statuses<R: Threads + Sync>(
    rt: &R,
    alloc: Global,
    line: &str,
    name: &str,
    strings: &[Text],
) -> Result<Vec<Text>, Memory> {
    let words = words_of(alloc, line)?;
    let mut files = MemoryFiles::new(alloc, Many::new(alloc), Many::new(alloc), Many::new(alloc));
    put_file(&mut files, "seven", SEVEN)?;
    let mut answers = Vec::new(alloc);
    for string in strings {
        put_file(&mut files, name, string.as_slice())?;
        answers.push(status(rt, alloc, &words, &mut files)?)?;
    }
    Ok(answers)
}

fn words_of(alloc: Global, line: &str) -> Result<Vec<String>, Memory> {
    let mut words = Vec::new(alloc);
    for word in line.split(' ') {
        words.push(String::from_str(alloc, word)?)?;
    }
    Ok(words)
}

// A write in memory fails for want of it alone.
fn put_file(files: &mut MemoryFiles, name: &str, bytes: &[u8]) -> Result<(), Memory> {
    if files.create(name) == Put::Done && files.append(name, bytes) == Put::Done {
        Ok(())
    } else {
        Err(Memory)
    }
}

// The status of a call over files, without input.
fn status<R: Threads + Sync>(
    rt: &R,
    alloc: Global,
    words: &[String],
    files: &mut MemoryFiles,
) -> Result<Text, Memory> {
    let mut input = SureSource::new(Text::new(alloc));
    let mut output = SureSink::new(alloc);
    let mut errors = SureSink::new(alloc);
    let nothing = Text::new(alloc);
    let mut spawner = MemorySpawner::new(alloc, nothing, 0, Many::new(alloc), Many::new(alloc));
    let Status(status) = acute(
        rt,
        alloc,
        words,
        files,
        &mut input,
        &mut output,
        &mut errors,
        &mut spawner,
        &OpenGate,
    );
    let mut page = Page::new(alloc);
    page.put(b"status ");
    page.number(u64::from(status));
    match page.bytes() {
        Some(bytes) => Text::from_slice(alloc, bytes),
        None => Err(Memory),
    }
}

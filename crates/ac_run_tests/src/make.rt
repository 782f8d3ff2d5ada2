// What tests call with. Want of memory ends the test.

ghost use Rattle.ac_types.specs.ReadTypes.{typ_of};
ghost use Rattle.ac_terms.specs.Read.{environment_of, expr_of};
ghost use Rattle.ac_meaning.specs.Loads.{IsLoaded};

use ac_load::{Shelf, load};
use ac_outside::{MemoryFile, MemoryFiles, OpenGate, Source, SureSink};
use ac_rules::Loaded;
use ac_spawn::MemorySpawner;
use ac_types::{Many, Text};
use acute_top::{Status, acute};
use std::alloc::Global;
use std::process::Abort;
use std::thread::Threads;

/// The text of these bytes.
pub fn text(rt: &impl Abort, alloc: Global, bytes: &[u8]) -> Text {
    Text::from_slice(alloc, bytes).expect(rt, "memory")
}

/// A list of these numbers.
pub fn numbers(rt: &impl Abort, alloc: Global, numbers: &[u64]) -> Many<u64> {
    Many::from_slice(alloc, numbers).expect(rt, "memory")
}

/// Files of which there is one, `a`. The reads of these numbers fail, and so do the writes.
pub fn one_file(rt: &impl Abort, alloc: Global, bytes: &[u8], failing: &[u64]) -> MemoryFiles {
    let mut files = Many::new(alloc);
    let name = String::from_str(alloc, "a").expect(rt, "memory");
    let bytes = text(rt, alloc, bytes);
    files.push(MemoryFile { name, bytes }).expect(rt, "memory");
    let reads = numbers(rt, alloc, failing);
    MemoryFiles::new(alloc, files, reads, numbers(rt, alloc, failing))
}

// The words of a line, which are parted by single spaces.
fn words_of(rt: &impl Abort, alloc: Global, line: &str) -> Vec<String> {
    let mut words = Vec::new(alloc);
    for word in line.split(' ') {
        let word = String::from_str(alloc, word).expect(rt, "memory");
        words.push(word).expect(rt, "memory");
    }
    words
}

/// The program of a text, with no shelf.
pub fn program(rt: &impl Abort, alloc: Global, text: &[u8]) -> Loaded
    ensures { IsLoaded (environment_of result.env) (expr_of result.main) (typ_of result.ty) }
{
    load(alloc, text, &Shelf::empty(alloc)).expect(rt, "a program")
}

/// Calls the top call with the words of a line, over a file `a` that has this text, and checks that
/// it ends well.
pub fn finish<R: Abort + Threads + Sync, I: Source>(
    rt: &R,
    alloc: Global,
    line: &str,
    text: &[u8],
    input: &mut I,
    output: &mut SureSink,
    errors: &mut SureSink,
) {
    let words = words_of(rt, alloc, line);
    let mut files = one_file(rt, alloc, text, &[]);
    let nothing = Text::new(alloc);
    let mut spawner = MemorySpawner::new(alloc, nothing, 0, Many::new(alloc), Many::new(alloc));
    let status = acute(
        rt,
        alloc,
        &words,
        &mut files,
        input,
        output,
        errors,
        &mut spawner,
        &OpenGate,
    );
    assert!(rt; status == Status::FINISHED);
}

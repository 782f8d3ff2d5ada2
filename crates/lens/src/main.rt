//! The program `lens` over the real files and streams.
#![tactic(auto)]

use ac_outside_system::{RealFiles, RealSink};
use ac_types::Memory;
use lens_top::{LensStatus, lens};
use std::alloc::Global;
use std::env;
use std::io::ErrorKind;
use std::process::ExitCode;

// The words behind the program's own name. Words that are no text count as none.
fn words_given(alloc: Global, rt: &HostRuntime) -> Result<Vec<String>, Memory> {
    let mut words = Vec::new(alloc);
    match env::args(rt) {
        Ok(args) => {
            for (i, word) in args.enumerate() {
                if i > 0 && words.push(word).is_err() {
                    return Err(Memory);
                }
            }
        }
        Err(fault) if fault.kind() == ErrorKind::OutOfMemory => return Err(Memory),
        Err(_) => {}
    }
    Ok(words)
}

fn call(rt: HostRuntime) -> Result<LensStatus, Memory> {
    let alloc = rt.alloc();
    let words = words_given(alloc, &rt)?;
    let mut output = RealSink::new(rt.stdout());
    let mut errors = RealSink::new(rt.stderr());
    let mut files = RealFiles::new(alloc, &rt, &words, None)?;
    Ok(lens(alloc, &words, &mut files, &mut output, &mut errors))
}

fn main(rt: HostRuntime) -> ExitCode {
    match call(rt) {
        Ok(LensStatus(status)) => ExitCode::from(status),
        Err(_) => ExitCode::from(LensStatus::OUT_OF_MEMORY.0),
    }
}

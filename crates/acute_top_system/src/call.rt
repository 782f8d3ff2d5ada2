// A call over the files, streams and children of the system.

use crate::words::received_from;
use ac_outside::OpenGate;
use ac_outside_system::{RealFiles, RealSink, RealSource};
use ac_spawn_system::RealSpawner;
use ac_types::Memory;
use acute_top::{Status, acute};
use std::alloc::Global;
use std::thread::Threads;

/// Calls `acute` with these words over the files, streams and children of the system. It starts its
/// threads by a handle of its own.
pub fn call_really<R: Threads + Sync>(threads: &R, rt: HostRuntime, words: &[String]) -> Status {
    let mut input = RealSource::new(rt.stdin());
    let mut output = RealSink::new(rt.stdout());
    let mut errors = RealSink::new(rt.stderr());
    let alloc = rt.alloc();
    let mut files = match files_of(alloc, &rt, words) {
        Ok(files) => files,
        Err(_) => return Status::OUT_OF_MEMORY,
    };
    let mut spawner = RealSpawner::new(alloc, &rt);
    acute(
        threads,
        alloc,
        words,
        &mut files,
        &mut input,
        &mut output,
        &mut errors,
        &mut spawner,
        &OpenGate,
    )
}

// The files of the system, for these words.
fn files_of<'a>(
    alloc: Global,
    rt: &'a HostRuntime,
    words: &'a [String],
) -> Result<RealFiles<'a, &'a HostRuntime>, Memory> {
    RealFiles::new(alloc, rt, words, received_from(alloc, words)?)
}

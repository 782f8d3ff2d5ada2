//! The program `acute`: the top call over the real files and streams.
#![tactic(auto)]

use acute_top_system::{Status, call_really, words_given};
use std::process::ExitCode;

fn main(rt: HostRuntime) -> ExitCode {
    let words = match words_given(rt.alloc(), &rt) {
        Ok(words) => words,
        Err(_) => return ExitCode::from(Status::OUT_OF_MEMORY.0),
    };
    let Status(status) = call_really(&rt, rt, &words);
    ExitCode::from(status)
}

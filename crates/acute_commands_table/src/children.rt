// Children of this process: one, or two that are joined by a pipe.

use std::process::{Child, Command, Stdio};
use std::time::Duration;
use std::{env, io, thread};

// How often a child is asked whether it has ended, and the milliseconds between. In all it has
// half a minute.
const TURNS: u32 = 3000;

const PAUSE: u64 = 10;

/// How a child ended, and what it wrote.
#[derive(Drop)]
pub struct Ended {
    /// Its status, `None` where a signal ended it.
    pub status: Option<u8>,
    /// What it wrote on output, nothing where another child read that.
    pub output: Vec<u8>,
    /// What it wrote on errors.
    pub errors: Vec<u8>,
}

/// Starts this program by the words of a writer and by those of a reader, whose input is the
/// writer's output, and gives how both ended. Words are parted by single spaces.
pub fn joined(rt: &HostRuntime, writer: &str, reader: &str) -> io::Result<(Ended, Ended)> {
    let mut writer = started(rt, writer, Stdio::null())?;
    let pipe = match writer.stdout.take() {
        Some(pipe) => Stdio::from(pipe),
        None => Stdio::null(),
    };
    let reader = started(rt, reader, pipe)?;
    let reader = wait_for(rt, reader)?;
    Ok((wait_for(rt, writer)?, reader))
}

/// Starts this program by these words, without input, and gives how it ended. Words are parted by
/// single spaces, and `%` is the name of this program's file.
pub fn alone(rt: &HostRuntime, words: &str) -> io::Result<Ended> {
    let child = started(rt, words, Stdio::null())?;
    wait_for(rt, child)
}

// A child with this input. The input's end is no longer open in this process.
fn started(rt: &HostRuntime, words: &str, input: Stdio) -> io::Result<Child> {
    let program = env::current_exe(rt)?;
    let mut command = Command::new(rt.alloc(), program.as_path())?;
    for word in words.split(' ') {
        match word {
            "%" => command.arg(program.as_path())?,
            _ => command.arg(word)?,
        };
    }
    command.stdin(input);
    command.stdout(Stdio::piped());
    command.stderr(Stdio::piped());
    command.spawn(rt)
}

// Waits for a child, and kills it where its time is over.
fn wait_for(rt: &HostRuntime, mut child: Child) -> io::Result<Ended> {
    for _ in 0..TURNS {
        if child.try_wait()?.is_some() {
            break;
        }
        thread::sleep(rt, Duration::from_millis(PAUSE));
    }
    child.kill()?;
    let ended = child.wait_with_output(rt.alloc())?;
    Ok(Ended {
        status: ended.status.code().and_then(|code| u8::try_from(code).ok()),
        output: ended.stdout,
        errors: ended.stderr,
    })
}

// What starts programs of the system.
ghost use Rattle.std.specs.Prelude.{◌≡◌, ◌≤◌, false, [], IfOk, length};

use ac_outside::{Got, Put};
use ac_spawn::{Ended, Spawner};
use std::alloc::Global;
use std::io;
use std::io::{ErrorKind, Read};
use std::marker::Model;
use std::process::{Child, Command, Processes, Stdio};

/// What starts programs of the system. Contracts see it as whether a child runs, and as the numbers
/// of starts, and of reads and waits, that failed.
#[derive(Drop)]
pub struct RealSpawner<'a, R: Processes> {
    alloc: Global,
    processes: &'a R,
    child: Option<Child<R::Started>>,
    start_faults: u64,
    read_faults: u64,
}

impl<'a, R: Processes> Model for RealSpawner<'a, R> {
    ghost use Rattle.std.specs.Prelude.{Bool, ℕ, is_some};

    ghost Value = { Bool × ℕ × ℕ };

    ghost view = { λ s. (is_some s.child, s.start_faults, s.read_faults) };
}

impl<'a, R: Processes> RealSpawner<'a, R> {
    /// No child runs, and no call has failed.
    pub fn new(alloc: Global, processes: &'a R) -> Self
        ensures { result ≡ (false, 0, 0) }
    {
        RealSpawner {
            alloc,
            processes,
            child: None,
            start_faults: 0,
            read_faults: 0,
        }
    }
}

impl<'a, R: Processes> Spawner for RealSpawner<'a, R> {
    ghost use Rattle.std.specs.Prelude.{pos};

    ghost told = { false };

    ghost child = { λ s. record {
      running = s.0;
      started = [];
      left = [];
      status = pos 0;
      start_faults = s.1;
      read_faults = s.2;
    } };

    /// The child gets no input, and its errors are those of this program.
    fn start(&mut self, words: &[String]) -> Put {
        match started(self.alloc, self.processes, words) {
            Ok(child) => {
                self.child = Some(child);
                Put::Done
            }
            Err(fault) if fault.kind() == ErrorKind::OutOfMemory => Put::Memory,
            Err(_) => {
                self.start_faults = self.start_faults.saturating_add(1);
                Put::Failed
            }
        }
    }

    fn read(&mut self, buf: &mut [u8]) -> Got {
        let got = match &mut self.child {
            Some(child) => match &mut child.stdout {
                Some(output) => output.read(buf).ok(),
                None => None,
            },
            None => None,
        };
        match got {
            Some(0) => Got::End,
            Some(count) => Got::Bytes(count),
            None => {
                self.read_faults = self.read_faults.saturating_add(1);
                Got::Failed
            }
        }
    }

    /// The end of the pipe that is read is closed before the wait, so a child that writes on doesn't
    /// hang it. A child that a signal has ended has no status.
    fn finish(&mut self) -> Ended {
        let code = match self.child.take() {
            Some(mut child) => {
                drop(child.stdout.take());
                match child.wait() {
                    Ok(status) => status.code(),
                    Err(_) => None,
                }
            }
            None => None,
        };
        match code {
            Some(status) => Ended::Status(status),
            None => {
                self.read_faults = self.read_faults.saturating_add(1);
                Ended::Failed
            }
        }
    }
}

// Starts the program that the first word names, with the other words.
fn started<R: Processes>(
    alloc: Global,
    processes: &R,
    words: &[String],
) -> io::Result<Child<R::Started>> {
    let Some((program, rest)) = words.split_first() else {
        return Err(io::Error::from(ErrorKind::InvalidInput));
    };
    let mut command = Command::new(alloc, program.as_str())?;
    for word in rest {
        command.arg(word.as_str())?;
    }
    command.stdin(Stdio::null());
    command.stdout(Stdio::piped());
    command.spawn(processes)
}

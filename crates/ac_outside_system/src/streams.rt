// Streams of the system, which tell nothing of what they have.
ghost use Rattle.std.specs.Prelude.{◌≡◌, ⊤, false, []};

use ac_outside::{Got, Put, Sink, Source};
use std::io;
use std::io::{Read, Write};
use std::marker::Model;

/// A sink over any writer, which it flushes after each piece. Contracts see it as the number of
/// writes that failed.
#[derive(Drop)]
pub struct RealSink<W> {
    inner: W,
    faults: u64,
}

impl<W> Model for RealSink<W> {
    ghost use Rattle.std.specs.Prelude.{ℕ};

    ghost Value = { ℕ };

    ghost view = { λ s. s.faults };
}

impl<W: Write> RealSink<W> {
    /// No write has failed.
    pub fn new(inner: W) -> Self
        ensures { result ≡ 0 }
    {
        RealSink { inner, faults: 0 }
    }
}

impl<W: Write> Sink for RealSink<W> {
    ghost told = { false };

    ghost written = { λ _. [] };

    ghost faults = { λ s. s };

    fn write(&mut self, bytes: &[u8]) -> Put {
        match written(&mut self.inner, bytes) {
            Ok(()) => Put::Done,
            Err(_) => {
                self.faults = self.faults.saturating_add(1);
                Put::Failed
            }
        }
    }
}

fn written<W: Write>(inner: &mut W, bytes: &[u8]) -> io::Result<()> {
    inner.write_all(bytes)?;
    inner.flush()
}

/// A source over any reader. Contracts see it as the number of reads that failed.
#[derive(Drop)]
pub struct RealSource<R> {
    inner: R,
    faults: u64,
}

impl<R> Model for RealSource<R> {
    ghost use Rattle.std.specs.Prelude.{ℕ};

    ghost Value = { ℕ };

    ghost view = { λ s. s.faults };
}

impl<R: Read> RealSource<R> {
    /// No read has failed.
    pub fn new(inner: R) -> Self
        ensures { result ≡ 0 }
    {
        RealSource { inner, faults: 0 }
    }
}

impl<R: Read> Source for RealSource<R> {
    ghost told = { false };

    ghost left = { λ _. [] };

    ghost read_faults = { λ s. s };

    ghost passes = { λ _ _. ⊤ };

    fn read(&mut self, buf: &mut [u8]) -> Got {
        match self.inner.read(buf) {
            Ok(0) => Got::End,
            Ok(count) => Got::Bytes(count),
            Err(_) => {
                self.faults = self.faults.saturating_add(1);
                Got::Failed
            }
        }
    }

    ghost passes_none = { λ _. tt };

    ghost passes_on = { λ _ _ _ _ _. tt };
}

// What was read of a regular file beyond what was asked for.
ghost use Rattle.std.specs.Prelude.{◌≤◌, length};

use std::alloc::{AllocError, Global};

/// The bytes that are read at a time where fewer are asked for.
pub const PIECE: usize = 4096;

/// A piece of one of the files that are read. It is given to reads that go on where the last one
/// ended, and else it is forgotten.
#[derive(Drop)]
pub struct Ahead {
    bytes: Vec<u8>,
    // Where those begin that no read got yet, and where they end.
    start: usize,
    end: usize,
    // Of which reader's file they are, and their place in it.
    reader: usize,
    place: u64,
}

impl Ahead {
    /// Nothing is held yet. All memory is taken here.
    pub fn new(alloc: Global) -> Result<Ahead, AllocError> {
        let mut bytes = Vec::new(alloc);
        bytes.resize(PIECE, 0)?;
        Ok(Ahead {
            bytes,
            start: 0,
            end: 0,
            reader: 0,
            place: 0,
        })
    }

    /// Gives what is held of a reader's file from that place on, as far as there is room, and how many
    /// bytes these are.
    pub fn take(&mut self, reader: usize, place: u64, buf: &mut [u8]) -> usize
        ensures { result ≤ length buf.new }
    {
        if reader != self.reader || place != self.place {
            return 0;
        }
        let Some(held) = self.bytes.get(self.start..self.end) else {
            return 0;
        };
        let count = held.len().min(buf.len());
        buf[..count].copy_from_slice(&held[..count]);
        self.start = self.start.saturating_add(count);
        self.place = self.place.saturating_add(count as u64);
        count
    }

    /// Room for a piece. Nothing is held until one is kept.
    pub fn room(&mut self) -> &mut [u8] {
        self.end = 0;
        self.bytes.as_mut_slice()
    }

    /// The room has so many bytes of that reader's file, from that place on.
    pub fn keep(&mut self, reader: usize, place: u64, count: usize) {
        self.start = 0;
        self.end = count;
        self.reader = reader;
        self.place = place;
    }
}

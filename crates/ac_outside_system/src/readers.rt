// The files of the system that are read.
ghost use Rattle.std.specs.Prelude.{◌<◌, ◌≤◌, IfOk, IfSome, length, vec_len};

use crate::ahead::{Ahead, PIECE};
use crate::node::FileId;
use std::alloc::{AllocError, Global};
use std::fs::{File, Files};
use std::io::{Read, Seek, SeekFrom};
use std::{fs, io};

// A file that is read, and the place where its last read ended.
#[derive(Drop)]
struct Reader {
    // Where its name begins and ends among the names of all.
    name: (usize, usize),
    file: File,
    node: Option<FileId>,
    place: u64,
}

impl Reader {
    fn read(&mut self, from: u64, buf: &mut [u8]) -> io::Result<usize>
        ensures { IfOk result (λ n. n ≤ length buf.new) }
    {
        if from != self.place {
            self.place = self.file.seek(SeekFrom::Start(from))?;
        }
        let count = self.file.read(buf)?;
        self.place = self.place.saturating_add(count as u64);
        Ok(count)
    }
}

/// The files that are read, each through one handle, which stays open: a name is one file's bytes to
/// the end, and the system gives the number of a file that was read to no other.
#[derive(Drop)]
pub struct Readers<'a> {
    names: Vec<u8>,
    all: Vec<Reader>,
    later: Option<&'a str>,
    ahead: Ahead,
}

impl<'a> Readers<'a> {
    /// None is read yet, and one may be later. The first files take no more memory, so many of them,
    /// with so many bytes of names.
    pub fn new(
        alloc: Global,
        files: usize,
        bytes: usize,
        later: Option<&'a str>,
    ) -> Result<Self, AllocError> {
        Ok(Readers {
            names: Vec::with_capacity(alloc, bytes)?,
            all: Vec::with_capacity(alloc, files)?,
            later,
            ahead: Ahead::new(alloc)?,
        })
    }

    /// Reads a file from a place on. Nothing is sought where its last read ended there. Of a regular
    /// file more may be read than is asked for, which the next reads then get.
    pub fn read<R: Files<File = File>>(
        &mut self,
        rt: &R,
        name: &str,
        from: u64,
        buf: &mut [u8],
    ) -> io::Result<usize>
        ensures { IfOk result (λ n. n ≤ length buf.new) }
    {
        let at = match place_of(self.names.as_slice(), self.all.as_slice(), name) {
            Some(at) => at,
            None => self.open(rt, name)?,
        };
        let count = self.ahead.take(at, from, buf);
        if 0 < count {
            return Ok(count);
        }
        let reader = &mut self.all[at];
        if reader.node.is_none() || PIECE <= buf.len() {
            return reader.read(from, buf);
        }
        let held = reader.read(from, self.ahead.room())?;
        self.ahead.keep(at, from, held);
        Ok(self.ahead.take(at, from, buf))
    }

    /// Whether a file is one of those that are read, or the one that may be later.
    pub fn has<R: Files>(&self, rt: &R, node: FileId) -> bool {
        if let Some(name) = self.later
            && FileId::at(rt, name) == Some(node)
        {
            return true;
        }
        self.all.iter().any(|reader| reader.node == Some(node))
    }

    // Opens a file, and gives its place among all.
    fn open<R: Files<File = File>>(&mut self, rt: &R, name: &str) -> io::Result<usize>
        ensures { IfOk result (λ at. at < vec_len self.new.all) }
    {
        let file = fs::open(rt, name)?;
        let node = FileId::of(&file.metadata()?);
        let start = self.names.len();
        self.names.extend_from_slice(name.as_bytes())?;
        let at = self.all.len();
        self.all.push(Reader {
            name: (start, self.names.len()),
            file,
            node,
            place: 0,
        })?;
        Ok(at)
    }
}

// The place of the reader of a name, the latest first.
fn place_of(names: &[u8], all: &[Reader], name: &str) -> Option<usize>
    ensures { IfSome result (λ at. at < length all.now) }
{
    for at in (0..all.len()).rev() {
        let (start, end) = all[at].name;
        if names.get(start..end) == Some(name.as_bytes()) {
            return Some(at);
        }
    }
    None
}

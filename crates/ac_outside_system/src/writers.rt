// The files of the system that are written.
ghost use Rattle.std.specs.Prelude.{◌<◌, IfOk, IfSome, length, vec_len};

use crate::node::FileId;
use crate::readers::Readers;
use std::alloc::Global;
use std::fs::{File, Files, Metadata, OpenOptions};
use std::io::{ErrorKind, Write};
use std::os::unix::fs::FileTypeExt;
use std::{fs, io};

// A file that is written.
#[derive(Drop)]
struct Writer {
    name: String,
    // None for a pipe to which nothing was sent.
    file: Option<File>,
}

impl Writer {
    // Empties it where it is a regular file.
    fn empty(&self) -> io::Result<()> {
        match &self.file {
            Some(file) if file.metadata()?.is_file() => file.set_len(0),
            Some(_) | None => Ok(()),
        }
    }

    // Adds bytes at the end, by one call of the system where it takes all of them.
    fn append<R: Files<File = File>>(&mut self, rt: &R, bytes: &[u8]) -> io::Result<()> {
        if self.file.is_none() {
            let pipe = OpenOptions::new().write(true).open(rt, self.name.as_str())?;
            self.file = Some(pipe);
        }
        match &mut self.file {
            Some(file) => file.write_all(bytes),
            None => Ok(()),
        }
    }
}

/// The files that are written, each through one handle, which holds a lock on it where it is a
/// regular file.
#[derive(Drop)]
pub struct Writers {
    alloc: Global,
    all: Vec<Writer>,
}

impl Writers {
    /// None is written yet.
    pub fn new(alloc: Global) -> Writers {
        Writers {
            alloc,
            all: Vec::new(alloc),
        }
    }

    /// Makes a file empty. One that is read, or that another process writes, stays as it is.
    pub fn create<R: Files<File = File>>(
        &mut self,
        rt: &R,
        name: &str,
        readers: &Readers<'_>,
    ) -> io::Result<()> {
        let at = self.place(rt, name, readers)?;
        self.all[at].empty()
    }

    /// Adds bytes at the end of a file, unless it is read or another process writes it.
    pub fn append<R: Files<File = File>>(
        &mut self,
        rt: &R,
        name: &str,
        bytes: &[u8],
        readers: &Readers<'_>,
    ) -> io::Result<()> {
        let at = self.place(rt, name, readers)?;
        self.all[at].append(rt, bytes)
    }

    // The place of the writer of a name among all. It is opened where there is none.
    fn place<R: Files<File = File>>(
        &mut self,
        rt: &R,
        name: &str,
        readers: &Readers<'_>,
    ) -> io::Result<usize>
        ensures { IfOk result (λ at. at < vec_len self.new.all) }
    {
        if let Some(at) = place_of(self.all.as_slice(), name) {
            return Ok(at);
        }
        let file = opened(rt, name, readers)?;
        let name = String::from_str(self.alloc, name)?;
        let at = self.all.len();
        self.all.push(Writer { name, file })?;
        Ok(at)
    }
}

// The place of the writer of a name.
fn place_of(all: &[Writer], name: &str) -> Option<usize>
    ensures { IfSome result (λ at. at < length all.now) }
{
    for (at, writer) in all.iter().enumerate() {
        if writer.name.as_str() == name {
            return Some(at);
        }
    }
    None
}

// Opens a file to write at its end, locks it where it is a regular one, and leaves its bytes. A pipe
// is left closed.
fn opened<R: Files<File = File>>(
    rt: &R,
    name: &str,
    readers: &Readers<'_>,
) -> io::Result<Option<File>> {
    if let Ok(told) = fs::metadata(rt, name) {
        if told.file_type().is_fifo() {
            return Ok(None);
        }
        refuse_read(rt, &told, readers)?;
    }
    let file = OpenOptions::new().append(true).create(true).open(rt, name)?;
    let told = file.metadata()?;
    refuse_read(rt, &told, readers)?;
    if told.is_file() {
        file.try_lock()?;
    }
    Ok(Some(file))
}

// Fails where the system tells of a file that is read.
fn refuse_read<R: Files>(rt: &R, told: &Metadata, readers: &Readers<'_>) -> io::Result<()> {
    match FileId::of(told) {
        Some(node) if readers.has(rt, node) => Err(io::Error::from(ErrorKind::ResourceBusy)),
        Some(_) | None => Ok(()),
    }
}

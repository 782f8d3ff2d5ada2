// Which file of the system a name leads to.

use std::fs;
use std::fs::{Files, Metadata};
use std::os::unix::fs::MetadataExt;

/// A regular file of the system, whatever names lead to it.
#[derive(Clone, Copy, PartialEq, Eq)]
pub struct FileId {
    device: u64,
    number: u64,
}

impl FileId {
    /// The regular file that the system tells of, if it is one.
    pub fn of(told: &Metadata) -> Option<FileId> {
        told.is_file().then_some(FileId {
            device: told.dev(),
            number: told.ino(),
        })
    }

    /// The regular file that a name leads to, if it leads to one.
    pub fn at<R: Files>(rt: &R, name: &str) -> Option<FileId> {
        match fs::metadata(rt, name) {
            Ok(told) => FileId::of(&told),
            Err(_) => None,
        }
    }
}

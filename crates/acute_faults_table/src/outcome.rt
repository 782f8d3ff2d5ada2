// What runs leave.

use crate::desk::Desk;
use crate::paced::PacedFiles;
use ac_text::Page;
use ac_types::{Memory, Text};
use std::alloc::Global;

/// How a run ended, and what then stood on its streams and in its files, which are alike in all
/// runs.
pub struct Outcome {
    end: Text,
    streams: Vec<Text>,
    files: Vec<Text>,
}

impl Drop for Outcome {
    fn drop(self) {
        let Outcome {
            end: _,
            streams: _,
            files: _,
        } = self;
    }
}

impl Outcome {
    /// An end with nothing on streams and without files.
    pub fn new(alloc: Global, end: Text) -> Outcome {
        Outcome {
            end,
            streams: Vec::new(alloc),
            files: Vec::new(alloc),
        }
    }

    /// Adds a stream.
    pub fn add_stream(&mut self, alloc: Global, bytes: &[u8]) -> Result<(), Memory> {
        self.streams.push(Text::from_slice(alloc, bytes)?)?;
        Ok(())
    }

    /// Adds what these files have now, in their order on the desk.
    pub fn add_files(
        &mut self,
        alloc: Global,
        desk: &Desk,
        files: &PacedFiles,
    ) -> Result<(), Memory> {
        for file in desk.files() {
            let bytes = match files.files.bytes(file.name.as_str()) {
                Some(text) => text.copy(alloc)?,
                None => Text::new(alloc),
            };
            self.files.push(bytes)?;
        }
        Ok(())
    }

    /// Whether both ended alike and left the same.
    pub fn is_same(&self, whole: &Outcome) -> bool {
        self.end.as_slice() == whole.end.as_slice()
            && are_same(&self.streams, &whole.streams)
            && are_same(&self.files, &whole.files)
    }

    // Whether each stream has a front of what the whole run leaves there, and each file has one or
    // is as it was.
    fn has_fronts(&self, desk: &Desk, whole: &Outcome) -> bool {
        for (one, all) in self.streams.iter().zip(whole.streams.iter()) {
            if !is_front(one, all) {
                return false;
            }
        }
        for (i, (one, all)) in self.files.iter().zip(whole.files.iter()).enumerate() {
            if !is_front(one, all) && !was_so(desk, i, one) {
                return false;
            }
        }
        true
    }

    /// How it ended, and that something isn't a front of what the whole run leaves.
    pub fn answer(&self, alloc: Global, desk: &Desk, whole: &Outcome) -> Result<Text, Memory> {
        let mut page = Page::new(alloc);
        page.put(self.end.as_slice());
        if !self.has_fronts(desk, whole) {
            page.put(b" no front");
        }
        text_on(alloc, &page)
    }
}

/// What stands on a page.
pub fn text_on(alloc: Global, page: &Page) -> Result<Text, Memory> {
    match page.bytes() {
        Some(bytes) => Text::from_slice(alloc, bytes),
        None => Err(Memory),
    }
}

fn is_front(one: &Text, all: &Text) -> bool {
    all.as_slice().starts_with(one.as_slice())
}

// Whether a file of the desk has these bytes.
fn was_so(desk: &Desk, i: usize, bytes: &Text) -> bool {
    match desk.files().get(i) {
        Some(file) => file.bytes.as_slice() == bytes.as_slice(),
        None => false,
    }
}

fn are_same(some: &[Text], others: &[Text]) -> bool {
    for (one, other) in some.iter().zip(others.iter()) {
        if one.as_slice() != other.as_slice() {
            return false;
        }
    }
    some.len() == others.len()
}

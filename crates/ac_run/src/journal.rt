// The journal of a run.

ghost use Rattle.std.specs.Prelude.{◌≡◌, [], ◌∷◌, OnOk, OnErr};
ghost use Rattle.ac_meaning.specs.Worlds.{Made, Read};
ghost use Rattle.ac_run.specs.inner.Notes.{HasTaken};

use crate::crossing::Crossing;
use ac_types::{Many, Memory, Text};
use std::alloc::Global;

/// The strings that crossed so far, in their order, where they are kept.
#[derive(Drop)]
pub struct Journal {
    keeps: bool,
    crossings: Many<Crossing>,
}

impl Journal {
    /// The empty journal, which is kept or not.
    pub fn new(alloc: Global, keeps: bool) -> Journal
        ensures keeps { result.keeps ≡ keeps }
        ensures empty { result.crossings ≡ [] }
    {
        Journal {
            keeps,
            crossings: Many::new(alloc),
        }
    }

    /// What it has.
    pub fn crossings(&self) -> &Many<Crossing>
        ensures { result.now ≡ self.now.crossings }
    {
        &self.crossings
    }

    /// Notes a string that `marshal` gave, of which it takes a copy if it is kept. An `Err` leaves
    /// the journal as it was.
    pub fn made(&mut self, alloc: Global, text: &Text) -> Result<(), Memory>
        ensures ok { OnOk result (HasTaken (Made text.now.0 ∷ []) self.old self.new) }
        ensures err { OnErr result (self.new ≡ self.old) }
    {
        if self.keeps {
            self.crossings.push(Crossing::Made(text.copy(alloc)?))?;
        }
        Ok(())
    }

    /// Notes a string that `unmarshal` read. An `Err` leaves the journal as it was.
    pub fn read(&mut self, text: Text) -> Result<(), Memory>
        ensures ok { OnOk result (HasTaken (Read text.0 ∷ []) self.old self.new) }
        ensures err { OnErr result (self.new ≡ self.old) }
    {
        if self.keeps {
            self.crossings.push(Crossing::Read(text))?;
        }
        Ok(())
    }
}

// Names with their texts.

ghost use Rattle.std.specs.Prelude.{◌≡◌, ◌<◌, ◌≤◌, ◌+◌, ◌^◌, ◌↔◌, ℕ, [], None, length, IfOk, OnErr, IsErrOf};
ghost use Rattle.ac_names.specs.Table.{number_of, Adds, Clashes, HasDistinctNames};

use ac_types::{Name, Text};
use indexmap::IndexMap;
use std::alloc::Global;
use std::marker::Model;

/// Why a name and its text are not added.
#[derive(Clone, Copy, Debug, PartialEq, Eq)]
pub enum AddFault {
    /// The name is known with another text, under that number.
    Clash { entry: u32 },
    /// Memory ran out.
    Memory,
}

/// Names with their texts, one text for a name. Contracts see a table as the list of both, in the
/// order in which they came; a name's number is its place there.
#[derive(Drop)]
pub struct NameTable {
    texts: IndexMap<[u8; 32], Text>,
}

impl Model for NameTable {
    ghost use Rattle.std.specs.Prelude.{map};
    ghost use Rattle.ac_names.specs.Table.{KnownNames};

    ghost Value = { KnownNames };

    ghost view = { λ t. map (λ e. (e.0, e.1.0)) t.texts.entries };
}

impl NameTable {
    /// The empty table, which takes no memory.
    pub fn new(alloc: Global) -> NameTable
        ensures { result ≡ [] }
    {
        NameTable {
            texts: IndexMap::new(alloc),
        }
    }

    /// The number of a name with this text, known or new. An `Err` leaves the table as it was.
    pub fn add(&mut self, name: Name, text: Text) -> Result<u32, AddFault>
        requires { length self.old + 1 < 2 ^ 32 }
        ensures ok { IfOk result (λ number. Adds self.old name.0 text.0 number self.new) }
        ensures clash { (number : ℕ) → IsErrOf result (AddFault.Clash number) ↔
            Clashes self.old name.0 text.0 number }
        ensures length { length self.new ≤ length self.old + 1 }
        ensures memory { IsErrOf result AddFault.Memory → number_of self.old name.0 ≡ None }
        ensures err { OnErr result (self.new ≡ self.old) }
    {
        if let Some((number, _, kept)) = self.texts.get_full(&name.0) {
            let entry = number as u32;
            if kept.as_slice() == text.as_slice() {
                return Ok(entry);
            }
            return Err(AddFault::Clash { entry });
        }
        let number = self.texts.len();
        match self.texts.insert(name.0, text) {
            Ok(_) => Ok(number as u32),
            Err(_) => Err(AddFault::Memory),
        }
    }

    /// The number of a name, `None` exactly where it is not known. It takes no memory.
    pub fn find(&self, name: &Name) -> Option<u32>
        requires { length self.now < 2 ^ 32 }
        ensures { result ≡ number_of self.now name.now.0 }
    {
        match self.texts.get_index_of(&name.0) {
            None => None,
            Some(number) => Some(number as u32),
        }
    }

    /// No two numbers have one name.
    pub fn names_are_distinct(&self)
        ensures { HasDistinctNames self.now }
    {
        // for the proof alone, to which it says that the names differ
        let _unique = self.texts.len();
    }
}

// What a scan knows of the scope where it stands.

ghost use Rattle.std.specs.Prelude.{◌≡◌, OnOk};
ghost use Rattle.ac_resolve_signatures.specs.KnownScopes.{known_outside, with_size, with_named_field};
ghost use Rattle.ac_resolve_signatures.specs.Reads.{known_in, externals_of};

use crate::outside::{Externals, Sizes, Words, has, insert_word, put_size};
use crate::size::Size;
use ac_types::{Memory, Word};
use std::alloc::Global;
use std::collections::{BTreeMap, BTreeSet};

/// What is known of a scope but for its variables.
#[derive(Drop)]
pub struct Scan<'e, 'a> {
    /// The definitions in front.
    pub externals: &'e Externals<'a>,
    /// The types with a plain name.
    pub types: Sizes<'a>,
    /// The fields with a plain name.
    pub fields: Words<'a>,
}

impl<'e, 'a> Scan<'e, 'a> {
    /// Where a signature, a struct, a likespec or an expression begins.
    pub fn new(alloc: Global, externals: &'e Externals<'a>) -> Scan<'e, 'a>
        ensures { known_in result ≡ known_outside (externals_of externals.now) }
    {
        Scan {
            externals,
            types: BTreeMap::new(alloc),
            fields: BTreeSet::new(alloc),
        }
    }

    /// Behind a type of this name and size.
    pub fn put_type(&mut self, word: &'a Word, size: Size) -> Result<(), Memory>
        ensures { OnOk result (known_in self.new ≡ with_size word.now size (known_in self.old)) }
    {
        put_size(&mut self.types, word, size)
    }

    /// Behind a field of this name.
    pub fn put_field(&mut self, word: &'a Word) -> Result<(), Memory>
        ensures { OnOk result (known_in self.new ≡ with_named_field word.now (known_in self.old)) }
    {
        insert_word(&mut self.fields, word)
    }

    /// Whether a field has this name.
    pub fn has_field(&self, word: &'a Word) -> bool
        ensures { result ≡ (known_in self.now).fields word.now }
    {
        has(&self.fields, word)
    }
}

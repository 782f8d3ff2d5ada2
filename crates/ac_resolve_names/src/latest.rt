// Names with what they mean, of two that are equal the later.

ghost use Rattle.std.specs.Prelude.{◌≡◌, ◌∷◌, [], map, IfOk};
ghost use Rattle.std.specs.Option.{option_copied};
ghost use Rattle.ac_resolve_scopes.specs.Standard.{beside_name};
ghost use Rattle.ac_resolve_scopes.specs.Scopes.{own_number};
ghost use Rattle.ac_resolve_names.specs.inner.Places.{word_of};

use ac_types::{Many, Memory, Word};
use std::alloc::Global;
use std::collections::BTreeMap;
use std::marker::Model;

/// Names with what they mean. Contracts see them as a list, the latest first.
#[derive(Drop)]
pub struct Latest<T> {
    items: Many<(Word, T)>,
    places: BTreeMap<Vec<u8>, usize>,
}

impl<T> Model for Latest<T> {
    ghost use Rattle.std.specs.Prelude.{List};
    ghost use Rattle.ac_types.specs.Types.{Bytes};
    ghost use Rattle.ac_resolve_names.specs.inner.Places.{Places, backwards};

    ghost Value = { List (Bytes × T) };

    ghost view = { λ l. backwards l.items };

    ghost invariant = { λ l. Places l.places (backwards l.items) };
}

impl<T> Latest<T> {
    /// No names, which takes no memory.
    pub fn new(alloc: Global) -> Latest<T>
        ensures { result ≡ [] }
    {
        Latest {
            items: Many::new(alloc),
            places: BTreeMap::new(alloc),
        }
    }

    /// What a name means, `None` exactly where it isn't there.
    pub fn find(&self, name: &Word) -> Option<&T>
        ensures { option_copied result ≡ beside_name name.now self.now }
    {
        let place = self.place(name)?;
        let (_, means) = self.items.get(place)?;
        Some(means)
    }

    /// How many names came before the latest of this one, `None` exactly where it isn't there.
    pub fn place(&self, name: &Word) -> Option<usize>
        ensures { result ≡ own_number name.now (map word_of self.now) }
    {
        self.places.get(name.text().as_slice()).copied()
    }
}

impl<T: Drop> Latest<T> {
    /// These names and one more.
    pub fn with(self, alloc: Global, name: &Word, means: T) -> Result<Latest<T>, Memory>
        ensures { IfOk result (λ l. l ≡ (name.now, means) ∷ self) }
    {
        let Latest { items, places } = self;
        let mut items = items;
        let mut places = places;
        let key = Vec::from_slice(alloc, name.text().as_slice())?;
        let place = items.len();
        items.push((name.copy(alloc)?, means))?;
        places.insert(key, place)?;
        Ok(Latest { items, places })
    }
}

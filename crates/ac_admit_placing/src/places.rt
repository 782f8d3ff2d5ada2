// Where definitions are placed.

ghost use Rattle.std.specs.Prelude.{◌≡◌, not, true, map};
ghost use Rattle.std.specs.List.{list_any};
ghost use Rattle.ac_terms.specs.Parts.{part_refs, def_parts};
ghost use Rattle.ac_terms.specs.Defs.{AModule};
ghost use Rattle.ac_terms.specs.Read.{module_of_code};
ghost use Rattle.ac_rules.specs.Packets.{is_unresolved};
ghost use Rattle.ac_admit_placing.specs.inner.Open.{place_of, passes_resolved};

use ac_terms::{Home, Module};
use ac_terms_renumber::{Test, module_passes};
use ac_types::{Ty, Word};

/// Where a definition of a packet is placed.
#[derive(Clone, Copy, Debug, PartialEq, Eq)]
pub struct Place {
    /// The entry that stands for it, `None` for an import by exact name without a link.
    pub at: Option<u32>,
    /// Whether it is an import without a link.
    pub unresolved: bool,
}

// The test that a reference goes to no import without a link.
#[derive(Clone, Copy)]
struct Resolved<'a> {
    places: &'a [Place],
}

impl<'a> Test for Resolved<'a> {
    ghost passes = { λ s p. passes_resolved (map place_of s.places.now) p };

    fn passes_type(&self, _ty: &Ty) -> bool {
        true
    }

    #[tactic(auto, using(crate::proofs::OpenLaws::place_at))]
    fn passes_reference(&self, entry: u32, _field: &Word) -> bool {
        match self.places.get(entry as usize) {
            None => false,
            Some(place) => !place.unresolved,
        }
    }

    fn passes_home(&self, _home: Home) -> bool {
        true
    }

    fn passes_captured(&self) -> bool {
        true
    }
}

/// Whether a module refers to no import without a link.
pub fn is_resolved(places: &[Place], m: &Module) -> bool
    ensures { result ≡ not (list_any (is_unresolved (map place_of places.now))
        (part_refs (def_parts (AModule (module_of_code m.now))))) }
{
    module_passes(m, &Resolved { places })
}

//! What callers of elaboration need.

ghost use Rattle.std.specs.Prelude.{◌≡◌, ◌<◌, ℕ, length, IsTrue};
ghost use Rattle.std.specs.List.{list_all};
ghost use Rattle.ac_terms.specs.Defs.{Environment, name_at};
ghost use Rattle.ac_terms.specs.Names.{name_of_entry};
ghost use Rattle.ac_resolve_names.specs.Entries.{keeps_name};

/// Entries with the names that their definitions have keep names.
pub fn named_entries_keep()
    ensures { (E : Environment) → ((i : ℕ) → i < length E → name_at E i ≡ name_of_entry E i) →
        IsTrue (list_all keeps_name E) }
{}

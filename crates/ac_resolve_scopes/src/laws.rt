//! What holds of the entries and the term of every surface.

ghost use Rattle.std.specs.Prelude.{◌≡◌, List, ◌++◌, length, IsTrue};
ghost use Rattle.ac_types.specs.Types.{Bytes};
ghost use Rattle.ac_terms.specs.Defs.{Environment, Entry};
ghost use Rattle.ac_terms.specs.Parts.{term_parts};
ghost use Rattle.ac_syntax.specs.Trees.{ProgramTree};
ghost use Rattle.ac_resolve_scopes.specs.Surfaces.{surface_entries, surface_main};
ghost use Rattle.ac_resolve_scopes.specs.Added.{refer_into, AreAdded};

/// A surface adds one entry for each definition, in their order, behind those in front: each is own
/// and not linked, keeps its name, and refers to entries in front of it alone.
pub fn adds_entries()
    ensures { (digest : Bytes → Bytes) (E : Environment) (p : ProgramTree) →
        (added : List Entry) × (surface_entries digest E p ≡ E ++ added) ×
        (length added ≡ length p.defs) × AreAdded digest E added }
{}

/// The term of its expression refers to these entries alone.
pub fn term_refers()
    ensures { (digest : Bytes → Bytes) (E : Environment) (p : ProgramTree) →
        IsTrue (refer_into (surface_entries digest E p) (term_parts (surface_main digest E p))) }
{}

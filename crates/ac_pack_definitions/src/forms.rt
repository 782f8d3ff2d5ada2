// The form in which an entry travels.

ghost use Rattle.std.specs.Prelude.{◌≡◌, ◌++◌, ◌∷◌, ℕ, nat_le, map, OnOk, IfOk};
ghost use Rattle.std.specs.List.{list_all};
ghost use Rattle.ac_types.specs.Limits.{deepest_nesting};
ghost use Rattle.ac_types.specs.Sigs.{HereAlready};
ghost use Rattle.ac_types.specs.ReadTypes.{resolve_of};
ghost use Rattle.ac_terms.specs.Defs.{Field as FieldOf, AModule, AnImport};
ghost use Rattle.ac_terms.specs.Nesting.{nesting};
ghost use Rattle.ac_terms.specs.Bounds.{nests_little};
ghost use Rattle.ac_terms.specs.Read.{entry_of, field_of, seen_of, module_of_code, import_of_code};
ghost use Rattle.ac_terms.specs.Renumbered.{def_renumbered};
ghost use Rattle.ac_terms.specs.Spelling.{def_bytes};
ghost use Rattle.ac_rules.specs.Needed.{cut, form_of, uri_atoms};
ghost use Rattle.ac_terms_renumber.specs.Numbers.{number_for};

use crate::nesting::term_nests;
use ac_bytes::Out;
use ac_canon::{ByNumber, put_import, put_module, put_resolves};
use ac_terms::{Def, Entry, Field, Import, Module, Seen};
use ac_terms_renumber::module_renumbered;
use ac_types::limits::DEEPEST_NESTING;
use ac_types::{Constraint, Many, Memory, Name, Resolve, Text, both};
use std::alloc::Global;

/// Whether the form of an entry nests little. It stands before the mark or not.
pub fn form_nests(entry: &Entry, before: bool) -> bool
    ensures { let e = entry_of entry.now in result ≡ nests_little
        (form_of e.def e.name e.seen before) }
{
    match &entry.def {
        Def::Module(m) => match &entry.name {
            None => fields_nest(m.fields.as_slice()),
            Some(_) => before | fields_nest(m.fields.as_slice()),
        },
        Def::Import(_) => true,
        Def::Mark(_) => true,
    }
}

// Whether the terms of some fields nest little.
fn fields_nest(fields: &[Field]) -> bool
    ensures { result ≡ list_all (λ (n : ℕ). nat_le n deepest_nesting)
        (map (λ (f : FieldOf). nesting f.term) (map field_of fields.now)) }
{
    for field in fields {
        if !term_nests(&field.term, DEEPEST_NESTING) {
            return false;
        }
    }
    true
}

/// The bytes of the form of an entry, where each definition that it speaks of is written by its
/// number. It stands before the mark or not.
pub fn form_bytes(
    alloc: Global,
    entry: &Entry,
    before: bool,
    numbers: &[u32],
) -> Result<Text, Memory>
    ensures { let e = entry_of entry.now in IfOk result (λ text. text.0 ≡
        def_bytes (def_renumbered (number_for numbers.now) (form_of e.def e.name e.seen before))) }
{
    let mut out = Out::new(alloc);
    put_form(alloc, &mut out, entry, before, numbers)?;
    Ok(out.into_text())
}

// Puts the form of an entry.
#[tactic(auto, using(ac_canon::proofs::Lists::lists))]
fn put_form(
    alloc: Global,
    out: &mut Out,
    entry: &Entry,
    before: bool,
    numbers: &[u32],
) -> Result<(), Memory>
    ensures { let e = entry_of entry.now in OnOk result (out.new ≡ out.old ++
        def_bytes (def_renumbered (number_for numbers.now) (form_of e.def e.name e.seen before))) }
{
    match &entry.def {
        Def::Module(m) => match &entry.name {
            None => put_whole(alloc, out, m, numbers),
            Some(name) => {
                if before {
                    put_cut(alloc, out, m, name, &entry.seen)
                } else {
                    put_whole(alloc, out, m, numbers)
                }
            }
        },
        Def::Import(i) => put_asked(out, i),
        Def::Mark(_) => Ok(()),
    }
}

// Puts a module whose text travels.
#[tactic(auto, using(ac_canon::proofs::Lists::lists))]
fn put_whole(alloc: Global, out: &mut Out, m: &Module, numbers: &[u32]) -> Result<(), Memory>
    ensures { OnOk result (out.new ≡ out.old ++
        def_bytes (def_renumbered (number_for numbers.now) (AModule (module_of_code m.now)))) }
{
    let moved = module_renumbered(alloc, m, numbers)?;
    put_module(out, &ByNumber, &moved)
}

// Puts an import.
#[tactic(auto, using(ac_canon::proofs::Lists::lists))]
fn put_asked(out: &mut Out, i: &Import) -> Result<(), Memory>
    ensures { OnOk result (out.new ≡ out.old ++ def_bytes (AnImport (import_of_code i.now))) }
{
    put_import(out, &ByNumber, i)?;
    put_resolves(out, i.by.as_slice())
}

// Puts a module that is cut to an import by its exact name.
#[tactic(auto, using(ac_canon::proofs::Lists::lists))]
fn put_cut(alloc: Global, out: &mut Out, m: &Module, name: &Name, seen: &Seen) -> Result<(), Memory>
    ensures { OnOk result (out.new ≡ out.old ++
        def_bytes (cut (module_of_code m.now) name.now.0 (seen_of seen.now))) }
{
    let import = cut_import(alloc, m, name, seen)?;
    put_asked(out, &import)
}

// The import by exact name that a module is cut to: it is looked for after what is there.
fn cut_import(alloc: Global, m: &Module, name: &Name, seen: &Seen) -> Result<Import, Memory>
    ensures { IfOk result (λ i. AnImport (import_of_code i) ≡
        cut (module_of_code m.now) name.now.0 (seen_of seen.now)) }
{
    let by = places(alloc, seen)?;
    let (external, sig) = both(m.name.copy(alloc), m.sig.copy(alloc))?;
    Ok(Import {
        name: external,
        sig,
        constraint: Constraint::Exact(*name),
        like: Many::new(alloc),
        by,
    })
}

// Where a cut module is looked for.
fn places(alloc: Global, seen: &Seen) -> Result<Many<Resolve>, Memory>
    ensures { IfOk result (λ by. map resolve_of by ≡ HereAlready ∷ uri_atoms (seen_of seen.now)) }
{
    let mut by = Many::new(alloc);
    by.push(Resolve::HereAlready)?;
    match seen {
        Seen::Own => {}
        Seen::Shelf(uri) => {
            let uri = uri.copy(alloc)?;
            by.push(Resolve::Uri(uri))?;
        }
        Seen::Arrived => {}
    }
    Ok(by)
}

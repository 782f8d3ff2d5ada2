// What is noted of an entry, for those who look for a name or for an abstract type of a name.

ghost use Rattle.std.specs.Prelude.{◌≡◌, ◌≢◌, ◌&&◌, ◌++◌, Some, map, length, is_none, OnOk, OnErr};
ghost use Rattle.std.specs.List.{list_any};
ghost use Rattle.std.specs.Option.{option_or};
ghost use Rattle.ac_types.specs.Types.{Bytes, same_bytes};
ghost use Rattle.ac_types.specs.Sigs.{is_abstract, type_under};
ghost use Rattle.ac_types.specs.Partial.{given};
ghost use Rattle.ac_types.specs.ReadTypes.{sig_type_of};
ghost use Rattle.ac_index.specs.Noted.{first_under, forgetting};
ghost use Rattle.ac_terms.specs.Read.{def_of_code, entry_of};
ghost use Rattle.ac_terms.specs.inner.LookUps.{AreBefore, AreNoted, AreForgotten, AreKept, has_type, has_abstract, spec_noted};

use crate::def::{Def, Entry};
use ac_index::{Firsts, NamedWord};
use ac_types::{Memory, Name, SigType};
use std::alloc::Global;

/// The number of the first entry that keeps a name.
pub type KeptNames = Firsts<[u8; 32]>;

/// The number of the first entry of a name that has an abstract type in its signature.
pub type DeclaredTypes = Firsts<Vec<u8>>;

/// Notes an entry's number, where no entry has it. An `Err` leaves both look-ups as they were.
pub fn note_entry(
    alloc: Global,
    names: &mut KeptNames,
    types: &mut DeclaredTypes,
    entry: &Entry,
    number: usize,
) -> Result<(), Memory>
    requires { AreBefore number names.old types.old }
    ensures ok { OnOk result (AreNoted number (entry_of entry.now) names.old types.old names.new
        types.new) }
    ensures err { OnErr result (AreKept names.old types.old names.new types.new) }
{
    let Some(name) = &entry.name else {
        return Ok(());
    };
    names.note(name.0, number)?;
    match note_def(alloc, types, name, &entry.def, number) {
        Ok(()) => Ok(()),
        Err(memory) => {
            names.forget(&name.0, number);
            Err(memory)
        }
    }
}

/// Forgets an entry's number. It takes no memory.
pub fn forget_entry(names: &mut KeptNames, types: &mut DeclaredTypes, entry: &Entry, number: usize)
    ensures { AreForgotten number (entry_of entry.now) names.old types.old names.new types.new }
{
    if let Some(name) = &entry.name {
        names.forget(&name.0, number);
        forget_def(types, name, &entry.def, number);
    }
}

// Notes the abstract types of a definition's signature.
fn note_def(
    alloc: Global,
    types: &mut DeclaredTypes,
    name: &Name,
    def: &Def,
    number: usize,
) -> Result<(), Memory>
    requires { (n : Bytes) (t : Bytes) → length n ≡ 32 →
        first_under types.old (n ++ t) ≢ Some number }
    ensures ok { OnOk result ((n : Bytes) (t : Bytes) → length n ≡ 32 →
        first_under types.new (n ++ t) ≡ option_or (first_under types.old (n ++ t)) (given
        (same_bytes name.now.0 n && has_abstract t (def_of_code def.now)) (Some number))) }
    ensures err { OnErr result ((n : Bytes) (t : Bytes) → length n ≡ 32 →
        first_under types.new (n ++ t) ≡ first_under types.old (n ++ t)) }
{
    match def {
        Def::Module(m) => note_types(alloc, types, name, m.sig.types.as_slice(), number),
        Def::Import(i) => note_types(alloc, types, name, i.sig.types.as_slice(), number),
        Def::Mark(_) => Ok(()),
    }
}

// Forgets the types of a definition's signature.
fn forget_def(types: &mut DeclaredTypes, name: &Name, def: &Def, number: usize)
    ensures { (n : Bytes) (t : Bytes) → length n ≡ 32 → first_under types.new (n ++ t) ≡
        forgetting (same_bytes name.now.0 n && has_type t (def_of_code def.now)) number
        (first_under types.old (n ++ t)) }
{
    match def {
        Def::Module(m) => forget_types(types, name, m.sig.types.as_slice(), number),
        Def::Import(i) => forget_types(types, name, i.sig.types.as_slice(), number),
        Def::Mark(_) => {}
    }
}

// Notes the abstract types among those of a signature. The first of a word counts, so the last
// comes first.
fn note_types(
    alloc: Global,
    types: &mut DeclaredTypes,
    name: &Name,
    specs: &[SigType],
    number: usize,
) -> Result<(), Memory>
    requires { (n : Bytes) (t : Bytes) → length n ≡ 32 →
        first_under types.old (n ++ t) ≢ Some number }
    ensures ok { OnOk result ((n : Bytes) (t : Bytes) → length n ≡ 32 →
        first_under types.new (n ++ t) ≡ option_or (first_under types.old (n ++ t)) (given
        (same_bytes name.now.0 n && is_abstract (type_under t (map sig_type_of specs.now)))
        (Some number))) }
    ensures err { OnErr result ((n : Bytes) (t : Bytes) → length n ≡ 32 →
        first_under types.new (n ++ t) ≡ first_under types.old (n ++ t)) }
{
    let mut left = specs.len();
    while left > 0 {
        left -= 1;
        match note_type(alloc, types, name, &specs[left], number) {
            Ok(()) => {}
            Err(memory) => {
                forget_types(types, name, specs, number);
                return Err(memory);
            }
        }
    }
    Ok(())
}

// Notes a type of a signature where it is abstract, and else forgets it.
fn note_type(
    alloc: Global,
    types: &mut DeclaredTypes,
    name: &Name,
    spec: &SigType,
    number: usize,
) -> Result<(), Memory>
    ensures name { length name.now.0 ≡ 32 }
    ensures ok { OnOk result ((k : Bytes) → first_under types.new k ≡ spec_noted
        (is_none spec.now.manifest) (same_bytes (name.now.0 ++ spec.now.name) k) number
        (first_under types.old k)) }
    ensures err { OnErr result (types.new ≡ types.old) }
{
    let key = NamedWord::new(name, &spec.name);
    match &spec.manifest {
        None => types.note(key.to_vec(alloc)?, number),
        Some(_) => {
            types.forget(key.as_slice(), number);
            Ok(())
        }
    }
}

// Forgets the types of a signature.
fn forget_types(types: &mut DeclaredTypes, name: &Name, specs: &[SigType], number: usize)
    ensures { (n : Bytes) (t : Bytes) → length n ≡ 32 → first_under types.new (n ++ t) ≡
        forgetting (same_bytes name.now.0 n && list_any (λ s. same_bytes s.name t)
        (map sig_type_of specs.now)) number (first_under types.old (n ++ t)) }
{
    for spec in specs {
        let key = NamedWord::new(name, &spec.name);
        types.forget(key.as_slice(), number);
    }
}

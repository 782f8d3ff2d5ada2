// What an entry shows from outside.

ghost use Rattle.std.specs.Prelude.{◌≡◌, is_some, option_map, unwrap_or, IfOk, IsTrue};
ghost use Rattle.std.specs.Option.{option_copied};
ghost use Rattle.ac_types.specs.Types.{TAbs, TMine, with_mine};
ghost use Rattle.ac_types.specs.Sigs.{named_type, type_under};
ghost use Rattle.ac_types.specs.ReadTypes.{typ_of, sig_of};
ghost use Rattle.ac_terms.specs.Defs.{signature};
ghost use Rattle.ac_terms.specs.Read.{def_of_code, entry_of};
ghost use Rattle.ac_resolve_names.specs.inner.Shown.{entry_type, entry_value};
ghost use Rattle.ac_resolve_names.specs.Entries.{keeps_name};

use crate::sealed::sealed;
use ac_terms::{Def, Entry};
use ac_types::{Memory, Name, Sig, Ty, Word, spec_named, type_named};
use std::alloc::Global;

/// The type of that name, as an entry shows it, `None` exactly where it shows none.
pub fn type_outside(alloc: Global, entry: &Entry, t: &Word) -> Result<Option<Ty>, Memory>
    requires { IsTrue (keeps_name (entry_of entry.now)) }
    ensures { IfOk result (λ o. option_map typ_of o ≡ entry_type t.now (entry_of entry.now)) }
{
    match signature(&entry.def) {
        None => Ok(None),
        Some(sig) => match &entry.name {
            None => Ok(None),
            Some(name) => spec_outside(alloc, sig, name, t),
        },
    }
}

// A type of a signature, from outside: its manifest type, or it is abstract.
#[tactic(auto, using(ac_types::proofs::SizeLaws::type_laws))]
fn spec_outside(alloc: Global, sig: &Sig, name: &Name, t: &Word) -> Result<Option<Ty>, Memory>
    ensures { IfOk result (λ o. option_map typ_of o ≡
        option_map (λ m. with_mine (TAbs name.now.0) (unwrap_or m (TMine t.now)))
        (type_under t.now (sig_of sig.now).types)) }
{
    match spec_named(sig.types.as_slice(), t) {
        None => Ok(None),
        Some(spec) => match &spec.manifest {
            None => t.copy(alloc).map(|word| Some(Ty::Abs(*name, word))),
            Some(ty) => sealed(alloc, ty, name).map(Some),
        },
    }
}

/// Whether an entry shows a value of that name.
pub fn has_value(entry: &Entry, x: &Word) -> bool
    ensures { result ≡ is_some (entry_value x.now (entry_of entry.now)) }
{
    match signature(&entry.def) {
        None => false,
        Some(sig) => type_named(sig.vals.as_slice(), x).is_some(),
    }
}

// The signature of a definition, which a mark has none of.
fn signature(def: &Def) -> Option<&Sig>
    ensures { option_map sig_of (option_copied result) ≡ signature (def_of_code def.now) }
{
    match def {
        Def::Module(module) => Some(&module.sig),
        Def::Import(import) => Some(&import.sig),
        Def::Mark(_) => None,
    }
}

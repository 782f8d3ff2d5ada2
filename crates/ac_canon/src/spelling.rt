// How types and references are spelled.

ghost use Rattle.std.specs.Prelude.{◌≡◌, ◌++◌, ℕ, OnOk};
ghost use Rattle.ac_types.specs.Types.{Bytes, Typ};
ghost use Rattle.ac_types.specs.ReadTypes.{typ_of};
ghost use Rattle.ac_terms.specs.Read.{environment_of};
ghost use Rattle.ac_terms.specs.Spelling.{type_bytes};
ghost use Rattle.ac_canon.specs.Canon.{kept};

use crate::types::put_type;
use ac_bytes::Out;
use ac_terms::Env;
use ac_types::{Memory, Ty};

/// How types and references to definitions are spelled.
pub trait Spelling {
    /// The bytes of a type.
    ghost spelled_type: { Self → Typ → Bytes };

    /// The bytes of a reference to the definition of that number.
    ghost spelled_reference: { Self → ℕ → Bytes };

    /// Puts a type.
    fn put_type(&self, out: &mut Out, ty: &Ty) -> Result<(), Memory>
        ensures { OnOk result (out.new ≡ out.old ++ spelled_type self.now (typ_of ty.now)) };

    /// Puts a reference to the definition of that number.
    fn put_reference(&self, out: &mut Out, entry: u32) -> Result<(), Memory>
        ensures { OnOk result (out.new ≡ out.old ++ spelled_reference self.now entry) };
}

/// The spelling of canonical texts: types in full, and a reference by the name that its entry
/// keeps, by nothing where it keeps none.
#[derive(Clone, Copy)]
pub struct ByName<'a> {
    /// The entries.
    pub env: &'a Env,
}

impl<'a> Spelling for ByName<'a> {
    ghost spelled_type = { λ _ T. type_bytes T };

    ghost spelled_reference = { λ s j. kept (environment_of s.env.now) j };

    fn put_type(&self, out: &mut Out, ty: &Ty) -> Result<(), Memory> {
        put_type(out, ty)
    }

    fn put_reference(&self, out: &mut Out, entry: u32) -> Result<(), Memory> {
        put_name(out, self.env, entry)
    }
}

// Puts the name that an entry keeps, and nothing where it keeps none.
#[tactic(auto, using(crate::proofs::EntryForms::entry_forms))]
fn put_name(out: &mut Out, env: &Env, entry: u32) -> Result<(), Memory>
    ensures { OnOk result (out.new ≡ out.old ++ kept (environment_of env.now) entry) }
{
    let Some(found) = env.entry(entry) else {
        return Ok(());
    };
    match &found.name {
        None => Ok(()),
        Some(name) => out.put_bytes(name.0.as_slice()),
    }
}

// Whether a definition speaks of earlier definitions alone, and of small types.

ghost use Rattle.std.specs.Prelude.{◌≡◌, is_some};
ghost use Rattle.std.specs.List.{list_all};
ghost use Rattle.ac_terms.specs.Defs.{signature_at};
ghost use Rattle.ac_terms.specs.Parts.{def_parts};
ghost use Rattle.ac_terms.specs.Read.{environment_of, def_of_code};
ghost use Rattle.ac_admit_formed.specs.inner.Back.{passes_back};

use crate::known::are_known_before;
use ac_terms::{Def, Env, Home};
use ac_terms_renumber::{Test, import_passes, module_passes};
use ac_types::{Ty, Word, small};

// The test of the parts of definition `below`: references go to earlier definitions that have a
// signature, abstract types that are mentioned are of earlier ones, types are small, and no
// captured value stands there.
#[derive(Clone, Copy)]
struct Back<'a> {
    env: &'a Env,
    below: u32,
}

impl<'a> Test for Back<'a> {
    ghost passes = { λ s p. passes_back (environment_of s.env.now) s.below p };

    fn passes_type(&self, ty: &Ty) -> bool {
        // `&`, not `&&`: one branch fewer in the proof
        small(ty) & are_known_before(ty, self.env, self.below as usize)
    }

    fn passes_reference(&self, entry: u32, _field: &Word) -> bool {
        // `&`, not `&&`: one branch fewer in the proof
        (entry < self.below) & has_sig(self.env, entry)
    }

    fn passes_home(&self, _home: Home) -> bool {
        true
    }

    fn passes_captured(&self) -> bool {
        false
    }
}

// Whether an entry is there and has a signature: is no mark.
#[tactic(auto, using(ac_terms::proofs::EnvLaws::env_laws))]
fn has_sig(env: &Env, i: u32) -> bool
    ensures { result ≡ is_some (signature_at (environment_of env.now) i) }
{
    match env.entry(i) {
        None => false,
        Some(entry) => match &entry.def {
            Def::Module(_) => true,
            Def::Import(_) => true,
            Def::Mark(_) => false,
        },
    }
}

/// Whether the parts of definition `below` pass that test.
pub fn speaks_back(env: &Env, below: u32, def: &Def) -> bool
    ensures { result ≡ list_all (passes_back (environment_of env.now) below)
        (def_parts (def_of_code def.now)) }
{
    let test = Back { env, below };
    match def {
        Def::Module(m) => module_passes(m, &test),
        Def::Import(i) => import_passes(i, &test),
        Def::Mark(_) => true,
    }
}

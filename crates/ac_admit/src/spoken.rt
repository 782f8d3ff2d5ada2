// Whether a packet's type and value speak of its definitions alone.

ghost use Rattle.std.specs.Prelude.{◌≡◌};
ghost use Rattle.ac_terms.specs.Read.{environment_of, packet_of};
ghost use Rattle.ac_admit.specs.inner.Spoken.{passes_there, home_passes, defs_of, spoken_in};

use ac_admit_formed::are_known_among;
use ac_terms::{Def, Env, Home, Packet};
use ac_terms_renumber::{Test, value_passes};
use ac_types::{Constraint, Ty, Word};

// The test of the parts of a packet's value: abstract types and references are of its definitions,
// and homes are of those that may be.
#[derive(Clone, Copy)]
struct There<'a> {
    alone: &'a Env,
}

impl<'a> Test for There<'a> {
    ghost passes = { λ s p. passes_there (environment_of s.alone.now) p };

    fn passes_type(&self, ty: &Ty) -> bool {
        are_known_among(ty, self.alone)
    }

    fn passes_reference(&self, entry: u32, _field: &Word) -> bool {
        (entry as usize) < self.alone.len()
    }

    fn passes_home(&self, home: Home) -> bool {
        match home {
            Home::Main => true,
            Home::In(k) => may_be_home(self.alone, k),
        }
    }

    fn passes_captured(&self) -> bool {
        true
    }
}

// Whether a definition is a module, or an import by exact name.
#[tactic(auto, using(ac_terms::proofs::EnvLaws::env_laws))]
fn may_be_home(alone: &Env, k: u32) -> bool
    ensures { result ≡ home_passes (environment_of alone.now) k }
{
    match alone.entry(k) {
        None => false,
        Some(entry) => match &entry.def {
            Def::Module(_) => true,
            Def::Import(i) => match &i.constraint {
                Constraint::Ranges { atoms: _, star: _ } => false,
                Constraint::Exact(_) => true,
            },
            Def::Mark(_) => false,
        },
    }
}

/// Whether a packet's type and value speak of its definitions alone, and no home is an import by
/// version. `alone` are the definitions by themselves.
#[tactic(auto, using(crate::proofs::SpokenLaws::spoken))]
pub fn speaks_of_its_own(alone: &Env, p: &Packet) -> bool
    ensures { result ≡ spoken_in (environment_of alone.now) (defs_of (environment_of alone.now))
        (packet_of p.now) }
{
    // `&`, not `&&`: one branch fewer in the proof
    are_known_among(&p.ty, alone) & value_passes(&p.value, &There { alone })
}

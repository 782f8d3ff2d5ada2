// Which strings the chain made.

ghost use Rattle.std.specs.Prelude.{◌≡◌, ◌∷◌, List, OnOk, IfOk};
ghost use Rattle.ac_types.specs.Types.{Bytes};
ghost use Rattle.ac_chain.specs.inner.Made.{has_string, Has, NativeBy, MadeBy};

use ac_run::Crossing;
use ac_types::{Many, Memory, Text};
use std::alloc::Global;
use std::collections::BTreeSet;

/// The strings that marshal gave so far.
pub type Made = BTreeSet<Vec<u8>>;

/// For each string of a journal that was read, in order, whether it was made before; those of the
/// journal that were made are added.
pub fn natives(alloc: Global, journal: &[Crossing], made: &mut Made) -> Result<Many<bool>, Memory>
    ensures native { IfOk result (λ native. NativeBy made.old journal.now native) }
    ensures made { OnOk result (MadeBy made.old journal.now made.new) }
{
    let mut native = Many::new(alloc);
    for crossing in journal {
        match crossing {
            Crossing::Made(text) => note(alloc, made, text)?,
            Crossing::Read(text) => native.push(is_made(made, text))?,
        }
    }
    Ok(native)
}

// Adds a string.
fn note(alloc: Global, made: &mut Made, text: &Text) -> Result<(), Memory>
    ensures { OnOk result ((earlier : List Bytes) → Has made.old earlier →
        Has made.new (text.now.0 ∷ earlier)) }
{
    made.insert(Vec::from_slice(alloc, text.as_slice())?)?;
    Ok(())
}

// Whether a string was made.
fn is_made(made: &Made, text: &Text) -> bool
    ensures { result ≡ has_string made.now text.now.0 }
{
    made.contains(text.as_slice())
}

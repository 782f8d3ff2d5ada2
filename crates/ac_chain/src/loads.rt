// The programs of a chain's texts.

ghost use Rattle.std.specs.Prelude.{◌≡◌, ◌<◌, ◌≤◌, ◌^◌, length, IfOk, IfErr};
ghost use Rattle.ac_types.specs.Limits.{most_shelf_entries};
ghost use Rattle.ac_load_rules.specs.Accepting.{IsShelf};
ghost use Rattle.ac_load.specs.Loading.{shelf_of};
ghost use Rattle.ac_chain.specs.ChainTexts.{texts_of, programs_of, LoadAs};
ghost use Rattle.ac_chain.specs.inner.Running.{AreLoaded, IsRefusal, refused};

use crate::chained::ChainFault;
use ac_load::{Kind, Refusal, Shelf, load};
use ac_rules::Loaded;
use ac_types::{Many, Text};
use std::alloc::Global;

/// The programs of texts beside a shelf, or the first text that is refused.
pub fn load_all(alloc: Global, texts: &[Text], shelf: &Shelf) -> Result<Many<Loaded>, ChainFault>
    requires many { length texts.now < 2 ^ 32 }
    requires few { length shelf.now.0 ≤ most_shelf_entries }
    requires shelved { IsShelf (shelf_of shelf.now) }
    ensures load { IfOk result (λ ls. LoadAs (texts_of texts.now) (shelf_of shelf.now)
        (programs_of ls)) }
    ensures loaded { IfOk result (λ ls. AreLoaded ls) }
    ensures refused { IfErr result (λ f. IsRefusal (texts_of texts.now) (shelf_of shelf.now) f) }
{
    let mut programs = Many::new(alloc);
    for i in 0..texts.len() {
        match load(alloc, texts[i].as_slice(), shelf) {
            Ok(program) => programs.push(program)?,
            Err(refusal) => return Err(fault(i as u32, refusal)),
        }
    }
    Ok(programs)
}

// The fault of a program that is refused.
fn fault(program: u32, refusal: Refusal) -> ChainFault
    ensures { result ≡ refused program refusal }
{
    match refusal.kind {
        Kind::Memory => ChainFault::Memory,
        _ => ChainFault::Refused { program, refusal },
    }
}

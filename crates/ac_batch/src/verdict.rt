// What a text comes to.

ghost use Rattle.std.specs.Prelude.{◌≤◌, length, IfOk};
ghost use Rattle.ac_types.specs.Limits.{most_shelf_entries};
ghost use Rattle.ac_load_rules.specs.Accepting.{IsShelf};
ghost use Rattle.ac_load.specs.Loading.{shelf_of};
ghost use Rattle.ac_batch.specs.Verdicts.{IsVerdict};

use ac_load::{Kind, Refusal, Shelf, load};
use ac_types::Memory;
use std::alloc::Global;

/// What a text comes to beside a shelf.
#[derive(Clone, Copy, Debug, PartialEq, Eq)]
pub enum Verdict {
    /// It loads.
    Accepted,
    /// The first part that is refused, and why: never for want of memory.
    Refused(Refusal),
}

/// The verdict of a text beside a shelf.
pub fn judge(alloc: Global, text: &[u8], shelf: &Shelf) -> Result<Verdict, Memory>
    requires few { length shelf.now.0 ≤ most_shelf_entries }
    requires shelved { IsShelf (shelf_of shelf.now) }
    ensures { IfOk result (λ v. IsVerdict text.now (shelf_of shelf.now) v) }
{
    match load(alloc, text, shelf) {
        Ok(loaded) => {
            drop(loaded);
            Ok(Verdict::Accepted)
        }
        Err(refusal) => match refusal.kind {
            Kind::Memory => Err(Memory),
            _ => Ok(Verdict::Refused(refusal)),
        },
    }
}

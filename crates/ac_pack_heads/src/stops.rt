// Heads that don't travel.

ghost use Rattle.std.specs.Prelude.{◌≡◌, ◌∷◌, [], suc, false, IfOk};
ghost use Rattle.ac_types.specs.Types.{Bytes};
ghost use Rattle.ac_terms.specs.Spelling.{four_written};
ghost use Rattle.ac_terms.specs.Heads.{next_head};
ghost use Rattle.ac_terms.specs.Tags.{value_list};
ghost use Rattle.ac_pack_heads.specs.Outcomes.{StopsWalk};

use crate::heads::count_head;
use crate::stop::Stop;
use ac_terms::tags;
use ac_types::limits::DEEPEST_NESTING;
use ac_types::{Memory, Text};

/// Why a walk stops at what can't travel.
#[tactic(auto, using(crate::proofs::HeadLaws::head_laws))]
pub fn stays(nesting: u32) -> Stop
    ensures { (text bytes : Bytes) → StopsWalk result text
        (record { nesting = nesting; travels = false; bytes = bytes } ∷ []) }
{
    if nesting > DEEPEST_NESTING {
        Stop::Depth
    } else {
        Stop::Function
    }
}

/// Why it stops at a list of so many items, the first of which can't travel.
pub fn lost(text: &mut Text, nesting: u32, items: usize) -> Stop
    ensures { (bytes : Bytes) → StopsWalk result text.old.0
        (next_head nesting (value_list ∷ four_written items) ∷
        record { nesting = suc nesting; travels = false; bytes = bytes } ∷ []) }
{
    let Ok(under) = deeper(nesting) else {
        return Stop::Memory;
    };
    match count_head(text, nesting, tags::VALUE_LIST, items) {
        Ok(()) => stays(under),
        Err(stop) => stop,
    }
}

/// One deeper.
pub fn deeper(nesting: u32) -> Result<u32, Memory>
    ensures { IfOk result (λ n. n ≡ suc nesting) }
{
    nesting.checked_add(1).ok_or(Memory)
}

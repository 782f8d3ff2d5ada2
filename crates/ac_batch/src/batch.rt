// The verdicts of texts, each in a thread of its own where one can be had.

ghost use Rattle.std.specs.Prelude.{◌≡◌, ◌<◌, ◌≤◌, length, map, slice_get, IfOk, IfSome};
ghost use Rattle.std.specs.Arc.{arc_value};
ghost use Rattle.ac_types.specs.Limits.{most_shelf_entries};
ghost use Rattle.ac_load_rules.specs.Accepting.{IsShelf};
ghost use Rattle.ac_load.specs.Loading.{shelf_of};
ghost use Rattle.ac_batch.specs.Verdicts.{IsVerdict, AreVerdicts};

use crate::apart::{copied, judge_apart};
use crate::verdict::Verdict;
use ac_load::Shelf;
use ac_outside::Gate;
use ac_types::{Many, Memory, Text};
use std::alloc::Global;
use std::sync::Arc;
use std::thread;
use std::thread::Threads;

/// The verdict of each text, in their order, beside a shelf of at most `MOST_SHELF_ENTRIES` texts,
/// each under a URI of its own. The piece of a text is between one `enter` and one `leave` of its
/// number, from 0. `Err` for want of memory in any piece.
pub fn check_all<R: Threads + Sync, G: Gate + Sync>(
    rt: &R,
    alloc: Global,
    texts: &Many<Text>,
    shelf: &Shelf,
    gate: &G,
) -> Result<Many<Verdict>, Memory>
    requires few { length shelf.now.0 ≤ most_shelf_entries }
    requires shelved { IsShelf (shelf_of shelf.now) }
    ensures { IfOk result (λ vs. AreVerdicts texts.now (shelf_of shelf.now) vs) }
{
    let texts = texts.as_slice();
    let shared = Arc::new(alloc, copied(alloc, shelf)?)?;
    let shelf = &shared;
    let results = thread::map_indices(
        rt,
        alloc,
        texts.len(),
        &|i| piece(rt, alloc, texts, shelf, gate, i),
    )?;
    collected(alloc, results.as_slice())
}

// The verdict of text `i`, between the gate's `enter` and `leave` of this number.
fn piece<R: Threads, G: Gate>(
    rt: &R,
    alloc: Global,
    texts: &[Text],
    shelf: &Arc<Shelf, Global>,
    gate: &G,
    i: usize,
) -> Result<Verdict, Memory>
    requires few { length (arc_value shelf.now).0 ≤ most_shelf_entries }
    requires shelved { IsShelf (shelf_of (arc_value shelf.now)) }
    requires within { i < length texts.now }
    ensures { IfOk result (λ v. IfSome (slice_get texts.now i)
        (λ t. IsVerdict t.0 (shelf_of (arc_value shelf.now)) v)) }
{
    gate.enter(i);
    let found = judge_apart(rt, alloc, texts[i].as_slice(), shelf);
    gate.leave(i);
    found
}

// The verdicts, where each piece has one.
fn collected(alloc: Global, results: &[Result<Verdict, Memory>]) -> Result<Many<Verdict>, Memory>
    ensures { IfOk result (λ vs. map Ok vs ≡ results.now) }
{
    let mut all = Many::new(alloc);
    for found in results {
        match *found {
            Ok(verdict) => all.push(verdict)?,
            Err(e) => return Err(e),
        }
    }
    Ok(all)
}

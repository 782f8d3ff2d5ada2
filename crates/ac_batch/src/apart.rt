// The verdict of a text, in a thread with a stack of its own.

ghost use Rattle.std.specs.Prelude.{◌≡◌, ◌≤◌, length, IfOk};
ghost use Rattle.std.specs.Arc.{arc_value};
ghost use Rattle.ac_types.specs.Limits.{most_shelf_entries};
ghost use Rattle.ac_load_rules.specs.Accepting.{IsShelf};
ghost use Rattle.ac_load.specs.Loading.{shelf_of};
ghost use Rattle.ac_batch.specs.Verdicts.{IsVerdict};

use crate::verdict::{Verdict, judge};
use ac_load::{Shelf, ShelfEntry};
use ac_types::{Many, Memory, Text};
use std::alloc::Global;
use std::snapshot::Snapshot;
use std::sync::Arc;
use std::thread::{Builder, Promise, Threads};

// The bytes of that stack, whatever the limit of the process.
const STACK: usize = 16 * 1024 * 1024;

// That a thread gives the verdict of this text beside this shelf, where it gives one.
#[derive(Drop)]
struct VerdictOf {
    text: Snapshot<Text>,
    shelf: Snapshot<Arc<Shelf, Global>>,
}

impl Promise<Result<Verdict, Memory>> for VerdictOf {
    ghost kept_by = { λ p r. IfOk r
        (λ v. IsVerdict p.text.value.0 (shelf_of (arc_value p.shelf.value)) v) };
}

/// The verdict of a text beside a shelf. Where no thread can be had it is found in this one.
pub fn judge_apart<R: Threads>(
    rt: &R,
    alloc: Global,
    text: &[u8],
    shelf: &Arc<Shelf, Global>,
) -> Result<Verdict, Memory>
    requires few { length (arc_value shelf.now).0 ≤ most_shelf_entries }
    requires shelved { IsShelf (shelf_of (arc_value shelf.now)) }
    ensures { IfOk result (λ v. IsVerdict text.now (shelf_of (arc_value shelf.now)) v) }
{
    let own = Text::from_slice(alloc, text)?;
    let its = Arc::try_clone(shelf)?;
    let promise = VerdictOf {
        text: Snapshot::of(&own),
        shelf: Snapshot::of(&its),
    };
    let started = Builder::new().stack_size(STACK).spawn_with(
        rt,
        promise,
        move || -> Result<Verdict, Memory>
            requires few { length (arc_value its).0 ≤ most_shelf_entries }
            requires shelved { IsShelf (shelf_of (arc_value its)) }
            ensures { IfOk result (λ v. IsVerdict own.0 (shelf_of (arc_value its)) v) }
        { judge(alloc, own.as_slice(), &its) },
    );
    match started {
        Ok(thread) => thread.join(rt),
        Err(_) => judge(alloc, text, shelf),
    }
}

/// A copy of a shelf.
pub fn copied(alloc: Global, shelf: &Shelf) -> Result<Shelf, Memory>
    ensures { IfOk result (λ s. s ≡ shelf.now) }
{
    let mut entries = Many::new(alloc);
    for entry in shelf.0.as_slice() {
        entries.push(copied_entry(alloc, entry)?)?;
    }
    Ok(Shelf(entries))
}

fn copied_entry(alloc: Global, entry: &ShelfEntry) -> Result<ShelfEntry, Memory>
    ensures { IfOk result (λ e. e ≡ entry.now) }
{
    Ok(ShelfEntry {
        uri: entry.uri.copy(alloc)?,
        text: entry.text.copy(alloc)?,
    })
}

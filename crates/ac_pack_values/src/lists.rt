// How many items a list has, and how many parts a tuple is packed with.

ghost use Rattle.std.specs.Prelude.{◌≡◌, ◌<◌, suc, option_map, MatchOption, IfOk};
ghost use Rattle.ac_values.specs.Values.{stands_as};
ghost use Rattle.ac_pack_values.specs.inner.Forms.{items_counted, counted_none, paired};

use ac_pack_terms::sum;
use ac_types::Memory;
use ac_values::read::is_nil;
use ac_values::{Node, Store, Value};

/// How many items a list of the store has; none where it isn't one.
pub fn items_in(store: &Store, list: Value) -> Result<Option<usize>, Memory>
    ensures { IfOk result (λ o. o ≡ items_counted (stands_as store.now list.0)) }
{
    let mut rest = list;
    let mut count = 0;
    while let Some(tail) = tail_of(store, rest) {
        count = sum(count, 1)?;
        rest = tail;
    }
    if is_nil(store, rest) {
        Ok(Some(count))
    } else {
        Ok(None)
    }
}

// What stands behind the first item of a list.
#[tactic(auto, using(crate::proofs::ListLaws::tail_laws))]
fn tail_of(store: &Store, v: Value) -> Option<Value>
    ensures { MatchOption result
        (items_counted (stands_as store.now v.0) ≡ counted_none (stands_as store.now v.0))
        (λ t. (t.0 < v.0) × (items_counted (stands_as store.now v.0) ≡ option_map suc
        (items_counted (stands_as store.now t.0)))) }
{
    match store.node(v) {
        Some(Node::Cons(_, tail)) => Some(*tail),
        _ => None,
    }
}

/// How many parts a tuple is packed with: those that have a type, and one more where the numbers
/// differ, which can't travel.
#[tactic(auto, using(crate::proofs::ListLaws::paired_laws))]
pub fn shared(parts: usize, types: usize) -> Result<usize, Memory>
    ensures { IfOk result (λ n. n ≡ paired parts types) }
{
    if parts == types {
        return Ok(parts);
    }
    sum(if parts < types { parts } else { types }, 1)
}

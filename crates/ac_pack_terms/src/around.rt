// The captured values around a term.

ghost use Rattle.std.specs.Prelude.{◌≡◌, ◌+◌, ◌<◌, ◌^◌, suc, IfOk};
ghost use Rattle.ac_types.specs.Types.{TInt};
ghost use Rattle.ac_types.specs.ReadTypes.{typ_of};
ghost use Rattle.ac_code.specs.Contexts.{types_left};
ghost use Rattle.ac_values.specs.Values.{stands_as};
ghost use Rattle.ac_meaning.specs.Substitution.{slot, slot_in};
ghost use Rattle.ac_machine_meaning.specs.Stands.{environment_values};
ghost use Rattle.ac_pack_terms.specs.Pieces.{code_at, captured_at, slot_at};
ghost use Rattle.ac_pack_terms.specs.inner.Slots.{slot_under, later, newest_type};

use crate::piece::{Around, PackContext};
use crate::shapes::sum;
use ac_code::Variables;
use ac_types::{Memory, Ty};
use ac_values::Value;
use ac_values::read::newest_and_rest;

/// What comes in the place of a variable.
pub enum Slot<'a> {
    /// A variable.
    Free(u16),
    /// A captured value, with its type.
    Bound(Value, &'a Ty),
}

impl<'a> Around<'a> {
    /// The same under further binders.
    pub fn under(&self, more: usize) -> Result<Around<'a>, Memory>
        ensures { IfOk result (λ a. a ≡ record self.now { binders = more + self.now.binders }) }
    {
        let binders = sum(more, self.binders)?;
        Ok(Around {
            home: self.home,
            held: self.held,
            context: self.context,
            binders,
        })
    }

    /// What comes in the place of variable `i`.
    #[tactic(auto, using(crate::proofs::SlotLaws::slot_laws))]
    pub fn slot(&self, site: &PackContext<'a>, i: u16) -> Slot<'a>
        requires { typ_of site.now.int.now ≡ TInt }
        ensures { slot_at site.now result ≡ slot self.now.binders (captured_at site.now self.now)
            i }
    {
        if (i as usize) < self.binders {
            return Slot::Free(i);
        }
        let bound = self.binders as u16;
        match self.held {
            None => Slot::Free(i),
            Some(list) => held_slot(site, list, self.context, bound, i - bound),
        }
    }
}

// What comes in the place of variable `j` of a function's outside, under so many binders.
#[tactic(auto, using(crate::proofs::SlotLaws::held_laws))]
fn held_slot<'a>(
    site: &PackContext<'a>,
    list: Value,
    context: Variables<'a>,
    bound: u16,
    j: u16,
) -> Slot<'a>
    requires int { typ_of site.now.int.now ≡ TInt }
    requires fits { bound + j < 2 ^ 16 }
    ensures { slot_at site.now result ≡ slot_under bound (slot_in
        (environment_values (code_at site.now) (stands_as site.now.store.now list.0)
        (types_left context.entry)) j) }
{
    let mut rest = list;
    let mut types = context;
    for k in 0..j {
        match newest_and_rest(site.store, rest) {
            Some((_, older)) => {
                rest = older;
                types = later(&types);
            }
            None => return Slot::Free(bound + (j - k)),
        }
    }
    match newest_and_rest(site.store, rest) {
        Some((newest, _)) => Slot::Bound(newest, newest_type(site, &types)),
        None => Slot::Free(bound),
    }
}

/// The types behind the newest.
pub fn later<'a>(types: &Variables<'a>) -> Variables<'a>
    ensures { types_left result ≡ later (types_left types.now) }
{
    match types.next() {
        None => *types,
        Some((_, rest)) => rest,
    }
}

/// The type of the newest variable.
pub fn newest_type<'a>(site: &PackContext<'a>, types: &Variables<'a>) -> &'a Ty
    requires { typ_of site.now.int.now ≡ TInt }
    ensures { typ_of result.now ≡ newest_type (types_left types.now) }
{
    match types.next() {
        None => site.int,
        Some((ty, _)) => ty,
    }
}

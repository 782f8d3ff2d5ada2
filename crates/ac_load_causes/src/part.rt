// All that is asked of the entries of a part and of its term.

ghost use Rattle.std.specs.Prelude.{◌≡◌, ◌<◌, ◌≤◌, ◌^◌, IsTrue, Some, length, IfOk, IfErr, OnOk};
ghost use Rattle.std.specs.List.{list_all};
ghost use Rattle.ac_types.specs.Partial.{first_some};
ghost use Rattle.ac_types.specs.ReadTypes.{typ_of};
ghost use Rattle.ac_terms.specs.Read.{environment_of, expr_of};
ghost use Rattle.ac_load_rules.specs.Counted.{has_counted};
ghost use Rattle.ac_load_causes.specs.PartCauses.{term_type, causes_behind, part_cause, Tells};

use crate::asked::{Question, asked_behind};
use crate::clashes::first_entry_clash;
use crate::fault::PartFault;
use crate::typed::{first_ill_typed, term_type};
use ac_check::CheckFault;
use ac_terms::{Env, Term};
use ac_types::Ty;
use std::alloc::Global;

/// The type of a part's term, where nothing refuses the part's entries, those behind the first
/// `front`, nor the term: the first cause that applies otherwise.
pub fn part_type(alloc: Global, env: &Env, front: usize, term: &Term) -> Result<Ty, PartFault>
    requires few { length env.now.entries < 2 ^ 32 }
    requires within { front ≤ length env.now.entries }
    requires counted { IsTrue (list_all has_counted (environment_of env.now)) }
    ensures typed { IfOk result (λ ty. term_type (environment_of env.now) (expr_of term.now)
        ≡ Some (typ_of ty)) }
    ensures sound { OnOk result (part_cause (environment_of env.now) front (expr_of term.now)
        ≡ None) }
    ensures refused { IfErr result (λ f. Tells f (part_cause (environment_of env.now) front
        (expr_of term.now))) }
{
    if let Some(def) = first_ill_typed(alloc, env, front)? {
        return Err(PartFault::IllTyped { def });
    }
    match term_type(alloc, env, term) {
        Ok(ty) => match check_behind(alloc, env, front) {
            Ok(()) => Ok(ty),
            Err(fault) => {
                drop(ty);
                Err(fault)
            }
        },
        Err(CheckFault::IllTyped) => {
            let def = (env.len() - front) as u32;
            Err(PartFault::IllTyped { def })
        }
        Err(CheckFault::Memory) => Err(PartFault::Memory),
    }
}

// What is asked behind the types.
fn check_behind(alloc: Global, env: &Env, front: usize) -> Result<(), PartFault>
    requires few { length env.now.entries < 2 ^ 32 }
    requires within { front ≤ length env.now.entries }
    requires counted { IsTrue (list_all has_counted (environment_of env.now)) }
    ensures sound { OnOk result (first_some (causes_behind (environment_of env.now) front)
        ≡ None) }
    ensures refused { IfErr result (λ f. Tells f (first_some
        (causes_behind (environment_of env.now) front))) }
{
    if let Some(fault) = asked_behind(Question::Covers, env, front) {
        return Err(fault);
    }
    if let Some(fault) = asked_behind(Question::Valuable, env, front) {
        return Err(fault);
    }
    if let Some(fault) = asked_behind(Question::Likes, env, front) {
        return Err(fault);
    }
    if let Some(fault) = asked_behind(Question::Links, env, front) {
        return Err(fault);
    }
    match first_entry_clash(alloc, env)? {
        Some((first, second)) => Err(PartFault::Clash { first, second }),
        None => Ok(()),
    }
}

// The one change of the environment.

ghost use Rattle.std.specs.Prelude.{◌≡◌, ◌++◌, ◌+◌, ◌<◌, ◌^◌, false, OnOk, OnErr, IfErr, length, map};
ghost use Rattle.ac_types.specs.ReadTypes.{typ_of};
ghost use Rattle.ac_terms.specs.Read.{environment_of, entry_of, value_of};
ghost use Rattle.ac_rules.specs.Views.{Coloured};
ghost use Rattle.ac_rules.specs.Typing.{Holds, holds};
ghost use Rattle.ac_check.specs.Checking.{RefusesWhere};

use ac_check::{CheckFault, check_value};
use ac_terms::{Entry, Env, PVal};
use ac_types::{Many, Ty};
use std::alloc::Global;

// Puts entries behind those that are there. An `Err` leaves them as they were.
fn extend(env: &mut Env, more: Many<Entry>) -> Result<(), CheckFault>
    ensures ok { OnOk result (env.new.entries ≡ env.old.entries ++ more) }
    ensures err { OnErr result (env.new ≡ env.old) }
    ensures memory { IfErr result (λ f. f ≡ CheckFault.Memory) }
{
    let before = env.len();
    let mut left = more.into_vec();
    left.reverse();
    while let Some(entry) = left.pop() {
        match env.push(entry) {
            Ok(()) => {}
            Err(_) => {
                env.cut(before);
                return Err(CheckFault::Memory);
            }
        }
    }
    Ok(())
}

/// The environment with the entries that a packet brings, where its value is of the type there.
/// `Err` leaves it as it was.
pub fn commit(
    alloc: Global,
    env: &mut Env,
    more: Many<Entry>,
    ty: &Ty,
    value: &PVal,
) -> Result<(), CheckFault>
    requires { length env.old.entries + length more < 2 ^ 32 }
    ensures grown { OnOk result (env.new.entries ≡ env.old.entries ++ more) }
    ensures held { OnOk result (Holds (environment_of env.new) (value_of value.now)
        (typ_of ty.now)) }
    ensures kept { OnErr result (env.new ≡ env.old) }
    ensures refused { IfErr result (λ f. RefusesWhere f (holds Coloured false
        (map entry_of (env.old.entries ++ more)) (value_of value.now) (typ_of ty.now))) }
{
    let many = env.len();
    extend(env, more)?;
    match check_value(alloc, env, ty, value) {
        Ok(()) => Ok(()),
        Err(fault) => {
            env.cut(many);
            Err(fault)
        }
    }
}

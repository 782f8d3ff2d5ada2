// Jumps, and tests of patterns.

ghost use Rattle.std.specs.Prelude.{◌<◌, length, IfOk, OnOk};
ghost use Rattle.std.specs.List.{All};
ghost use Rattle.ac_terms.specs.Read.{pattern_of};
ghost use Rattle.ac_values.specs.inner.Fitting.{environment_with};
ghost use Rattle.ac_machine_engine.specs.States.{Run};
ghost use Rattle.ac_machine_engine.specs.Machine.{jumps, jumps_if_not, tests};
ghost use Rattle.ac_machine_engine.specs.Held.{core, Sound};
ghost use Rattle.ac_machine_engine.specs.Steps.{Does, Goes};

use ac_machine_engine::engine::{Engine, Step};
use ac_machine_primitives::fits::fits;
use ac_terms::Pat;
use ac_types::Memory;
use ac_values::read::bool_in;
use ac_values::{Node, Value};

/// Goes on at address `a`.
#[inline(always)]
pub fn jump(engine: &mut Engine, a: usize) -> Step
    requires sound { Sound engine.old }
    ensures { Does engine.new result (jumps a (core engine.old)) }
{
    engine.at.address = a;
    Step::On
}

/// Takes a truth value from the stack, and goes on at address `a` where it is false.
#[inline(always)]
pub fn jump_if_not(engine: &mut Engine, a: usize) -> Step
    requires sound { Sound engine.old }
    ensures { Does engine.new result (jumps_if_not a (core engine.old)) }
{
    let Some((v, rest)) = engine.newest(engine.at.stack) else {
        return Step::Wrong;
    };
    let Some(holds) = bool_in(&engine.store, v) else {
        return Step::Wrong;
    };
    engine.at.stack = rest;
    if !holds {
        engine.at.address = a;
    }
    Step::On
}

/// Where the newest value fits the pattern, takes it and binds the pattern's variables; else
/// goes on at address `a`.
pub fn test(engine: &mut Engine, pat: &Pat, a: usize) -> Result<Step, Memory>
    requires sound { Sound engine.old }
    ensures { IfOk result (λ s. Does engine.new s
        (tests (pattern_of pat.now) a (core engine.old))) }
{
    let Some((v, rest)) = engine.newest(engine.at.stack) else {
        return Ok(Step::Wrong);
    };
    let mut found = Vec::new(engine.alloc);
    if !fits(&engine.store, pat, v, &mut found)? {
        engine.at.address = a;
        return Ok(Step::On);
    }
    engine.at.stack = rest;
    bind_all(engine, &found)?;
    Ok(Step::On)
}

// Binds values, the last as the newest.
fn bind_all(engine: &mut Engine, found: &[Value]) -> Result<(), Memory>
    requires sound { Sound engine.old }
    requires within { All (λ v. v.0 < length engine.old.store) found.now }
    ensures { OnOk result (Goes engine.new (Run (record (core engine.old) {
      env = environment_with engine.old.store found.now (core engine.old).env;
    }))) }
{
    for value in found {
        let value = *value;
        engine.at.env = engine.add(Node::EnvCons(value, engine.at.env))?;
    }
    Ok(())
}

// Marshal and unmarshal.

ghost use Rattle.std.specs.Prelude.{IfOk};
ghost use Rattle.ac_types.specs.ReadTypes.{typ_of};
ghost use Rattle.ac_terms.specs.Read.{home_of};
ghost use Rattle.ac_machine_engine.specs.Machine.{marshals, unmarshals};
ghost use Rattle.ac_machine_engine.specs.Held.{core, Sound};
ghost use Rattle.ac_machine_engine.specs.Steps.{Does};

use ac_machine_engine::Pause;
use ac_machine_engine::engine::{Engine, Step};
use ac_terms::Home;
use ac_types::{Memory, Ty};
use ac_values::read::text_in;

/// Takes a value and the mark below it, and pauses.
pub fn marshal_pause(engine: &mut Engine, ty: &Ty, home: Home) -> Result<Step, Memory>
    requires sound { Sound engine.old }
    ensures { IfOk result (λ s. Does engine.new s
        (marshals (typ_of ty.now) (home_of home) (core engine.old))) }
{
    let Some((value, below)) = engine.newest(engine.at.stack) else {
        return Ok(Step::Wrong);
    };
    let Some((mark, rest)) = engine.newest(below) else {
        return Ok(Step::Wrong);
    };
    let Some(mark) = text_in(&engine.store, mark) else {
        return Ok(Step::Wrong);
    };
    let mark = mark.copy(engine.alloc)?;
    let ty = ty.copy(engine.alloc)?;
    engine.at.stack = rest;
    engine.pausing(Pause::Marshal {
        mark,
        value,
        ty,
        home,
    })
}

/// Takes a string, and pauses.
pub fn unmarshal_pause(engine: &mut Engine, ty: &Ty) -> Result<Step, Memory>
    requires sound { Sound engine.old }
    ensures { IfOk result (λ s. Does engine.new s (unmarshals (typ_of ty.now) (core engine.old))) }
{
    let Some((v, rest)) = engine.newest(engine.at.stack) else {
        return Ok(Step::Wrong);
    };
    let Some(text) = text_in(&engine.store, v) else {
        return Ok(Step::Wrong);
    };
    let text = text.copy(engine.alloc)?;
    let ty = ty.copy(engine.alloc)?;
    engine.at.stack = rest;
    engine.pausing(Pause::Unmarshal { text, ty })
}

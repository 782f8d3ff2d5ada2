// A machine and an engine in its state, which goes ahead: once it has come to a pause, so will the
// machine.

ghost use Rattle.std.specs.Prelude.{◌≡◌, ◌∷◌, [], true, Some, option_map, MatchBool, MatchOption, OnOk, IfOk};
ghost use Rattle.ac_types.specs.Exceptions.{failure};
ghost use Rattle.ac_types.specs.ReadNumbers.{exn_number, exn_text};
ghost use Rattle.ac_terms.specs.Read.{environment_of};
ghost use Rattle.ac_code.specs.ReadCode.{table_code};
ghost use Rattle.ac_machine_engine.specs.States.{Ask, Core, Run, Paused};
ghost use Rattle.ac_machine_engine.specs.Resumes.{Wait, At, Waits, paused_at, takes_unit, takes_text, takes_block, takes_raise};
ghost use Rattle.ac_machine_engine.specs.Held.{core, Sound};
ghost use Rattle.ac_machine_engine.specs.Seen.{standing, ask_of};
ghost use Rattle.ac_machine_engine.specs.Runs.{Reaches};
ghost use Rattle.ac_machine_engine.specs.declared.pause.Pause.TheVariants as answers;

use crate::notes::note_pause;
use ac_code::{CodeId, CodeTable};
use ac_machine::Machine;
use ac_machine::step::step;
use ac_machine_engine::Pause;
use ac_machine_engine::engine::{EMPTY, Engine, Step};
use ac_terms::Env;
use ac_text::Page;
use ac_types::{Exn, Memory, Text, TextExn};
use ac_values::Node;
use std::alloc::Global;

// An error where memory ran out.
fn there(pause: &Pause) -> Result<(), Memory>
    ensures { OnOk result (pause.now ≡ answers.Memory → ⊥) }
{
    match pause {
        Pause::Memory => Err(Memory),
        _ => Ok(()),
    }
}

// Takes an engine to its next pause. An operand that is missing or of the wrong kind counts as an
// error.
fn ahead(engine: &mut Engine, env: &Env, table: &CodeTable) -> Result<(), Memory>
    requires { Sound engine.old }
    ensures sound { OnOk result (Sound engine.new) }
    ensures pauses { OnOk result ((a : Ask) ×
        Reaches (environment_of env.now) (table_code table.now) (At (Run (core engine.old)))
        (Paused a (core engine.new))) }
{
    for _ in 0..1000 {
        match step(engine, env, table) {
            Ok(Step::On) => {}
            Ok(Step::Pausing(pause)) => return there(&pause),
            Ok(Step::Wrong) => return Err(Memory),
            Err(e) => return Err(e),
        }
    }
    Err(Memory)
}

// Takes an engine and a machine from one state to one pause.
fn gone(
    machine: &mut Machine,
    engine: &mut Engine,
    env: &Env,
    table: &CodeTable,
) -> Result<Pause, Memory>
    requires sound { Sound engine.old }
    requires alike { standing machine.old ≡ At (Run (core engine.old)) }
    ensures sound { OnOk result (Sound engine.new) }
    ensures alike { IfOk result (λ p. MatchOption (ask_of machine.new.engine.store p) ⊥
        (λ a. standing machine.new ≡ paused_at a (core engine.new))) }
{
    ahead(engine, env, table)?;
    let pause = machine.go(env, table);
    there(&pause)?;
    Ok(pause)
}

// Answers by unit.
fn by_unit(machine: &mut Machine, engine: &mut Engine) -> Result<bool, Memory>
    requires sound { Sound engine.old }
    requires waits { (w : Wait) × (takes_unit w ≡ true) ×
        (standing machine.old ≡ Waits w (core engine.old)) }
    ensures { IfOk result (λ on. MatchBool on (Sound engine.new ×
        (standing machine.new ≡ At (Run (core engine.new)))) ((a : Ask) × (c : Core) ×
        (standing machine.new ≡ At (Paused a c)))) }
{
    engine.push_node(Node::Unit)?;
    machine.resume_unit()?;
    Ok(true)
}

// Answers by a string.
fn by_text(
    alloc: Global,
    machine: &mut Machine,
    engine: &mut Engine,
    bytes: &[u8],
) -> Result<bool, Memory>
    requires sound { Sound engine.old }
    requires waits { (w : Wait) × (takes_text w ≡ true) ×
        (standing machine.old ≡ Waits w (core engine.old)) }
    ensures { IfOk result (λ on. MatchBool on (Sound engine.new ×
        (standing machine.new ≡ At (Run (core engine.new)))) ((a : Ask) × (c : Core) ×
        (standing machine.new ≡ At (Paused a c)))) }
{
    machine.resume_text(Text::from_slice(alloc, bytes)?)?;
    engine.push_node(Node::Str(Text::from_slice(alloc, bytes)?))?;
    Ok(true)
}

// Answers by the value of block 1.
fn by_block(machine: &mut Machine, engine: &mut Engine) -> Result<bool, Memory>
    requires sound { Sound engine.old }
    requires waits { (w : Wait) × (takes_block w ≡ true) ×
        (standing machine.old ≡ Waits w (core engine.old)) }
    ensures { IfOk result (λ on. MatchBool on (Sound engine.new ×
        (standing machine.new ≡ At (Run (core engine.new)))) ((a : Ask) × (c : Core) ×
        (standing machine.new ≡ At (Paused a c)))) }
{
    machine.resume_block(CodeId(1))?;
    engine.enter(CodeId(1), EMPTY, false)?;
    Ok(true)
}

fn refusal(alloc: Global) -> Result<Exn, Memory>
    ensures { IfOk result (λ e. (exn_number e ≡ failure) ×
        (exn_text e ≡ Some (110 ∷ 111 ∷ []))) }
{
    let text = Text::from_slice(alloc, b"no")?;
    Ok(Exn::Text(TextExn::Failure, text))
}

// Answers by an exception. Whether it goes on.
fn by_raise(alloc: Global, machine: &mut Machine, engine: &mut Engine) -> Result<bool, Memory>
    requires sound { Sound engine.old }
    requires waits { (w : Wait) × (takes_raise w ≡ true) ×
        (standing machine.old ≡ Waits w (core engine.old)) }
    ensures { IfOk result (λ on. MatchBool on (Sound engine.new ×
        (standing machine.new ≡ At (Run (core engine.new)))) ((a : Ask) × (c : Core) ×
        (standing machine.new ≡ At (Paused a c)))) }
{
    machine.resume_raise(refusal(alloc)?)?;
    match engine.raise_exn(refusal(alloc)?) {
        Ok(Step::On) => Ok(true),
        Ok(Step::Pausing(pause)) => match pause.into_inner() {
            Pause::Raised(_) => Ok(false),
            _ => Err(Memory),
        },
        Ok(_) => Err(Memory),
        Err(e) => Err(e),
    }
}

// Answers a pause by a value. Whether it goes on: at an end it has stopped.
fn by_value(
    alloc: Global,
    machine: &mut Machine,
    engine: &mut Engine,
    pause: &Pause,
) -> Result<bool, Memory>
    requires sound { Sound engine.old }
    requires alike { MatchOption (ask_of machine.old.engine.store pause.now) ⊥
        (λ a. standing machine.old ≡ paused_at a (core engine.old)) }
    ensures { IfOk result (λ on. MatchBool on (Sound engine.new ×
        (standing machine.new ≡ At (Run (core engine.new)))) ((a : Ask) × (c : Core) ×
        (standing machine.new ≡ At (Paused a c)))) }
{
    match pause {
        Pause::Print(_) => by_unit(machine, engine),
        Pause::Send(_) => by_unit(machine, engine),
        Pause::Receive => by_text(alloc, machine, engine, b" frame"),
        Pause::Marshal { mark, .. } => by_text(alloc, machine, engine, mark.as_slice()),
        Pause::Unmarshal { .. } => by_block(machine, engine),
        Pause::Done => Ok(false),
        Pause::Raised(_) => Ok(false),
        Pause::Spent => Ok(false),
        Pause::Memory => Err(Memory),
    }
}

// Answers a pause by an exception, where it may be.
fn by_refusal(
    alloc: Global,
    machine: &mut Machine,
    engine: &mut Engine,
    pause: &Pause,
) -> Result<bool, Memory>
    requires sound { Sound engine.old }
    requires alike { MatchOption (ask_of machine.old.engine.store pause.now) ⊥
        (λ a. standing machine.old ≡ paused_at a (core engine.old)) }
    ensures { IfOk result (λ on. MatchBool on (Sound engine.new ×
        (standing machine.new ≡ At (Run (core engine.new)))) ((a : Ask) × (c : Core) ×
        (standing machine.new ≡ At (Paused a c)))) }
{
    match pause {
        Pause::Send(_) => by_raise(alloc, machine, engine),
        Pause::Receive => by_raise(alloc, machine, engine),
        Pause::Marshal { .. } => by_raise(alloc, machine, engine),
        Pause::Unmarshal { .. } => by_raise(alloc, machine, engine),
        _ => by_value(alloc, machine, engine, pause),
    }
}

// Runs to the next pause, notes it and answers it. Whether it goes on.
fn turn(
    machine: &mut Machine,
    engine: &mut Engine,
    env: &Env,
    table: &CodeTable,
    raises: bool,
    notes: &mut Page,
) -> Result<bool, Memory>
    requires sound { Sound engine.old }
    requires alike { standing machine.old ≡ At (Run (core engine.old)) }
    ensures { IfOk result (λ on. MatchBool on (Sound engine.new ×
        (standing machine.new ≡ At (Run (core engine.new)))) ((a : Ask) × (c : Core) ×
        (standing machine.new ≡ At (Paused a c)))) }
{
    let pause = gone(machine, engine, env, table)?;
    note_pause(notes, machine.store(), &pause);
    if raises {
        by_refusal(engine.alloc, machine, engine, &pause)
    } else {
        by_value(engine.alloc, machine, engine, &pause)
    }
}

// Notes how a machine that has stopped stops again, and the applications made.
fn ended(machine: &mut Machine, env: &Env, table: &CodeTable, notes: &mut Page)
    requires { (a : Ask) × (c : Core) × (standing machine.old ≡ At (Paused a c)) }
{
    let pause = machine.go(env, table);
    note_pause(notes, machine.store(), &pause);
    notes.put(b" ");
    notes.number(machine.applications());
    notes.put(b"\n");
}

// Notes a run up to its end.
fn run(
    machine: &mut Machine,
    engine: &mut Engine,
    env: &Env,
    table: &CodeTable,
    raises: bool,
    notes: &mut Page,
) -> Result<(), Memory>
    requires sound { Sound engine.old }
    requires alike { standing machine.old ≡ At (Run (core engine.old)) }
{
    for _ in 0..100 {
        match turn(machine, engine, env, table, raises, notes) {
            Ok(true) => {}
            Ok(false) => {
                ended(machine, env, table, notes);
                return Ok(());
            }
            Err(e) => return Err(e),
        }
    }
    Err(Memory)
}

/// Notes the run of a table's first block under a budget, up to its end. Whether each pause but a
/// print is answered by an exception.
pub fn follow(
    alloc: Global,
    env: &Env,
    table: &CodeTable,
    budget: u64,
    raises: bool,
    notes: &mut Page,
) -> Result<(), Memory> {
    let mut engine = Engine::start(alloc, CodeId(0), budget)?;
    let mut machine = Machine::start(alloc, CodeId(0), budget)?;
    run(&mut machine, &mut engine, env, table, raises, notes)
}

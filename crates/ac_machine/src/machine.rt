// The machine as callers have it.

ghost use Rattle.std.specs.Prelude.{◌≡◌, false, true, ◌<◌, length, IfOk, OnOk, OnErr, MatchOption, List};
ghost use Rattle.ac_types.specs.ReadNumbers.{exn_number, exn_text};
ghost use Rattle.ac_terms.specs.Read.{environment_of};
ghost use Rattle.ac_code.specs.ReadCode.{table_code};
ghost use Rattle.ac_values.specs.declared.node.Node.{Node};
ghost use Rattle.ac_values.specs.Below.{Below};
ghost use Rattle.ac_values.specs.Values.{values, node_value};
ghost use Rattle.ac_machine_engine.specs.States.{Core, Run, beginning, push_value};
ghost use Rattle.ac_machine_engine.specs.Resumes.{At, awaits, resumed, paused_at, takes_unit, takes_text, takes_block, takes_raise, with_unit, resumed_text, with_block, with_raise};
ghost use Rattle.ac_machine_engine.specs.Held.{core, Sound};
ghost use Rattle.ac_machine_engine.specs.Seen.{standing, stands_at, ask_of};
ghost use Rattle.ac_machine_engine.specs.Runs.{Pauses, Went};
ghost use Rattle.ac_machine_engine.specs.declared.pause.Pause.TheVariants as answers;
ghost use Rattle.ac_machine.specs.inner.Going.{Advanced};

use crate::step::run;
use ac_code::{CodeId, CodeTable};
use ac_machine_engine::engine::{EMPTY, Engine, Step};
use ac_machine_engine::{Pause, Stand, Wait};
use ac_terms::Env;
use ac_types::{Exn, Memory, Text};
use ac_values::{Node, Store};
use std::alloc::Global;
use std::marker::Model;

/// A machine. From the first want of memory on it answers `Memory`.
#[derive(Drop)]
pub struct Machine {
    engine: Engine,
    stand: Stand,
    lost: bool,
}

impl Model for Machine {
    ghost use Rattle.std.specs.Prelude.{◌≡◌, false};
    ghost use Rattle.ac_machine_engine.specs.Seen.{MachineSeen};
    ghost use Rattle.ac_machine_engine.specs.Held.{Sound};

    ghost Value = { MachineSeen };

    ghost view = { λ m. record { engine = m.engine; stand = m.stand; lost = m.lost } };

    ghost invariant = { λ m. m.lost ≡ false → Sound m.engine };
}

impl Machine {
    /// A machine at the start of a block, which may make so many applications.
    pub fn start(alloc: Global, main: CodeId, steps: u64) -> Result<Machine, Memory>
        ensures { IfOk result (λ m. (m.lost ≡ false) ×
            (standing m ≡ At (Run (beginning main.0 steps)))) }
    {
        let engine = Engine::start(alloc, main, steps)?;
        Ok(Machine {
            engine,
            stand: Stand::Running,
            lost: false,
        })
    }

    /// The store of its values.
    pub fn store(&self) -> &Store
        ensures { result.now ≡ self.now.engine.store }
    {
        &self.engine.store
    }

    /// How many applications it has made.
    pub fn applications(&self) -> u64
        ensures { result ≡ (core self.now.engine).made }
    {
        self.engine.at.made
    }

    /// Runs to the next pause. A machine that has stopped answers as it did.
    pub fn go(&mut self, env: &Env, table: &CodeTable) -> Pause
        requires { self.old.lost ≡ false → Pauses (environment_of env.now) (table_code table.now)
            (standing self.old) }
        ensures went { self.old.lost ≡ false →
            Went (environment_of env.now) (table_code table.now) (standing self.old) self.new
            result }
        ensures lost { self.old.lost ≡ true → (result ≡ answers.Memory) × (self.new.lost ≡ true) }
    {
        if self.lost {
            return Pause::Memory;
        }
        match advance(&mut self.engine, &self.stand, env, table) {
            Ok((pause, stand)) => {
                self.stand = stand;
                pause
            }
            Err(_) => {
                self.lost = true;
                Pause::Memory
            }
        }
    }

    /// Answers a print or a send by unit.
    pub fn resume_unit(&mut self) -> Result<(), Memory>
        requires { self.old.lost ≡ false → awaits takes_unit (standing self.old) ≡ true }
        ensures ok { OnOk result ((self.old.lost ≡ false) × (self.new.lost ≡ false) ×
            (standing self.new ≡ resumed with_unit (standing self.old))) }
        ensures err { OnErr result (self.new.lost ≡ true) }
    {
        self.resume(Node::Unit)?;
        Ok(())
    }

    /// Answers a receive or a marshal by a string.
    pub fn resume_text(&mut self, text: Text) -> Result<(), Memory>
        requires { self.old.lost ≡ false → awaits takes_text (standing self.old) ≡ true }
        ensures ok { OnOk result ((self.old.lost ≡ false) × (self.new.lost ≡ false) ×
            (standing self.new ≡ resumed (resumed_text text.0) (standing self.old))) }
        ensures err { OnErr result (self.new.lost ≡ true) }
    {
        self.resume(Node::Str(text))?;
        Ok(())
    }

    // Goes on with the value of a node.
    fn resume(&mut self, node: Node) -> Result<(), Memory>
        requires { Below (length self.old.engine.store) node }
        ensures ok { OnOk result ((self.old.lost ≡ false) × (self.new.lost ≡ false) ×
            (standing self.new ≡ At (Run (push_value
            (node_value (values self.old.engine.store) node)
            (core self.old.engine))))) }
        ensures err { OnErr result (self.new.lost ≡ true) }
    {
        if self.lost {
            return Err(Memory);
        }
        match self.engine.push_node(node) {
            Ok(_) => {
                self.stand = Stand::Running;
                Ok(())
            }
            Err(e) => {
                self.lost = true;
                Err(e)
            }
        }
    }

    /// Answers an unmarshal by the value of a block.
    pub fn resume_block(&mut self, block: CodeId) -> Result<(), Memory>
        requires { self.old.lost ≡ false → awaits takes_block (standing self.old) ≡ true }
        ensures ok { OnOk result ((self.old.lost ≡ false) × (self.new.lost ≡ false) ×
            (standing self.new ≡ resumed (with_block block.0) (standing self.old))) }
        ensures err { OnErr result (self.new.lost ≡ true) }
    {
        if self.lost {
            return Err(Memory);
        }
        match self.engine.enter(block, EMPTY, false) {
            Ok(_) => {
                self.stand = Stand::Running;
                Ok(())
            }
            Err(e) => {
                self.lost = true;
                Err(e)
            }
        }
    }

    /// Answers a send, a receive, a marshal or an unmarshal by raising an exception.
    pub fn resume_raise(&mut self, e: Exn) -> Result<(), Memory>
        requires { self.old.lost ≡ false → awaits takes_raise (standing self.old) ≡ true }
        ensures ok { OnOk result ((self.old.lost ≡ false) × (self.new.lost ≡ false) ×
            (standing self.new ≡ resumed (with_raise (exn_number e) (exn_text e))
            (standing self.old))) }
        ensures err { OnErr result (self.new.lost ≡ true) }
    {
        if self.lost {
            return Err(Memory);
        }
        match raised(&mut self.engine, e) {
            Ok(stand) => {
                self.stand = stand;
                Ok(())
            }
            Err(e) => {
                self.lost = true;
                Err(e)
            }
        }
    }
}

// Runs to the next pause; how the machine then stands.
fn advance(
    engine: &mut Engine,
    stand: &Stand,
    env: &Env,
    table: &CodeTable,
) -> Result<(Pause, Stand), Memory>
    requires sound { Sound engine.old }
    requires pauses { Pauses (environment_of env.now) (table_code table.now)
        (stands_at stand.now (core engine.old)) }
    ensures { IfOk result (λ q. Advanced (environment_of env.now) (table_code table.now)
        (stands_at stand.now (core engine.old)) engine.new q.0 q.1) }
{
    match stand {
        Stand::Running => {
            let pause = run(engine, env, table)?;
            let stand = stand_at(engine.alloc, &pause)?;
            Ok((pause, stand))
        }
        Stand::Waiting(_) => unreachable!(),
        Stand::Done => Ok((Pause::Done, Stand::Done)),
        Stand::Raised(exn) => {
            let again = exn.copy(engine.alloc)?;
            let kept = exn.copy(engine.alloc)?;
            Ok((Pause::Raised(again), Stand::Raised(kept)))
        }
        Stand::Spent => Ok((Pause::Spent, Stand::Spent)),
    }
}

// How a machine stands after a pause.
fn stand_at(alloc: Global, pause: &Pause) -> Result<Stand, Memory>
    requires { pause.now ≡ answers.Memory → ⊥ }
    ensures { IfOk result (λ d. (ns : List Node) (c : Core) →
        MatchOption (ask_of ns pause.now) (Unit {0}) (λ a. stands_at d c ≡ paused_at a c)) }
{
    match pause {
        Pause::Print(_) => Ok(Stand::Waiting(Wait::Printing)),
        Pause::Send(_) => Ok(Stand::Waiting(Wait::Sending)),
        Pause::Receive => Ok(Stand::Waiting(Wait::Receiving)),
        Pause::Marshal { .. } => Ok(Stand::Waiting(Wait::Marshalling)),
        Pause::Unmarshal { .. } => Ok(Stand::Waiting(Wait::Unmarshalling)),
        Pause::Done => Ok(Stand::Done),
        Pause::Raised(exn) => Ok(Stand::Raised(exn.copy(alloc)?)),
        Pause::Spent => Ok(Stand::Spent),
        Pause::Memory => unreachable!(),
    }
}

// Raises an exception; how the machine then stands.
fn raised(engine: &mut Engine, e: Exn) -> Result<Stand, Memory>
    requires { Sound engine.old }
    ensures { IfOk result (λ d. Sound engine.new ×
        (stands_at d (core engine.new) ≡ At (with_raise (exn_number e) (exn_text e)
        (core engine.old)))) }
{
    match engine.raise_exn(e) {
        Ok(Step::On) => Ok(Stand::Running),
        Ok(Step::Pausing(pause)) => match pause.into_inner() {
            Pause::Raised(exn) => Ok(Stand::Raised(exn)),
            _ => unreachable!(),
        },
        Ok(_) => unreachable!(),
        Err(e) => Err(e),
    }
}

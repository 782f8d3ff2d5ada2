// Variables and binders.

ghost use Rattle.std.specs.Prelude.{IfOk};
ghost use Rattle.ac_machine_engine.specs.Machine.{loads, binds, unbinds, drops};
ghost use Rattle.ac_machine_engine.specs.Held.{core, Sound};
ghost use Rattle.ac_machine_engine.specs.Steps.{Does};

use crate::engine::{Engine, Step};
use ac_types::Memory;
use ac_values::Node;
use ac_values::read::{entry, without};

impl Engine {
    /// Pushes entry `i` of the environment, counted from the newest.
    #[inline(always)]
    pub fn load(&mut self, i: u16) -> Result<Step, Memory>
        requires sound { Sound self.old }
        ensures { IfOk result (λ s. Does self.new s (loads i (core self.old))) }
    {
        match entry(&self.store, self.at.env, i as usize) {
            Some(v) => self.push(v),
            None => Ok(Step::Wrong),
        }
    }

    /// Takes a value into the environment.
    #[inline(always)]
    pub fn bind(&mut self) -> Result<Step, Memory>
        requires sound { Sound self.old }
        ensures { IfOk result (λ s. Does self.new s (binds (core self.old))) }
    {
        let Some((v, rest)) = self.newest(self.at.stack) else {
            return Ok(Step::Wrong);
        };
        self.at.stack = rest;
        self.at.env = self.add(Node::EnvCons(v, self.at.env))?;
        Ok(Step::On)
    }

    /// Drops the `n` newest of the environment.
    #[inline(always)]
    pub fn unbind(&mut self, n: usize) -> Step
        requires sound { Sound self.old }
        ensures { Does self.new result (unbinds n (core self.old)) }
    {
        match without(&self.store, self.at.env, n) {
            Some(env) => {
                self.at.env = env;
                Step::On
            }
            None => Step::Wrong,
        }
    }

    /// Drops the newest value of the stack.
    #[inline(always)]
    pub fn drop_newest(&mut self) -> Step
        requires sound { Sound self.old }
        ensures { Does self.new result (drops (core self.old)) }
    {
        match self.newest(self.at.stack) {
            Some((_, rest)) => {
                self.at.stack = rest;
                Step::On
            }
            None => Step::Wrong,
        }
    }
}

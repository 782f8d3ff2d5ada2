// Calls and returns.

ghost use Rattle.std.specs.Prelude.{◌≡◌, ◌<◌, length, cond, get_or, [], ◌∷◌, IfOk, IfSome};
ghost use Rattle.ac_values.specs.Values.{MMore, stands_as, values};
ghost use Rattle.ac_values.specs.ValueReaders.{closure_in};
ghost use Rattle.ac_machine_engine.specs.States.{Run, state_given};
ghost use Rattle.ac_machine_engine.specs.Machine.{applies, called, returns, going_back};
ghost use Rattle.ac_machine_engine.specs.Held.{core, call_frame_of, frames_of, Sound};
ghost use Rattle.ac_machine_engine.specs.Steps.{stack_at, Does, Goes, Grown, entering};

use crate::engine::{Engine, Frame, Position, Step};
use crate::pause::Pause;
use ac_code::CodeId;
use ac_types::Memory;
use ac_values::read::closure_in;
use ac_values::{Node, Store, Value};

impl Engine {
    /// Calls the closure below the argument on the stack, or stops in front of an application past
    /// the budget.
    #[inline(always)]
    pub fn apply(&mut self) -> Result<Step, Memory>
        requires sound { Sound self.old }
        ensures { IfOk result (λ s. Does self.new s (applies (core self.old))) }
    {
        let Some((argument, below)) = self.newest(self.at.stack) else {
            return Ok(Step::Wrong);
        };
        let Some((function, rest)) = self.newest(below) else {
            return Ok(Step::Wrong);
        };
        self.call(function, argument, rest)
    }

    /// Calls a closure with an argument, with this stack behind the call.
    #[inline(always)]
    pub fn call(&mut self, function: Value, argument: Value, rest: usize) -> Result<Step, Memory>
        requires sound { Sound self.old }
        requires function { function.0 < length self.old.store }
        requires argument { argument.0 < length self.old.store }
        requires rest { rest < length self.old.stacks }
        ensures { IfOk result (λ s. Does self.new s
            (state_given (closure_in (stands_as self.old.store function.0))
            (called (stands_as self.old.store argument.0) (stack_at self.old rest)
            (core self.old)))) }
    {
        let Some((block, recursive, env)) = closure_in(&self.store, function) else {
            return Ok(Step::Wrong);
        };
        if self.at.made >= self.budget {
            return self.pausing(Pause::Spent);
        }
        let own = self.own_env(function, recursive, env)?;
        let full = self.add(Node::EnvCons(argument, own))?;
        self.at.stack = rest;
        self.at.made += 1;
        let step = self.enter(block, full, false)?;
        Ok(step)
    }

    // The environment of a closure, in which a recursive one stands itself.
    #[inline(always)]
    fn own_env(&mut self, function: Value, recursive: bool, env: Value) -> Result<Value, Memory>
        requires sound { Sound self.old }
        requires function { function.0 < length self.old.store }
        requires env { env.0 < length self.old.store }
        ensures { IfOk result (λ v. Grown self.old self.new v
            (cond recursive (MMore (stands_as self.old.store function.0)
            (stands_as self.old.store env.0))
            (stands_as self.old.store env.0))) }
    {
        if !recursive {
            return Ok(env);
        }
        match env_behind(&self.store, function, env) {
            Some(own) => Ok(own),
            None => self.add(Node::EnvCons(function, env)),
        }
    }

    /// Starts a block with an environment, and keeps where the one that runs goes on.
    #[inline(always)]
    pub fn enter(&mut self, block: CodeId, env: Value, keeps: bool) -> Result<Step, Memory>
        requires sound { Sound self.old }
        requires env { env.0 < length self.old.store }
        ensures { IfOk result (λ s. Does self.new s
            (Run (entering keeps block.0 (stands_as self.old.store env.0) (core self.old)))) }
    {
        self.give_back();
        let step = self.enter_here(block, env, keeps)?;
        Ok(step)
    }

    #[inline(always)]
    fn enter_here(&mut self, block: CodeId, env: Value, keeps: bool) -> Result<Step, Memory>
        requires sound { Sound self.old }
        requires env { env.0 < length self.old.store }
        ensures { IfOk result (λ s. Does self.new s
            (Run (entering keeps block.0 (stands_as self.old.store env.0) (core self.old)))) }
    {
        let address = narrow(self.at.address)?;
        let frame = Frame {
            block: self.at.block,
            address,
            env: self.at.env,
            keeps,
        };
        self.at.frames = self.frames.push(frame, self.at.frames)?;
        self.at.block = block;
        self.at.address = 0;
        self.at.env = env;
        Ok(Step::On)
    }

    /// Goes back to the newest frame; the value of a field is kept.
    #[inline(always)]
    pub fn return_back(&mut self) -> Result<Step, Memory>
        requires sound { Sound self.old }
        ensures { IfOk result (λ s. Does self.new s
            (returns (core self.old).frames (core self.old))) }
    {
        self.give_back();
        let step = self.return_here()?;
        Ok(step)
    }

    #[inline(always)]
    fn return_here(&mut self) -> Result<Step, Memory>
        requires sound { Sound self.old }
        ensures { IfOk result (λ s. Does self.new s
            (returns (core self.old).frames (core self.old))) }
    {
        let Some((frame, rest)) = self.frames.top(self.at.frames) else {
            return Ok(Step::Wrong);
        };
        if frame.keeps {
            let Some((v, _)) = self.newest(self.at.stack) else {
                return Ok(Step::Wrong);
            };
            self.keep(self.at.block, v)?;
        }
        self.go_back(frame, rest);
        Ok(Step::On)
    }

    /// Goes on at the newest frame.
    #[inline(always)]
    pub fn go_back(&mut self, frame: Frame, rest: usize)
        requires sound { Sound self.old }
        requires older { rest < self.old.at.frames }
        requires frame { get_or self.old.frames self.old.at.frames [] ≡ frame ∷ get_or
            self.old.frames rest [] }
        ensures { Goes self.new (Run (going_back
            (call_frame_of (values self.old.store) frame)
            (frames_of (values self.old.store) (get_or self.old.frames rest [])) (core self.old))) }
    {
        self.at.block = frame.block;
        self.at.address = frame.address as usize;
        self.at.env = frame.env;
        self.at.frames = rest;
    }
}

// An address in 32 bits; a larger one counts as out of memory.
#[inline(always)]
fn narrow(address: usize) -> Result<u32, Memory>
    ensures { IfOk result (λ a. a ≡ address) }
{
    match u32::try_from(address) {
        Ok(a) => Ok(a),
        Err(_) => Err(Memory),
    }
}

// The environment of a recursive closure, where it stands behind the closure's own node.
#[inline(always)]
fn env_behind(store: &Store, function: Value, env: Value) -> Option<Value>
    requires { function.0 < length store.now }
    ensures { IfSome result (λ v. (v.0 < length store.now) ×
        (stands_as store.now v.0 ≡ MMore (stands_as store.now function.0)
        (stands_as store.now env.0))) }
{
    let count = store.len();
    let next = Value(function.0 + 1);
    if next.0 >= count {
        return None;
    }
    match store.node(next) {
        Some(Node::EnvCons(newest, rest)) => {
            if newest.0 == function.0 && rest.0 == env.0 {
                Some(next)
            } else {
                None
            }
        }
        _ => None,
    }
}

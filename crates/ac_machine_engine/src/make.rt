// Instructions that push constants and make values.

ghost use Rattle.std.specs.Prelude.{◌≡◌, ◌<◌, length, IfOk, None, Some};
ghost use Rattle.ac_types.specs.ReadNumbers.{texted_number, kind_number};
ghost use Rattle.ac_values.specs.Values.{MStr, MClosure, MEnd, stands_as};
ghost use Rattle.ac_machine_engine.specs.States.{Run, push_value};
ghost use Rattle.ac_machine_engine.specs.Machine.{makes_exn, makes_exn_of, makes_some, makes_cons, makes_tuple};
ghost use Rattle.ac_machine_engine.specs.Held.{core, Sound};
ghost use Rattle.ac_machine_engine.specs.Steps.{Does, Grown};

use crate::engine::{EMPTY, Engine, Step};
use ac_code::CodeId;
use ac_types::{ExnKind, Many, Memory, Text, TextExn};
use ac_values::read::text_in;
use ac_values::{Node, Value};

impl Engine {
    /// Pushes a string.
    pub fn push_text(&mut self, text: &Text) -> Result<Step, Memory>
        requires sound { Sound self.old }
        ensures { IfOk result (λ s. Does self.new s
            (Run (push_value (MStr text.now.0) (core self.old)))) }
    {
        let text = text.copy(self.alloc)?;
        self.push_node(Node::Str(text))
    }

    /// Pushes a closure of a block with the environment.
    pub fn push_closure(&mut self, block: CodeId, recursive: bool) -> Result<Step, Memory>
        requires sound { Sound self.old }
        ensures { IfOk result (λ s. Does self.new s
            (Run (push_value (MClosure block.0 recursive (core self.old).env) (core self.old)))) }
    {
        let v = self.add_closure(block, recursive, self.at.env)?;
        self.push(v)
    }

    /// Pushes a closure of a block with the empty environment.
    pub fn push_constant(&mut self, block: CodeId, recursive: bool) -> Result<Step, Memory>
        requires sound { Sound self.old }
        ensures { IfOk result (λ s. Does self.new s
            (Run (push_value (MClosure block.0 recursive MEnd) (core self.old)))) }
    {
        let v = self.add_closure(block, recursive, EMPTY)?;
        self.push(v)
    }

    // Adds a closure, and behind a recursive one the environment in which it stands itself.
    #[tactic(auto, using(crate::proofs::HeldLaws::grown_more))]
    fn add_closure(&mut self, block: CodeId, recursive: bool, env: Value) -> Result<Value, Memory>
        requires sound { Sound self.old }
        requires env { env.0 < length self.old.store }
        ensures { IfOk result (λ v. Grown self.old self.new v
            (MClosure block.0 recursive (stands_as self.old.store env.0))) }
    {
        let function = self.add(Node::Closure {
            block,
            recursive,
            env,
        })?;
        if !recursive {
            return Ok(function);
        }
        self.add(Node::EnvCons(function, env))?;
        Ok(function)
    }

    /// Pushes an exception, with the string on the stack where it has one.
    pub fn make_exn(&mut self, kind: ExnKind) -> Result<Step, Memory>
        requires sound { Sound self.old }
        ensures { IfOk result (λ s. Does self.new s (makes_exn (kind_number kind)
            (core self.old))) }
    {
        match kind {
            ExnKind::Bare(exn) => self.push_node(Node::Exn(exn)),
            ExnKind::Text(exn) => self.make_exn_of(exn),
        }
    }

    // Pushes an exception with the string on the stack.
    fn make_exn_of(&mut self, exn: TextExn) -> Result<Step, Memory>
        requires sound { Sound self.old }
        ensures { IfOk result (λ s. Does self.new s (makes_exn_of (texted_number exn)
            (core self.old))) }
    {
        let Some((text, rest)) = self.newest(self.at.stack) else {
            return Ok(Step::Wrong);
        };
        let Some(_) = text_in(&self.store, text) else {
            return Ok(Step::Wrong);
        };
        self.at.stack = rest;
        self.push_node(Node::ExnOf(exn, text))
    }

    /// Makes a present option of the newest value.
    pub fn make_some(&mut self) -> Result<Step, Memory>
        requires sound { Sound self.old }
        ensures { IfOk result (λ s. Does self.new s (makes_some (core self.old))) }
    {
        let Some((inner, rest)) = self.newest(self.at.stack) else {
            return Ok(Step::Wrong);
        };
        self.at.stack = rest;
        self.push_node(Node::Present(inner))
    }

    /// Makes a list of the two newest values, a list on top of its new head.
    pub fn make_cons(&mut self) -> Result<Step, Memory>
        requires sound { Sound self.old }
        ensures { IfOk result (λ s. Does self.new s (makes_cons (core self.old))) }
    {
        let Some((tail, below)) = self.newest(self.at.stack) else {
            return Ok(Step::Wrong);
        };
        let Some((head, rest)) = self.newest(below) else {
            return Ok(Step::Wrong);
        };
        self.at.stack = rest;
        self.push_node(Node::Cons(head, tail))
    }

    /// Makes a tuple of the `n` newest values, the newest last.
    pub fn make_tuple(&mut self, n: usize) -> Result<Step, Memory>
        requires sound { Sound self.old }
        ensures { IfOk result (λ s. Does self.new s (makes_tuple n (core self.old))) }
    {
        let mut parts = Vec::new(self.alloc);
        let mut rest = self.at.stack;
        for _ in 0..n {
            match self.newest(rest) {
                Some((part, older)) => {
                    parts.push(part)?;
                    rest = older;
                }
                None => return Ok(Step::Wrong),
            }
        }
        parts.reverse();
        self.at.stack = rest;
        let step = self.push_node(Node::Tuple(Many::from_vec(parts)))?;
        Ok(step)
    }
}

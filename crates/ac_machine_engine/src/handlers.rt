// Handlers and raised exceptions.

ghost use Rattle.std.specs.Prelude.{◌≡◌, ◌∷◌, [], ◌<◌, length, get_or, IfOk, MatchOption};
ghost use Rattle.ac_types.specs.ReadNumbers.{exn_number, exn_text};
ghost use Rattle.ac_values.specs.Values.{stands_as};
ghost use Rattle.ac_machine_engine.specs.States.{Run};
ghost use Rattle.ac_machine_engine.specs.Machine.{tries, ends_try, raises, exn_raised, exn_value, exn_in};
ghost use Rattle.ac_machine_engine.specs.Held.{core, Sound, AreHandlers};
ghost use Rattle.ac_machine_engine.specs.inner.Found.{exn_found};
ghost use Rattle.ac_machine_engine.specs.Steps.{Does, Grown, handling};

use crate::engine::{Engine, Handler, Step};
use crate::pause::Pause;
use ac_types::{BareExn, Exn, Memory, Text, TextExn};
use ac_values::read::{exn_with, exn_without, text_in};
use ac_values::{Node, Store, Value};
use std::alloc::Global;

// An exception in a store.
#[derive(Clone, Copy)]
enum Found<'a> {
    Bare(BareExn),
    Text(TextExn, &'a Text),
}

impl Engine {
    /// Keeps a handler at address `a` of the block that runs.
    pub fn try_block(&mut self, a: usize) -> Result<Step, Memory>
        requires sound { Sound self.old }
        ensures { IfOk result (λ s. Does self.new s (tries a (core self.old))) }
    {
        let handler = Handler {
            block: self.at.block,
            address: a,
            env: self.at.env,
            stack: self.at.stack,
            frames: self.at.frames,
            below: self.floor,
        };
        let floor = self.floor_here();
        self.at.handlers = self.handlers.push(handler, self.at.handlers)?;
        self.floor = floor;
        Ok(Step::On)
    }

    /// Drops the newest handler.
    pub fn end_try(&mut self) -> Step
        requires sound { Sound self.old }
        ensures { Does self.new result (ends_try (core self.old).handlers (core self.old)) }
    {
        let Some((handler, rest)) = self.handlers.top(self.at.handlers) else {
            return Step::Wrong;
        };
        self.at.handlers = rest;
        self.floor = handler.below;
        Step::On
    }

    /// Raises the exception on the stack: the newest handler goes on, or the machine stops.
    pub fn raise(&mut self) -> Result<Step, Memory>
        requires sound { Sound self.old }
        ensures { IfOk result (λ s. Does self.new s (raises (core self.old))) }
    {
        let Some((v, rest)) = self.newest(self.at.stack) else {
            return Ok(Step::Wrong);
        };
        let Some(found) = exn_in(&self.store, v) else {
            return Ok(Step::Wrong);
        };
        match self.handlers.top(self.at.handlers) {
            None => {
                let exn = exn_of(self.alloc, found)?;
                self.at.stack = rest;
                self.pausing(Pause::Raised(exn))
            }
            Some((handler, older)) => self.handle(handler, older, v),
        }
    }

    /// Raises an exception.
    pub fn raise_exn(&mut self, exn: Exn) -> Result<Step, Memory>
        requires sound { Sound self.old }
        ensures { IfOk result (λ s. Does self.new s
            (exn_raised (exn_number exn) (exn_text exn) (core self.old)
            (core self.old).handlers)) }
    {
        match self.handlers.top(self.at.handlers) {
            None => self.pausing(Pause::Raised(exn)),
            Some((handler, older)) => {
                let v = self.add_exn(exn)?;
                self.handle(handler, older, v)
            }
        }
    }

    // The value of an exception.
    fn add_exn(&mut self, exn: Exn) -> Result<Value, Memory>
        requires sound { Sound self.old }
        ensures { IfOk result (λ v. Grown self.old self.new v
            (exn_value (exn_number exn) (exn_text exn))) }
    {
        match exn {
            Exn::Bare(exn) => self.add(Node::Exn(exn)),
            Exn::Text(exn, text) => {
                let text = self.add(Node::Str(text))?;
                self.add(Node::ExnOf(exn, text))
            }
        }
    }

    // Goes on at a handler, with an exception.
    fn handle(&mut self, handler: Handler, older: usize, v: Value) -> Result<Step, Memory>
        requires sound { Sound self.old }
        requires handlers { AreHandlers (length self.old.store) self.old.floor
            (handler ∷ get_or self.old.handlers older []) }
        requires older { older < length self.old.handlers }
        requires within { v.0 < length self.old.store }
        ensures { IfOk result (λ s. Does self.new s
            (Run (handling self.old handler older (stands_as self.old.store v.0)))) }
    {
        self.at.block = handler.block;
        self.at.address = handler.address;
        self.at.env = handler.env;
        self.at.stack = handler.stack;
        self.at.frames = handler.frames;
        self.at.handlers = older;
        self.floor = handler.below;
        self.push(v)
    }
}

// The exception that a value is.
fn exn_in<'a>(store: &'a Store, v: Value) -> Option<Found<'a>>
    ensures { MatchOption result (exn_in (stands_as store.now v.0) ≡ None)
        (λ x. exn_in (stands_as store.now v.0) ≡ Some (exn_found x)) }
{
    if let Some(exn) = exn_without(store, v) {
        return Some(Found::Bare(exn));
    }
    let (exn, inner) = exn_with(store, v)?;
    let text = text_in(store, inner)?;
    Some(Found::Text(exn, text))
}

// An exception with a text of its own.
fn exn_of(alloc: Global, found: Found<'_>) -> Result<Exn, Memory>
    ensures { IfOk result (λ e. (exn_number e ≡ (exn_found found.entry).0) ×
        (exn_text e ≡ (exn_found found.entry).1)) }
{
    match found {
        Found::Bare(exn) => Ok(Exn::Bare(exn)),
        Found::Text(exn, text) => {
            let text = text.copy(alloc)?;
            Ok(Exn::Text(exn, text))
        }
    }
}

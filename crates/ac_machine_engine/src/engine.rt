//! The machine by the numbers of its values, lists, frames and handlers.

ghost use Rattle.std.specs.Prelude.{◌≡◌, ◌<◌, length, IfOk, MatchOption, None, Some};
ghost use Rattle.ac_values.specs.Below.{Below};
ghost use Rattle.ac_values.specs.Values.{values, node_value, stands_as};
ghost use Rattle.ac_machine_engine.specs.States.{Run, push_value, beginning};
ghost use Rattle.ac_machine_engine.specs.Machine.{newest};
ghost use Rattle.ac_machine_engine.specs.Held.{core, Sound};
ghost use Rattle.ac_machine_engine.specs.Steps.{stack_at, Does, Grown};
ghost use Rattle.ac_machine_engine.specs.declared.engine.Step.TheVariants.{On, Pausing};

use crate::pause::Pause;
use ac_code::CodeId;
use ac_types::{Boxed, Memory};
use ac_values::{Node, SharedLists, Store, Value};
use std::alloc::Global;

/// Where a block goes on once the one that runs has returned, and whether that one's value is kept.
#[derive(Clone, Copy)]
pub struct Frame {
    pub block: CodeId,
    pub env: Value,
    pub address: u32,
    pub keeps: bool,
}

/// So many of the first stacks and frames the handlers that stand may keep.
#[derive(Clone, Copy)]
pub struct Floor {
    pub stacks: usize,
    pub frames: usize,
}

/// Where a raised exception is handled. The stack and the frames are numbers of lists, and `below`
/// is the floor of the handlers below it.
#[derive(Clone, Copy)]
pub struct Handler {
    pub block: CodeId,
    pub address: usize,
    pub env: Value,
    pub stack: usize,
    pub frames: usize,
    pub below: Floor,
}

/// Where the machine stands. The stack, the frames and the handlers are numbers of lists.
#[derive(Clone, Copy)]
pub struct Position {
    pub block: CodeId,
    pub address: usize,
    pub env: Value,
    pub stack: usize,
    pub frames: usize,
    pub handlers: usize,
    pub made: u64,
}

/// What an instruction comes to.
#[derive(Drop)]
pub enum Step {
    /// The machine goes on.
    On,
    /// It has come to a pause.
    Pausing(Boxed<Pause>),
    /// An operand is missing or of the wrong kind.
    Wrong,
}

/// A machine. Node 0 of the store is the empty environment, and `kept` has the values of fields by
/// the numbers of their blocks.
#[derive(Drop)]
pub struct Engine {
    pub store: Store,
    pub stacks: SharedLists<Value>,
    pub frames: SharedLists<Frame>,
    pub handlers: SharedLists<Handler>,
    pub floor: Floor,
    pub kept: Vec<Option<Value>>,
    pub at: Position,
    pub budget: u64,
    pub alloc: Global,
}

/// The number of the empty environment.
pub const EMPTY: Value = Value(0);

impl Engine {
    /// A machine at the start of a block.
    pub fn start(alloc: Global, main: CodeId, budget: u64) -> Result<Engine, Memory>
        ensures { IfOk result (λ m. Sound m × (core m ≡ beginning main.0 budget)) }
    {
        let mut engine = Engine::bare(alloc, main, budget)?;
        engine.make_constants()?;
        Ok(engine)
    }

    // One whose store has the empty environment alone.
    fn bare(alloc: Global, main: CodeId, budget: u64) -> Result<Engine, Memory>
        ensures { IfOk result (λ m. Sound m × (core m ≡ beginning main.0 budget)) }
    {
        let mut store = Store::new(alloc);
        let empty = store.push(Node::EnvEnd)?;
        Ok(Engine {
            store,
            stacks: SharedLists::new(alloc),
            frames: SharedLists::new(alloc),
            handlers: SharedLists::new(alloc),
            floor: Floor {
                stacks: 0,
                frames: 0,
            },
            kept: Vec::new(alloc),
            at: Position {
                block: main,
                address: 0,
                env: empty,
                stack: 0,
                frames: 0,
                handlers: 0,
                made: 0,
            },
            budget,
            alloc,
        })
    }

    /// A pause, in a box so that a step is small.
    #[inline(always)]
    pub fn pausing(&self, pause: Pause) -> Result<Step, Memory>
        ensures { IfOk result (λ s. s ≡ Pausing pause) }
    {
        Ok(Step::Pausing(self.boxed(pause)?))
    }

    #[cold]
    fn boxed(&self, pause: Pause) -> Result<Boxed<Pause>, Memory>
        ensures { IfOk result (λ b. b ≡ pause) }
    {
        Ok(Boxed::new(self.alloc, pause)?)
    }

    /// One more node.
    #[inline(always)]
    pub fn add(&mut self, node: Node) -> Result<Value, Memory>
        requires sound { Sound self.old }
        requires parts { Below (length self.old.store) node }
        ensures { IfOk result (λ v. Grown self.old self.new v
            (node_value (values self.old.store) node)) }
    {
        let v = self.store.push(node)?;
        Ok(v)
    }

    /// Pushes a value on the stack, in the place of lists that nothing can reach.
    #[inline(always)]
    pub fn push(&mut self, v: Value) -> Result<Step, Memory>
        requires sound { Sound self.old }
        requires within { v.0 < length self.old.store }
        ensures does { IfOk result (λ s. Does self.new s
            (Run (push_value (stands_as self.old.store v.0) (core self.old)))) }
        ensures on { IfOk result (λ s. s ≡ On) }
    {
        self.cut_stacks();
        let step = self.push_here(v)?;
        Ok(step)
    }

    #[inline(always)]
    fn push_here(&mut self, v: Value) -> Result<Step, Memory>
        requires sound { Sound self.old }
        requires within { v.0 < length self.old.store }
        ensures does { IfOk result (λ s. Does self.new s
            (Run (push_value (stands_as self.old.store v.0) (core self.old)))) }
        ensures on { IfOk result (λ s. s ≡ On) }
    {
        self.at.stack = self.stacks.push(v, self.at.stack)?;
        Ok(Step::On)
    }

    /// Pushes the value of a new node on the stack.
    #[inline(always)]
    pub fn push_node(&mut self, node: Node) -> Result<Step, Memory>
        requires sound { Sound self.old }
        requires parts { Below (length self.old.store) node }
        ensures does { IfOk result (λ s. Does self.new s
            (Run (push_value (node_value (values self.old.store) node) (core self.old)))) }
        ensures on { IfOk result (λ s. s ≡ On) }
    {
        let v = self.add(node)?;
        self.push(v)
    }

    /// The newest value of a stack, and the number of the rest.
    #[inline(always)]
    pub fn newest(&self, stack: usize) -> Option<(Value, usize)>
        requires sound { Sound self.now }
        requires within { stack < length self.now.stacks }
        ensures { MatchOption result (newest (stack_at self.now stack) ≡ None)
            (λ p. (p.0.0 < length self.now.store) × (p.1 < length self.now.stacks) ×
            (newest (stack_at self.now stack) ≡ Some
            (stands_as self.now.store p.0.0, stack_at self.now p.1))) }
    {
        self.stacks.top(stack)
    }
}

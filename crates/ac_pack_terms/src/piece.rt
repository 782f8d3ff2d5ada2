// What is still to be visited.

ghost use Rattle.std.specs.Prelude.{◌≡◌, ◌+◌, get_or, IfOk};

use ac_code::{CodeTable, Variables};
use ac_terms::{Arm, Env, Home, PVal, Pat, Term};
use ac_types::{Memory, Ty};
use ac_values::{Store, Value};

/// Where values stand, and how definitions are numbered.
#[derive(Clone, Copy)]
pub struct PackContext<'a> {
    /// The definitions.
    pub env: &'a Env,
    /// The blocks of functions.
    pub table: &'a CodeTable,
    /// The values.
    pub store: &'a Store,
    /// The number that is written for each definition; behind the last, 0.
    pub numbers: &'a [u16],
    /// The type `int`, which a variable has whose type isn't kept.
    pub int: &'a Ty,
}

/// What stands around a term: the values that its function has captured, and the binders between.
#[derive(Clone, Copy)]
pub struct Around<'a> {
    /// The function's home.
    pub home: Home,
    /// The list of the captured values; there is none around a function of a packed value.
    pub held: Option<Value>,
    /// Their types.
    pub context: Variables<'a>,
    /// How many variables are bound between the function's outside and the term.
    pub binders: usize,
}

/// A part that is still to be visited, or parts side by side, with how deep the part around them
/// nests.
#[derive(Clone, Copy)]
pub enum Piece<'a> {
    /// A type.
    Type(&'a Ty),
    /// A pattern.
    Pattern(&'a Pat, u32),
    /// Patterns side by side.
    Patterns(&'a [Pat], u32),
    /// A term.
    Term(&'a Term, Around<'a>, u32),
    /// Terms side by side.
    Terms(&'a [Term], Around<'a>, u32),
    /// Arms behind their count.
    Cases(&'a [Arm], Around<'a>, u32),
    /// Arms.
    Arms(&'a [Arm], Around<'a>, u32),
    /// A packed value at a type.
    Packed(&'a PVal, &'a Ty, u32),
    /// The parts of a packed tuple at their types.
    PackedParts(&'a [PVal], &'a [Ty], u32),
    /// The items of a packed list at their type.
    PackedItems(&'a [PVal], &'a Ty, u32),
    /// A value of the store at a type.
    Held(Value, &'a Ty, u32),
    /// The parts of a tuple of the store at their types.
    HeldParts(&'a [Value], &'a [Ty], u32),
    /// The items of a list of the store at their type.
    HeldItems(Value, &'a Ty, u32),
}

impl<'a> PackContext<'a> {
    /// The number that is written for a definition.
    pub fn number(&self, entry: u32) -> u16
        ensures { result ≡ get_or self.now.numbers.now entry 0 }
    {
        self.numbers.get(entry as usize).copied().unwrap_or(0)
    }

    /// The number that is written for a home: one more.
    pub fn home_number(&self, entry: u32) -> Result<u16, Memory>
        ensures { IfOk result (λ n. n ≡ get_or self.now.numbers.now entry 0 + 1) }
    {
        self.number(entry).checked_add(1).ok_or(Memory)
    }
}

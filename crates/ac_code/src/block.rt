// Blocks of instructions.

use crate::context::Context;
use crate::instr::Instr;
use ac_terms::{Home, Term};
use ac_types::Many;

/// A block of code.
pub struct Block {
    pub home: Home,
    /// The lambda that the block was made from.
    pub lambda: Option<Term>,
    /// The types of the variables around that lambda.
    pub context: Context,
    pub instrs: Many<Instr>,
}

impl Drop for Block {
    fn drop(self) {
        let Block {
            home: _,
            lambda: _,
            context: _,
            instrs: _,
        } = self;
    }
}

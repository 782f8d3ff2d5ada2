//! Stack code: instructions, blocks, and the table of all blocks.
#![tactic(auto)]

mod block;
mod cases;
mod choice;
mod context;
mod instr;
mod ops;
mod prepared;
mod shared;
mod table;

pub use block::Block;
pub use context::{Context, Variables};
pub use instr::{CodeId, Instr};
pub use ops::{Arithmetic, Comparison, Op, Operand, Operands, Plain};
pub use shared::Shared;
pub use table::CodeTable;

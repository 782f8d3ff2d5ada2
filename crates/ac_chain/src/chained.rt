// What a chain comes to.

use ac_load::Refusal;
use ac_run::RunEnd;
use ac_types::{Many, Memory, Text};

/// What a chain comes to.
#[derive(Drop)]
pub struct Chained {
    /// A part for each program, in their order.
    pub parts: Many<ChainPart>,
}

/// What a program of a chain comes to.
#[derive(Drop)]
pub struct ChainPart {
    /// How its run has ended: `Finished`, `Uncaught` or `Spent`.
    pub end: RunEnd,
    /// The frames that it sent.
    pub sent: Text,
    /// For each string that it unmarshalled, accepted or not, in their order: whether a marshal of
    /// the chain made it before.
    pub native: Many<bool>,
}

/// Why a chain comes to nothing. Programs and entries are counted from 0.
#[derive(Clone, Copy, Debug, PartialEq, Eq)]
pub enum ChainFault {
    /// The first program that doesn't load, and why: never for want of memory.
    Refused {
        program: u32,
        refusal: Refusal,
    },
    /// All programs load, and two entries of two programs have one name and two texts: the first
    /// two in the order of these numbers, `program1` below `program2`.
    Clash {
        program1: u32,
        entry1: u32,
        program2: u32,
        entry2: u32,
    },
    /// A write to the console failed.
    WriteFault,
    /// Memory ran out.
    Memory,
}

impl From<Memory> for ChainFault {
    ghost use Rattle.std.specs.Prelude.{◌≡◌};
    ghost use Rattle.ac_chain.specs.declared.chained.ChainFault.TheVariants as fault;

    ghost from_gives = { λ _ e. e ≡ fault.Memory };

    fn from(_e: Memory) -> ChainFault {
        ChainFault::Memory
    }
}

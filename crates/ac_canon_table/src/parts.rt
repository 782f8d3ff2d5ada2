// The parts of definitions that were read, from the end of a line on: of each kind the leftmost on
// top.

use ac_table_pile::Pile;
use ac_terms::Field;
use ac_types::{Atom, Constraint, Range, Resolve, Sig, SigType, TyField, Version};
use std::alloc::Global;

/// What is still to be taken by a form to the left.
pub struct Parts {
    pub pile: Pile,
    pub sig_types: Vec<SigType>,
    pub typed: Vec<TyField>,
    pub sigs: Vec<Sig>,
    pub atoms: Vec<Atom>,
    pub versions: Vec<Version>,
    pub ranges: Vec<Range>,
    pub constraints: Vec<Constraint>,
    pub resolves: Vec<Resolve>,
    pub fields: Vec<Field>,
}

impl Parts {
    /// No parts.
    pub fn new(alloc: Global) -> Parts {
        Parts {
            pile: Pile::new(alloc),
            sig_types: Vec::new(alloc),
            typed: Vec::new(alloc),
            sigs: Vec::new(alloc),
            atoms: Vec::new(alloc),
            versions: Vec::new(alloc),
            ranges: Vec::new(alloc),
            constraints: Vec::new(alloc),
            resolves: Vec::new(alloc),
            fields: Vec::new(alloc),
        }
    }
}

impl Drop for Parts {
    fn drop(self) {
        let Parts {
            pile: _,
            sig_types: _,
            typed: _,
            sigs: _,
            atoms: _,
            versions: _,
            ranges: _,
            constraints: _,
            resolves: _,
            fields: _,
        } = self;
    }
}

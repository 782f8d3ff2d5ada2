// Copies of terms and packed values with the numbers of a list.

ghost use Rattle.std.specs.Prelude.{◌≡◌, IfOk};
ghost use Rattle.ac_terms.specs.Read.{expr_of, value_of};
ghost use Rattle.ac_terms.specs.Renumbered.{renumbered, value_renumbered};
ghost use Rattle.ac_terms_renumber.specs.Numbers.{number_for};

use ac_terms::{Copier, Numbering, PVal, Term};
use ac_types::Memory;
use std::alloc::Global;

// The numbers of a list, each for its place, and 0 for the places behind its end.
#[derive(Clone, Copy)]
struct Listed<'a> {
    numbers: &'a [u32],
}

impl<'a> Numbering for Listed<'a> {
    ghost stands_for = { λ s. number_for s.numbers.now };

    fn number(&self, k: u32) -> u32 {
        match self.numbers.get(k as usize) {
            None => 0,
            Some(n) => *n,
        }
    }
}

/// A copy of a term, in which each reference and each home has the number that the list has at its
/// place.
pub fn term_renumbered(alloc: Global, term: &Term, numbers: &[u32]) -> Result<Term, Memory>
    ensures { IfOk result (λ t. expr_of t ≡ renumbered (number_for numbers.now)
        (expr_of term.now)) }
{
    let by = Listed { numbers };
    Copier { alloc, by }.term(term)
}

/// A copy of a packed value, in which each reference and each home has the number that the list has
/// at its place.
pub fn value_renumbered(alloc: Global, value: &PVal, numbers: &[u32]) -> Result<PVal, Memory>
    ensures { IfOk result (λ v. value_of v ≡ value_renumbered (number_for numbers.now)
        (value_of value.now)) }
{
    let by = Listed { numbers };
    Copier { alloc, by }.value(value)
}

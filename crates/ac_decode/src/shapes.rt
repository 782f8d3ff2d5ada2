// Which terms travel as functions.

ghost use Rattle.std.specs.Prelude.{◌≡◌, Some};
ghost use Rattle.ac_types.specs.Types.{Bytes};
ghost use Rattle.ac_types.specs.Partial.{given};
ghost use Rattle.ac_terms.specs.Read.{expr_of};
ghost use Rattle.ac_terms.specs.Bounds.{is_lambda};
ghost use Rattle.ac_decode_pieces.specs.Readers.{ReadsAs};

use ac_decode_pieces::PieceFault;
use ac_terms::Term;
use ac_types::Boxed;
use std::alloc::Global;

/// The term in a box, where it is a lambda; it stands at that place.
pub fn lambda(alloc: Global, at: usize, term: Term) -> Result<Boxed<Term>, PieceFault>
    ensures { (left : Bytes) → ReadsAs expr_of result
        (given (is_lambda (expr_of term)) (Some (expr_of term, left))) left }
{
    if term.is_lambda() {
        Ok(Boxed::new(alloc, term)?)
    } else {
        drop(term);
        Err(PieceFault::Misfit { at })
    }
}

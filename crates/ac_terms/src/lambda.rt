// Which terms are lambdas.

ghost use Rattle.std.specs.Prelude.{◌≡◌};
ghost use Rattle.ac_terms.specs.Bounds.{is_lambda, is_wanted};
ghost use Rattle.ac_terms.specs.Read.{expr_of};

use crate::term::Term;

impl Term {
    /// Whether this is a lambda or a recursive lambda.
    #[tactic(auto, using(crate::proofs::TermForms::either_wanted))]
    pub fn is_lambda(&self) -> bool
        ensures { result ≡ is_lambda (expr_of self.now) }
    {
        self.is_wanted(false) || self.is_wanted(true)
    }

    /// Whether this is a lambda, or a recursive one where that is wanted.
    #[tactic(auto, using(crate::proofs::TermForms::lambda_forms))]
    pub fn is_wanted(&self, recursive: bool) -> bool
        ensures { result ≡ is_wanted (expr_of self.now) recursive }
    {
        match self {
            Term::Lam(_, _) => !recursive,
            Term::Rec(_, _, _) => recursive,
            _ => false,
        }
    }
}

// Terms, made of the parts that were read.

use crate::pile::{Pile, several, two_boxed};
use ac_terms::{Arm, Term};
use ac_types::{Boxed, Many};

impl Pile {
    fn two_terms(&mut self) -> Option<(Boxed<Term>, Boxed<Term>)> {
        two_boxed(self.alloc, &mut self.terms)
    }

    fn parts(&mut self) -> Option<Many<Term>> {
        several(self.alloc, self.long(), &mut self.terms)
    }

    fn term_and_arms(&mut self) -> Option<(Boxed<Term>, Many<Arm>)> {
        let of = self.boxed_term()?;
        Some((of, several(self.alloc, self.long(), &mut self.arms)?))
    }

    /// The arm whose parts are on top.
    pub fn arm(&mut self, form: &str) -> Option<Arm> {
        if form != "arm" {
            return None;
        }
        let pat = self.pats.pop()?;
        let body = self.terms.pop()?;
        Some(Arm { pat, body })
    }

    /// The term of that form, whose parts are on top.
    pub fn term(&mut self, form: &str) -> Option<Term> {
        Some(match form {
            "Int" => Term::Int(self.number()),
            "Bool" => Term::Bool(self.truth()),
            "Str" => Term::Str(self.string()),
            "Unit" => Term::Unit,
            "Exn" => Term::ExnVal(self.bare_exn()?),
            "ExnOf" => Term::ExnOf(self.text_exn()?, self.boxed_term()?),
            "Tuple" => Term::Tuple(self.parts()?),
            "Nil" => Term::Nil(self.top_type()),
            "Empty" => Term::Empty(self.top_type()),
            "Present" => Term::Present(self.boxed_term()?),
            "Var" => Term::Var(self.short()),
            "Own" => Term::Own(self.short()),
            "Ref" => Term::Ref(self.long(), self.words.pop()?),
            "Seq" => Term::Seq(self.parts()?),
            "Prim" => Term::Prim(self.primitive()?, self.parts()?),
            _ => return self.joined(form),
        })
    }

    // The term of a form that joins terms with terms, types, arms or a value.
    fn joined(&mut self, form: &str) -> Option<Term> {
        Some(match form {
            "Cons" => {
                let (head, tail) = self.two_terms()?;
                Term::Cons(head, tail)
            }
            "Lam" => Term::Lam(self.top_type(), self.boxed_term()?),
            "Rec" => Term::Rec(self.top_type(), self.top_type(), self.boxed_term()?),
            "App" => {
                let (function, argument) = self.two_terms()?;
                Term::App(function, argument)
            }
            "Let" => {
                let ty = self.top_type();
                let (bound, body) = self.two_terms()?;
                Term::Let(ty, bound, body)
            }
            "If" => {
                let (test, so) = self.two_terms()?;
                Term::If(test, so, self.boxed_term()?)
            }
            "Match" => {
                let (of, arms) = self.term_and_arms()?;
                Term::Match(of, arms)
            }
            "Try" => {
                let (of, arms) = self.term_and_arms()?;
                Term::Try(of, arms)
            }
            "Raise" => Term::Raise(self.top_type(), self.boxed_term()?),
            "Marshal" => {
                let ty = self.top_type();
                let (mark, inner) = self.two_terms()?;
                Term::Marshal(ty, mark, inner)
            }
            "Unmarshal" => Term::Unmarshal(self.top_type(), self.boxed_term()?),
            "Val" => Term::Val(self.top_type(), self.values.pop()?),
            _ => return None,
        })
    }
}

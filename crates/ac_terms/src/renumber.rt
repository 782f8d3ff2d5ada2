// Copies of terms and packed values with other numbers for the definitions that they speak of.

ghost use Rattle.std.specs.Prelude.{◌≡◌, ℕ, IfOk, map};
ghost use Rattle.ac_terms.specs.Terms.{exprs, arms, pvalues};
ghost use Rattle.ac_terms.specs.Read.{expr_of, arm_of, value_of, home_of};
ghost use Rattle.ac_terms.specs.Renumbered.{home_by, renumbered, all_renumbered, arms_renumbered, value_renumbered, values_renumbered};

use crate::term::{Arm, Home, PVal, Term};
use ac_types::{Boxed, Many, Memory};
use std::alloc::Global;

/// Numbers that stand for those of definitions.
pub trait Numbering {
    /// The number that stands for another.
    ghost stands_for: { Self → ℕ → ℕ };

    /// The number that stands for another.
    fn number(&self, k: u32) -> u32
        ensures { result ≡ stands_for self.now k };
}

/// Makes copies in which each reference and each home has the number that stands for its own.
#[derive(Drop)]
pub struct Copier<N> {
    /// Where the copies are kept.
    pub alloc: Global,
    /// Which numbers stand for which.
    pub by: N,
}

impl<N: Numbering> Copier<N> {
    /// A copy of a term.
    #[cycle(renumber)]
    #[tactic(auto, using(crate::proofs::CopyLaws::term_laws))]
    pub fn term(&self, term: &Term) -> Result<Term, Memory>
        ensures { IfOk result (λ t. expr_of t ≡ renumbered (N.stands_for self.now.by)
            (expr_of term.now)) }
    {
        let alloc = self.alloc;
        match term {
            Term::Int(n) => Ok(Term::Int(*n)),
            Term::Bool(b) => Ok(Term::Bool(*b)),
            Term::Str(text) => Ok(Term::Str(text.copy(alloc)?)),
            Term::Unit => Ok(Term::Unit),
            Term::ExnVal(exn) => Ok(Term::ExnVal(*exn)),
            Term::ExnOf(exn, text) => Ok(Term::ExnOf(*exn, self.boxed(text)?)),
            Term::Tuple(parts) => Ok(Term::Tuple(self.terms(parts)?)),
            Term::Nil(ty) => Ok(Term::Nil(ty.copy(alloc)?)),
            Term::Empty(ty) => Ok(Term::Empty(ty.copy(alloc)?)),
            Term::Present(inner) => Ok(Term::Present(self.boxed(inner)?)),
            Term::Cons(head, tail) => Ok(Term::Cons(self.boxed(head)?, self.boxed(tail)?)),
            Term::Var(i) => Ok(Term::Var(*i)),
            Term::Own(i) => Ok(Term::Own(*i)),
            Term::Ref(k, field) => Ok(Term::Ref(self.by.number(*k), field.copy(alloc)?)),
            Term::Lam(ty, body) => Ok(Term::Lam(ty.copy(alloc)?, self.boxed(body)?)),
            Term::Rec(from, to, body) => Ok(Term::Rec(
                from.copy(alloc)?,
                to.copy(alloc)?,
                self.boxed(body)?,
            )),
            Term::App(f, a) => Ok(Term::App(self.boxed(f)?, self.boxed(a)?)),
            Term::Let(ty, e, b) => Ok(Term::Let(ty.copy(alloc)?, self.boxed(e)?, self.boxed(b)?)),
            Term::If(test, a, b) => Ok(Term::If(self.boxed(test)?, self.boxed(a)?, self.boxed(b)?)),
            Term::Seq(parts) => Ok(Term::Seq(self.terms(parts)?)),
            Term::Match(of, cases) => Ok(Term::Match(self.boxed(of)?, self.arms(cases)?)),
            Term::Try(of, cases) => Ok(Term::Try(self.boxed(of)?, self.arms(cases)?)),
            Term::Raise(ty, inner) => Ok(Term::Raise(ty.copy(alloc)?, self.boxed(inner)?)),
            Term::Prim(primitive, args) => Ok(Term::Prim(*primitive, self.terms(args)?)),
            Term::Marshal(ty, mark, value) => Ok(Term::Marshal(
                ty.copy(alloc)?,
                self.boxed(mark)?,
                self.boxed(value)?,
            )),
            Term::Unmarshal(ty, inner) => Ok(Term::Unmarshal(ty.copy(alloc)?, self.boxed(inner)?)),
            Term::Val(ty, value) => Ok(Term::Val(ty.copy(alloc)?, self.value(value)?)),
        }
    }

    // The same in a box.
    #[cycle(renumber)]
    fn boxed(&self, term: &Boxed<Term>) -> Result<Boxed<Term>, Memory>
        ensures { IfOk result (λ t. expr_of t ≡ renumbered (N.stands_for self.now.by)
            (expr_of term.now)) }
    {
        Boxed::new(self.alloc, self.term(term)?)
    }

    #[cycle(renumber)]
    fn terms(&self, all: &Many<Term>) -> Result<Many<Term>, Memory>
        ensures { IfOk result (λ ts. exprs (map expr_of ts) ≡ all_renumbered
            (N.stands_for self.now.by) (exprs (map expr_of all.now))) }
    {
        let mut found = Many::new(self.alloc);
        for term in all.as_slice() {
            let made = self.term(term)?;
            found.push(made)?;
        }
        Ok(found)
    }

    #[cycle(renumber)]
    fn arms(&self, cases: &Many<Arm>) -> Result<Many<Arm>, Memory>
        ensures { IfOk result (λ found. arms (map arm_of found) ≡ arms_renumbered
            (N.stands_for self.now.by) (arms (map arm_of cases.now))) }
    {
        let mut found = Many::new(self.alloc);
        for case in cases.as_slice() {
            let made = self.arm(case)?;
            found.push(made)?;
        }
        Ok(found)
    }

    #[cycle(renumber)]
    fn arm(&self, case: &Arm) -> Result<Arm, Memory>
        ensures { IfOk result (λ a. arm_of a ≡ (
          (arm_of case.now).0,
          renumbered (N.stands_for self.now.by) (arm_of case.now).1,
        )) }
    {
        let pat = case.pat.copy(self.alloc)?;
        let body = self.term(&case.body)?;
        Ok(Arm { pat, body })
    }

    /// A copy of a packed value.
    #[cycle(renumber)]
    #[tactic(auto, using(crate::proofs::ValueForms::value_forms))]
    pub fn value(&self, value: &PVal) -> Result<PVal, Memory>
        ensures { IfOk result (λ v. value_of v ≡ value_renumbered (N.stands_for self.now.by)
            (value_of value.now)) }
    {
        match value {
            PVal::Int(n) => Ok(PVal::Int(*n)),
            PVal::Bool(b) => Ok(PVal::Bool(*b)),
            PVal::Str(text) => Ok(PVal::Str(text.copy(self.alloc)?)),
            PVal::Unit => Ok(PVal::Unit),
            PVal::Exn(exn) => Ok(PVal::Exn(exn.copy(self.alloc)?)),
            PVal::Tuple(parts) => Ok(PVal::Tuple(self.values(parts)?)),
            PVal::List(parts) => Ok(PVal::List(self.values(parts)?)),
            PVal::Absent => Ok(PVal::Absent),
            PVal::Present(inner) => Ok(PVal::Present(self.boxed_value(inner)?)),
            PVal::Fun(home, term) => Ok(PVal::Fun(self.home(*home), self.boxed(term)?)),
        }
    }

    // The same in a box.
    #[cycle(renumber)]
    fn boxed_value(&self, value: &Boxed<PVal>) -> Result<Boxed<PVal>, Memory>
        ensures { IfOk result (λ v. value_of v ≡ value_renumbered (N.stands_for self.now.by)
            (value_of value.now)) }
    {
        Boxed::new(self.alloc, self.value(value)?)
    }

    #[cycle(renumber)]
    fn values(&self, all: &Many<PVal>) -> Result<Many<PVal>, Memory>
        ensures { IfOk result (λ vs. pvalues (map value_of vs) ≡ values_renumbered
            (N.stands_for self.now.by) (pvalues (map value_of all.now))) }
    {
        let mut found = Many::new(self.alloc);
        for value in all.as_slice() {
            let made = self.value(value)?;
            found.push(made)?;
        }
        Ok(found)
    }

    fn home(&self, home: Home) -> Home
        ensures { home_of result ≡ home_by (N.stands_for self.now.by) (home_of home) }
    {
        match home {
            Home::Main => Home::Main,
            Home::In(k) => Home::In(self.by.number(k)),
        }
    }
}

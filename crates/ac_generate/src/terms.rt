// The code of terms, arms and packed values.

ghost use Rattle.std.specs.Prelude.{◌≡◌, ◌∷◌, map, OnOk, IfOk};
ghost use Rattle.ac_types.specs.Types.{TFun};
ghost use Rattle.ac_types.specs.ReadTypes.{typ_of};
ghost use Rattle.ac_terms.specs.Terms.{exprs, arms, pvalues, KFun};
ghost use Rattle.ac_terms.specs.Read.{home_of, expr_of, arm_of, value_of};
ghost use Rattle.ac_code.specs.Contexts.{context_of};
ghost use Rattle.ac_generate.specs.inner.Drafts.{draft_of, address, count, block_begun, block_ended, wrote, wrote_all, wrote_seq, wrote_arm, wrote_arms, arm_end, ends, wrote_value, wrote_values};

use crate::scope::{pattern_types, with_all, with_function, with_one};
use crate::writer::Writer;
use ac_code::{CodeId, Context, Instr};
use ac_terms::{Arm, Home, PVal, Term};
use ac_types::{ExnKind, Memory, Ty};

impl Writer {
    /// Writes the code of a term, and the blocks of its lambdas.
    #[cycle(term)]
    #[tactic(auto, using(crate::proofs::TermLaws::term_laws))]
    pub fn term(&mut self, home: Home, term: &Term, scope: &Context) -> Result<(), Memory>
        ensures { OnOk result (draft_of self.new ≡ wrote (home_of home) (context_of scope.now)
            (expr_of term.now) (draft_of self.old)) }
    {
        match term {
            Term::Int(n) => self.put(Instr::PushInt(*n)),
            Term::Bool(b) => self.put(Instr::PushBool(*b)),
            Term::Str(text) => self.text(text),
            Term::Unit => self.put(Instr::PushUnit),
            Term::ExnVal(exn) => self.put(Instr::MakeExn(ExnKind::Bare(*exn))),
            Term::ExnOf(exn, text) => {
                self.term(home, text, scope)?;
                self.put(Instr::MakeExn(ExnKind::Text(*exn)))
            }
            Term::Tuple(parts) => {
                self.all(home, parts.as_slice(), scope)?;
                self.put(Instr::MakeTuple(parts.len()))
            }
            Term::Nil(_) => self.put(Instr::PushNil),
            Term::Empty(_) => self.put(Instr::PushNone),
            Term::Present(inner) => {
                self.term(home, inner, scope)?;
                self.put(Instr::MakeSome)
            }
            Term::Cons(head, tail) => {
                self.term(home, head, scope)?;
                self.term(home, tail, scope)?;
                self.put(Instr::MakeCons)
            }
            Term::Var(i) => self.put(Instr::Var(*i)),
            Term::Own(field) => self.put(Instr::Own(*field)),
            Term::Ref(entry, field) => self.reference(*entry, field),
            Term::Lam(ty, body) => {
                let id = self.lambda(home, body, ty, scope, term)?;
                self.put(Instr::Closure(id))
            }
            Term::Rec(from, to, body) => {
                let id = self.recursive(home, body, from, to, scope, term)?;
                self.put(Instr::RecClosure(id))
            }
            Term::App(function, argument) => {
                self.term(home, function, scope)?;
                self.term(home, argument, scope)?;
                self.put(Instr::Apply)
            }
            Term::Let(ty, bound, body) => {
                self.term(home, bound, scope)?;
                self.put(Instr::Bind)?;
                self.inside(home, body, ty, scope)?;
                self.put(Instr::Unbind(1))
            }
            // an open jump gets its address once what it skips stands there
            Term::If(test, so, otherwise) => {
                self.term(home, test, scope)?;
                let to_second = self.hold()?;
                self.term(home, so, scope)?;
                let to_end = self.hold()?;
                let second = self.address();
                self.term(home, otherwise, scope)?;
                let end = self.address();
                self.set(to_second, Instr::JumpIfNot(second));
                self.set(to_end, Instr::Jump(end));
                Ok(())
            }
            Term::Seq(parts) => self.parts(home, parts.as_slice(), scope),
            Term::Match(of, cases) => {
                self.term(home, of, scope)?;
                let ends = self.arms(home, cases.as_slice(), scope)?;
                self.put(Instr::NoMatch)?;
                self.land(ends.as_slice());
                Ok(())
            }
            Term::Try(of, cases) => {
                let to_handler = self.hold()?;
                self.term(home, of, scope)?;
                self.put(Instr::EndTry)?;
                let to_end = self.hold()?;
                let handler = self.address();
                let ends = self.arms(home, cases.as_slice(), scope)?;
                self.put(Instr::Raise)?;
                let end = self.address();
                self.land(ends.as_slice());
                self.set(to_end, Instr::Jump(end));
                self.set(to_handler, Instr::Try(handler));
                Ok(())
            }
            Term::Raise(_, inner) => {
                self.term(home, inner, scope)?;
                self.put(Instr::Raise)
            }
            Term::Prim(primitive, args) => {
                self.all(home, args.as_slice(), scope)?;
                self.put(Instr::Prim(*primitive))
            }
            Term::Marshal(ty, mark, inner) => {
                self.term(home, mark, scope)?;
                self.term(home, inner, scope)?;
                self.marshal(ty)
            }
            Term::Unmarshal(ty, inner) => {
                self.term(home, inner, scope)?;
                self.unmarshal(ty)
            }
            Term::Val(_, value) => self.value(value),
        }
    }

    // Writes the code of a term inside of a variable more.
    #[cycle(term)]
    #[tactic(auto)]
    fn inside(&mut self, home: Home, body: &Term, ty: &Ty, scope: &Context) -> Result<(), Memory>
        ensures { OnOk result (draft_of self.new ≡ wrote (home_of home)
            (typ_of ty.now ∷ context_of scope.now) (expr_of body.now) (draft_of self.old)) }
    {
        let inner = with_one(self.alloc, scope, ty)?;
        let written = self.term(home, body, &inner);
        drop(inner);
        written
    }

    // Writes the block of a lambda, and gives its number.
    #[cycle(term)]
    #[tactic(auto)]
    fn lambda(
        &mut self,
        home: Home,
        body: &Term,
        ty: &Ty,
        scope: &Context,
        lambda: &Term,
    ) -> Result<CodeId, Memory>
        ensures number { IfOk result (λ id. id.0 ≡ count
            (wrote (home_of home) (typ_of ty.now ∷ context_of scope.now) (expr_of body.now)
            (block_begun (draft_of self.old)))) }
        ensures ok { OnOk result (draft_of self.new ≡ block_ended (home_of home)
            (expr_of lambda.now) (context_of scope.now) (draft_of self.old).instrs
            (wrote (home_of home) (typ_of ty.now ∷ context_of scope.now) (expr_of body.now)
            (block_begun (draft_of self.old)))) }
    {
        let before = self.begin();
        self.inside(home, body, ty, scope)?;
        self.end(before, home, scope, lambda)
    }

    // The same of a recursive lambda, whose body sees its argument and itself.
    #[cycle(term)]
    #[tactic(auto)]
    fn recursive(
        &mut self,
        home: Home,
        body: &Term,
        from: &Ty,
        to: &Ty,
        scope: &Context,
        lambda: &Term,
    ) -> Result<CodeId, Memory>
        ensures number { IfOk result (λ id. id.0 ≡ count
            (wrote (home_of home) (typ_of from.now ∷ TFun (typ_of from.now)
            (typ_of to.now) ∷ context_of scope.now) (expr_of body.now)
            (block_begun (draft_of self.old)))) }
        ensures ok { OnOk result (draft_of self.new ≡ block_ended (home_of home)
            (expr_of lambda.now) (context_of scope.now) (draft_of self.old).instrs
            (wrote (home_of home) (typ_of from.now ∷ TFun (typ_of from.now)
            (typ_of to.now) ∷ context_of scope.now) (expr_of body.now)
            (block_begun (draft_of self.old)))) }
    {
        let own = with_function(self.alloc, scope, from, to)?;
        let before = self.begin();
        self.inside(home, body, from, &own)?;
        self.end(before, home, scope, lambda)
    }

    // Writes the code of each term.
    #[cycle(term)]
    #[tactic(auto, using(crate::proofs::TermLaws::all_laws))]
    fn all(&mut self, home: Home, terms: &[Term], scope: &Context) -> Result<(), Memory>
        ensures { OnOk result (draft_of self.new ≡ wrote_all (home_of home) (context_of scope.now)
            (exprs (map expr_of terms.now)) (draft_of self.old)) }
    {
        for term in terms {
            self.term(home, term, scope)?;
        }
        Ok(())
    }

    // Writes the code of a sequence.
    #[cycle(term)]
    #[tactic(auto, using(crate::proofs::TermLaws::all_laws))]
    fn parts(&mut self, home: Home, parts: &[Term], scope: &Context) -> Result<(), Memory>
        ensures { OnOk result (draft_of self.new ≡ wrote_seq (home_of home) (context_of scope.now)
            (exprs (map expr_of parts.now)) (draft_of self.old)) }
    {
        if parts.is_empty() {
            return Ok(());
        }
        self.term(home, &parts[0], scope)?;
        for part in &parts[1..] {
            self.put(Instr::Drop)?;
            self.term(home, part, scope)?;
        }
        Ok(())
    }

    // Writes the code of some arms, and gives the addresses of their jumps to the end.
    #[cycle(term)]
    #[tactic(auto, using(crate::proofs::TermLaws::arm_laws))]
    fn arms(&mut self, home: Home, cases: &[Arm], scope: &Context) -> Result<Vec<usize>, Memory>
        ensures ok { OnOk result (draft_of self.new ≡ wrote_arms (home_of home) (context_of scope.now)
            (arms (map arm_of cases.now)) (draft_of self.old)) }
        ensures addresses { IfOk result (λ v. v.items ≡ ends (arms (map arm_of cases.now))
            (address (draft_of self.old))) }
    {
        let mut ends = Vec::new(self.alloc);
        for case in cases {
            let end = self.arm(home, case, scope)?;
            ends.push(end)?;
        }
        Ok(ends)
    }

    // Writes the code of an arm, and gives the address of its jump to the end.
    #[cycle(term)]
    #[tactic(auto, using(crate::proofs::TermLaws::arm_laws))]
    fn arm(&mut self, home: Home, case: &Arm, scope: &Context) -> Result<usize, Memory>
        ensures ok { OnOk result (draft_of self.new ≡ wrote_arm (home_of home) (context_of scope.now)
            (arm_of case.now).0 (arm_of case.now).1 (draft_of self.old)) }
        ensures address { IfOk result (λ at. at ≡ arm_end (arm_of case.now).0 (arm_of case.now).1
            (address (draft_of self.old))) }
    {
        let bound = pattern_types(self.alloc, &case.pat)?;
        let count = bound.len();
        let inner = with_all(self.alloc, scope, bound)?;
        let test = self.hold()?;
        self.term(home, &case.body, &inner)?;
        self.unbind(count)?;
        let end = self.hold()?;
        self.test(test, &case.pat)?;
        Ok(end)
    }

    /// Writes what builds a packed value, and the blocks of its functions.
    #[cycle(term)]
    #[tactic(auto, using(crate::proofs::TermLaws::value_laws))]
    pub fn value(&mut self, value: &PVal) -> Result<(), Memory>
        ensures { OnOk result (draft_of self.new ≡ wrote_value (value_of value.now)
            (draft_of self.old)) }
    {
        match value {
            PVal::Int(n) => self.put(Instr::PushInt(*n)),
            PVal::Bool(b) => self.put(Instr::PushBool(*b)),
            PVal::Str(text) => self.text(text),
            PVal::Unit => self.put(Instr::PushUnit),
            PVal::Exn(exn) => self.exception(exn),
            PVal::Tuple(parts) => {
                self.values(parts.as_slice())?;
                self.put(Instr::MakeTuple(parts.len()))
            }
            PVal::List(parts) => {
                self.values(parts.as_slice())?;
                self.put(Instr::PushNil)?;
                self.conses(parts.len())
            }
            PVal::Absent => self.put(Instr::PushNone),
            PVal::Present(inner) => {
                self.value(inner)?;
                self.put(Instr::MakeSome)
            }
            PVal::Fun(home, function) => self.function(*home, function),
        }
    }

    // Writes the code of each packed value.
    #[cycle(term)]
    #[tactic(auto, using(crate::proofs::TermLaws::value_laws))]
    fn values(&mut self, values: &[PVal]) -> Result<(), Memory>
        ensures { OnOk result (draft_of self.new ≡ wrote_values (pvalues (map value_of values.now))
            (draft_of self.old)) }
    {
        for value in values {
            self.value(value)?;
        }
        Ok(())
    }

    // Writes the block of a packed function, around which there is no variable.
    #[cycle(term)]
    #[tactic(auto, using(crate::proofs::TermLaws::value_laws))]
    fn function(&mut self, home: Home, function: &Term) -> Result<(), Memory>
        ensures { OnOk result (draft_of self.new ≡ wrote_value
            (KFun (home_of home) (expr_of function.now)) (draft_of self.old)) }
    {
        let outside = Context::Empty;
        match function {
            Term::Lam(ty, body) => {
                let id = self.lambda(home, body, ty, &outside, function)?;
                self.put(Instr::Constant(id))
            }
            Term::Rec(from, to, body) => {
                let id = self.recursive(home, body, from, to, &outside, function)?;
                self.put(Instr::RecConstant(id))
            }
            _ => Ok(()),
        }
    }
}

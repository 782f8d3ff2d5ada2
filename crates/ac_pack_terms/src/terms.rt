// The visit of terms.

ghost use Rattle.std.specs.Prelude.{◌≡◌, ◌++◌, ◌∷◌, [], suc, map};
ghost use Rattle.ac_types.specs.Types.{TInt};
ghost use Rattle.ac_types.specs.ReadTypes.{typ_of};
ghost use Rattle.ac_terms.specs.Terms.{Var, Lam, Rec, Let, If, Marshal, exprs, arms};
ghost use Rattle.ac_terms.specs.Read.{expr_of, arm_of};
ghost use Rattle.ac_terms.specs.Heads.{next_head, type_heads};
ghost use Rattle.ac_terms.specs.Parts.{OfType, all_term_parts, arm_parts};
ghost use Rattle.ac_pack_terms.specs.Pieces.{term_at, terms_at, arms_at, terms_written, arms_written_at, cases_written, spoken_at};
ghost use Rattle.ac_pack_terms.specs.inner.Goes.{Visits, VisitsTerm};
ghost use Rattle.ac_pack_terms.specs.inner.Written.{written_in, spoken_in};

use crate::around::Slot;
use crate::piece::{Around, Piece};
use crate::shapes::binders;
use crate::walk::Walk;
use ac_pack_heads::{Stop, deeper};
use ac_terms::{Arm, Term, tags};
use ac_types::Ty;

impl<'a> Walk<'a> {
    /// Visits a term inside a part that nests so deep.
    #[tactic(auto, using(crate::proofs::FormLaws::term_laws))]
    pub fn term(&mut self, t: &'a Term, around: Around<'a>, outer: u32) -> Result<(), Stop>
        requires { typ_of self.old.site.int.now ≡ TInt }
        ensures { VisitsTerm result (suc outer)
            (term_at self.old.site around.entry (expr_of t.now)) self.old self.new }
    {
        let site = self.site;
        let d = deeper(outer)?;
        match t {
            Term::Int(n) => self.int(d, tags::TERM_INT, *n),
            Term::Bool(b) => self.truth(d, tags::TERM_BOOL, *b),
            Term::Str(text) => self.string(d, &[tags::TERM_STR], text.as_slice()),
            Term::Unit => self.head(d, &[tags::TERM_UNIT]),
            Term::ExnVal(exn) => self.head(d, &[tags::TERM_EXN, exn.number()]),
            Term::ExnOf(exn, inner) => {
                self.one_term(d, &[tags::TERM_EXN, exn.number()], inner, &around)
            }
            Term::Tuple(parts) => {
                let all = Piece::Terms(parts.as_slice(), around, d);
                self.few(d, tags::TERM_TUPLE, parts.len(), all)
            }
            Term::Nil(ty) => self.one(d, &[tags::TERM_NIL], Piece::Type(ty)),
            Term::Empty(ty) => self.one(d, &[tags::TERM_EMPTY], Piece::Type(ty)),
            Term::Present(inner) => self.one_term(d, &[tags::TERM_PRESENT], inner, &around),
            Term::Cons(head, tail) => self.two_terms(d, tags::TERM_CONS, head, tail, &around),
            Term::Var(i) => self.variable(*i, around, d),
            Term::Own(field) => self.short(d, tags::TERM_OWN, *field),
            Term::Ref(entry, field) => {
                let number = site.number(*entry);
                self.reference(d, *entry, number, field)
            },
            Term::Lam(ty, body) => self.lambda(d, ty, body, &around),
            Term::Rec(from, to, body) => self.recursive(d, from, to, body, &around),
            Term::App(f, a) => self.two_terms(d, tags::TERM_APP, f, a, &around),
            Term::Let(ty, bound, body) => self.local(d, ty, bound, body, &around),
            Term::If(test, so, otherwise) => self.choice(d, test, so, otherwise, &around),
            Term::Seq(parts) => {
                let all = Piece::Terms(parts.as_slice(), around, d);
                self.many(d, tags::TERM_SEQ, parts.len(), all)
            }
            Term::Match(of, cases) => self.with_cases(
                d,
                tags::TERM_MATCH,
                of,
                cases.as_slice(),
                &around,
            ),
            Term::Try(of, cases) => self.with_cases(
                d,
                tags::TERM_TRY,
                of,
                cases.as_slice(),
                &around,
            ),
            Term::Raise(ty, inner) => self.typed_term(d, tags::TERM_RAISE, ty, inner, &around),
            Term::Prim(primitive, args) => {
                let args = Piece::Terms(args.as_slice(), around, d);
                self.one(d, &[tags::TERM_PRIM, primitive.number()], args)
            }
            Term::Marshal(ty, mark, inner) => self.marshal(d, ty, mark, inner, &around),
            Term::Unmarshal(ty, inner) => self.typed_term(
                d,
                tags::TERM_UNMARSHAL,
                ty,
                inner,
                &around,
            ),
            Term::Val(ty, value) => {
                self.two(
                    d,
                    &[tags::TERM_VAL],
                    Piece::Type(ty),
                    Piece::Packed(value, ty, d),
                )
            }
        }
    }

    // A head, and then a term.
    fn one_term(
        &mut self,
        d: u32,
        bytes: &[u8],
        t: &'a Term,
        around: &Around<'a>,
    ) -> Result<(), Stop>
        ensures { Visits result
            (next_head d bytes.now ∷ written_in self.old.site around.now d t.now)
            (spoken_in self.old.site around.now t.now) self.old self.new }
    {
        self.one(d, bytes, Piece::Term(t, *around, d))
    }

    // A head, and then two terms.
    fn two_terms(
        &mut self,
        d: u32,
        tag: u8,
        first: &'a Term,
        second: &'a Term,
        around: &Around<'a>,
    ) -> Result<(), Stop>
        ensures { Visits result (next_head d (tag ∷ []) ∷
            written_in self.old.site around.now d first.now ++
            written_in self.old.site around.now d second.now)
            (spoken_in self.old.site around.now first.now ++
            spoken_in self.old.site around.now second.now) self.old self.new }
    {
        let first = Piece::Term(first, *around, d);
        self.two(d, &[tag], first, Piece::Term(second, *around, d))
    }

    // A head, and then a type and a term.
    fn typed_term(
        &mut self,
        d: u32,
        tag: u8,
        ty: &'a Ty,
        t: &'a Term,
        around: &Around<'a>,
    ) -> Result<(), Stop>
        ensures { Visits result (next_head d (tag ∷ []) ∷ type_heads (typ_of ty.now) ++
            written_in self.old.site around.now d t.now)
            (spoken_at self.old.site (OfType (typ_of ty.now) ∷ []) ++
            spoken_in self.old.site around.now t.now) self.old self.new }
    {
        self.two(d, &[tag], Piece::Type(ty), Piece::Term(t, *around, d))
    }

    // A head, and then a term and arms.
    fn with_cases(
        &mut self,
        d: u32,
        tag: u8,
        of: &'a Term,
        cases: &'a [Arm],
        around: &Around<'a>,
    ) -> Result<(), Stop>
        ensures { Visits result (next_head d (tag ∷ []) ∷
            written_in self.old.site around.now d of.now ++
            cases_written self.old.site (suc d)
            (arms_at self.old.site around.now (arms (map arm_of cases.now))))
            (spoken_in self.old.site around.now of.now ++ spoken_at self.old.site (arm_parts
            (arms_at self.old.site around.now (arms (map arm_of cases.now))))) self.old self.new }
    {
        let of = Piece::Term(of, *around, d);
        self.two(d, &[tag], of, Piece::Cases(cases, *around, d))
    }

    // A function.
    #[tactic(auto, using(crate::proofs::FormLaws::case_laws))]
    fn lambda(
        &mut self,
        d: u32,
        ty: &'a Ty,
        body: &'a Term,
        around: &Around<'a>,
    ) -> Result<(), Stop>
        ensures { VisitsTerm result d (term_at self.old.site around.now
            (Lam (typ_of ty.now) (expr_of body.now))) self.old self.new }
    {
        let within = around.under(1)?;
        self.typed_term(d, tags::TERM_LAM, ty, body, &within)
    }

    // A recursive function.
    #[tactic(auto, using(crate::proofs::FormLaws::case_laws))]
    fn recursive(
        &mut self,
        d: u32,
        from: &'a Ty,
        to: &'a Ty,
        body: &'a Term,
        around: &Around<'a>,
    ) -> Result<(), Stop>
        ensures { VisitsTerm result d (term_at self.old.site around.now
            (Rec (typ_of from.now) (typ_of to.now) (expr_of body.now))) self.old self.new }
    {
        let body = Piece::Term(body, around.under(2)?, d);
        self.three(
            d,
            &[tags::TERM_REC],
            Piece::Type(from),
            Piece::Type(to),
            body,
        )
    }

    // A term with a variable of its own.
    #[tactic(auto, using(crate::proofs::FormLaws::term_laws))]
    fn local(
        &mut self,
        d: u32,
        ty: &'a Ty,
        bound: &'a Term,
        body: &'a Term,
        around: &Around<'a>,
    ) -> Result<(), Stop>
        ensures { VisitsTerm result d (term_at self.old.site around.now
            (Let (typ_of ty.now) (expr_of bound.now) (expr_of body.now))) self.old self.new }
    {
        let bound = Piece::Term(bound, *around, d);
        let body = Piece::Term(body, around.under(1)?, d);
        self.three(d, &[tags::TERM_LET], Piece::Type(ty), bound, body)
    }

    // A choice.
    fn choice(
        &mut self,
        d: u32,
        test: &'a Term,
        so: &'a Term,
        otherwise: &'a Term,
        around: &Around<'a>,
    ) -> Result<(), Stop>
        ensures { VisitsTerm result d (term_at self.old.site around.now
            (If (expr_of test.now) (expr_of so.now) (expr_of otherwise.now))) self.old self.new }
    {
        let test = Piece::Term(test, *around, d);
        let so = Piece::Term(so, *around, d);
        self.three(
            d,
            &[tags::TERM_IF],
            test,
            so,
            Piece::Term(otherwise, *around, d),
        )
    }

    // A term that is marshalled.
    fn marshal(
        &mut self,
        d: u32,
        ty: &'a Ty,
        mark: &'a Term,
        inner: &'a Term,
        around: &Around<'a>,
    ) -> Result<(), Stop>
        ensures { VisitsTerm result d (term_at self.old.site around.now
            (Marshal (typ_of ty.now) (expr_of mark.now) (expr_of inner.now))) self.old self.new }
    {
        let mark = Piece::Term(mark, *around, d);
        let inner = Piece::Term(inner, *around, d);
        self.three(d, &[tags::TERM_MARSHAL], Piece::Type(ty), mark, inner)
    }

    // A variable, or the captured value that stands for it.
    #[tactic(auto, using(crate::proofs::SlotLaws::variable_laws))]
    fn variable(&mut self, i: u16, around: Around<'a>, d: u32) -> Result<(), Stop>
        requires { typ_of self.old.site.int.now ≡ TInt }
        ensures { VisitsTerm result d (term_at self.old.site around.entry (Var i)) self.old
            self.new }
    {
        let site = self.site;
        match around.slot(&site, i) {
            Slot::Free(i) => self.short(d, tags::TERM_VAR, i),
            Slot::Bound(value, ty) => {
                self.two(
                    d,
                    &[tags::TERM_VAL],
                    Piece::Type(ty),
                    Piece::Held(value, ty, d),
                )
            }
        }
    }

    /// Visits terms side by side.
    #[tactic(auto, using(crate::proofs::FormLaws::term_laws))]
    pub fn terms(&mut self, terms: &'a [Term], around: Around<'a>, outer: u32) -> Result<(), Stop>
        ensures { Visits result (terms_written self.old.site (suc outer)
            (terms_at self.old.site around.entry (exprs (map expr_of terms.now))))
            (spoken_at self.old.site (all_term_parts
            (terms_at self.old.site around.entry (exprs (map expr_of terms.now))))) self.old
            self.new }
    {
        match terms.split_first() {
            None => self.nothing(),
            Some((first, rest)) => {
                let first = Piece::Term(first, around, outer);
                self.both(first, Piece::Terms(rest, around, outer))
            }
        }
    }

    /// Visits arms behind their count, which belongs to the first arm's pattern.
    #[tactic(auto, using(crate::proofs::FormLaws::case_laws))]
    pub fn cases(&mut self, cases: &'a [Arm], around: Around<'a>, outer: u32) -> Result<(), Stop>
        ensures { Visits result (cases_written self.old.site (suc outer)
            (arms_at self.old.site around.entry (arms (map arm_of cases.now))))
            (spoken_at self.old.site (arm_parts
            (arms_at self.old.site around.entry (arms (map arm_of cases.now))))) self.old
            self.new }
    {
        let Ok(count) = u16::try_from(cases.len()) else {
            return Err(Stop::Memory);
        };
        if count == 0 {
            return self.head(0, &[0, 0]);
        }
        self.before(&count.to_be_bytes(), Piece::Arms(cases, around, outer))
    }

    /// Visits arms.
    #[tactic(auto, using(crate::proofs::FormLaws::term_laws))]
    pub fn arms(&mut self, cases: &'a [Arm], around: Around<'a>, outer: u32) -> Result<(), Stop>
        ensures { Visits result (arms_written_at self.old.site (suc outer)
            (arms_at self.old.site around.entry (arms (map arm_of cases.now))))
            (spoken_at self.old.site (arm_parts
            (arms_at self.old.site around.entry (arms (map arm_of cases.now))))) self.old
            self.new }
    {
        let Some((first, rest)) = cases.split_first() else {
            return self.nothing();
        };
        let within = around.under(binders(&first.pat)?)?;
        let pat = Piece::Pattern(&first.pat, outer);
        let body = Piece::Term(&first.body, within, outer);
        self.each(pat, body, Piece::Arms(rest, around, outer))
    }
}

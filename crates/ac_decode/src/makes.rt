// Trees made of their parts, where those were read.

ghost use Rattle.std.specs.Prelude.{◌≡◌, List, map};
ghost use Rattle.ac_types.specs.ReadNumbers.{texted_number};
ghost use Rattle.ac_types.specs.ReadTypes.{typ_of};
ghost use Rattle.ac_terms.specs.Terms.{Pattern, Expr, Arms, patterns, PTuple, PCons, PPresent, PExnOf, exprs, arms, If, Val, pvalues, KTuple, KList, KPresent, KFun};
ghost use Rattle.ac_terms.specs.Read.{pattern_of, expr_of, arm_of, value_of, home_of};
ghost use Rattle.ac_decode_pieces.specs.Readers.{MadeOfRead};
ghost use Rattle.ac_decode.specs.inner.Follows.{put_around, put_joint, put_row, put_cases};

use crate::heads::{Cases, Joint, Row, Wrapper};
use ac_decode_pieces::PieceFault;
use ac_terms::{Arm, Home, PVal, Pat, Term};
use ac_types::{Boxed, Many, TextExn, Ty};

/// A tuple.
#[tactic(auto, using(ac_canon::proofs::PatternForms::pattern_laws))]
pub fn pat_tuple(parts: Result<Many<Pat>, PieceFault>) -> Result<Pat, PieceFault>
    ensures { MadeOfRead (λ (ps : List Pat). patterns (map pattern_of ps)) pattern_of PTuple parts
        result }
{
    let parts = parts?;
    Ok(Pat::Tuple(parts))
}

/// A list's first element and the rest.
#[tactic(auto, using(ac_canon::proofs::PatternForms::pattern_laws))]
pub fn pat_cons(both: Result<(Boxed<Pat>, Boxed<Pat>), PieceFault>) -> Result<Pat, PieceFault>
    ensures { MadeOfRead {A = Pattern × Pattern} (λ p. (pattern_of p.0, pattern_of p.1)) pattern_of
        (λ p. PCons p.0 p.1) both
        result }
{
    let (head, tail) = both?;
    Ok(Pat::Cons(head, tail))
}

/// `Some`.
#[tactic(auto, using(ac_canon::proofs::PatternForms::pattern_laws))]
pub fn pat_present(inner: Result<Boxed<Pat>, PieceFault>) -> Result<Pat, PieceFault>
    ensures { MadeOfRead pattern_of pattern_of PPresent inner result }
{
    let inner = inner?;
    Ok(Pat::Present(inner))
}

/// An exception with its text.
#[tactic(auto, using(ac_canon::proofs::PatternForms::pattern_laws))]
pub fn pat_exn(exn: TextExn, inner: Result<Boxed<Pat>, PieceFault>) -> Result<Pat, PieceFault>
    ensures { MadeOfRead pattern_of pattern_of (PExnOf (texted_number exn)) inner result }
{
    let inner = inner?;
    Ok(Pat::ExnOf(exn, inner))
}

/// A term around one.
#[tactic(auto, using(ac_canon::proofs::ValueForms::term_laws))]
pub fn around(kind: Wrapper, inner: Result<Boxed<Term>, PieceFault>) -> Result<Term, PieceFault>
    ensures { MadeOfRead expr_of expr_of (put_around kind) inner result }
{
    match inner {
        Err(fault) => {
            drop(kind);
            Err(fault)
        }
        Ok(inner) => Ok(put_around(kind, inner)),
    }
}

#[tactic(auto, using(ac_canon::proofs::ValueForms::term_laws))]
fn put_around(kind: Wrapper, inner: Boxed<Term>) -> Term
    ensures { expr_of result ≡ put_around kind (expr_of inner) }
{
    match kind {
        Wrapper::Exn(exn) => Term::ExnOf(exn, inner),
        Wrapper::Present => Term::Present(inner),
        Wrapper::Lam(ty) => Term::Lam(ty, inner),
        Wrapper::Rec(from, to) => Term::Rec(from, to, inner),
        Wrapper::Raise(ty) => Term::Raise(ty, inner),
        Wrapper::Unmarshal(ty) => Term::Unmarshal(ty, inner),
    }
}

/// A term of two.
#[tactic(auto, using(ac_canon::proofs::ValueForms::term_laws))]
pub fn joint(
    kind: Joint,
    both: Result<(Boxed<Term>, Boxed<Term>), PieceFault>,
) -> Result<Term, PieceFault>
    ensures { MadeOfRead {A = Expr × Expr} (λ p. (expr_of p.0, expr_of p.1)) expr_of
        (λ p. put_joint kind p.0 p.1) both
        result }
{
    match both {
        Err(fault) => {
            drop(kind);
            Err(fault)
        }
        Ok((a, b)) => Ok(put_joint(kind, a, b)),
    }
}

#[tactic(auto, using(ac_canon::proofs::ValueForms::term_laws))]
fn put_joint(kind: Joint, a: Boxed<Term>, b: Boxed<Term>) -> Term
    ensures { expr_of result ≡ put_joint kind (expr_of a) (expr_of b) }
{
    match kind {
        Joint::Cons => Term::Cons(a, b),
        Joint::App => Term::App(a, b),
        Joint::Let(ty) => Term::Let(ty, a, b),
        Joint::Marshal(ty) => Term::Marshal(ty, a, b),
    }
}

/// A choice.
#[tactic(auto, using(ac_canon::proofs::ValueForms::term_laws))]
pub fn choice(
    all: Result<(Boxed<Term>, (Boxed<Term>, Boxed<Term>)), PieceFault>,
) -> Result<Term, PieceFault>
    ensures { MadeOfRead {A = Expr × (Expr × Expr)}
        (λ p. (expr_of p.0, (expr_of p.1.0, expr_of p.1.1))) expr_of
        (λ p. If p.0 p.1.0 p.1.1) all result }
{
    let (test, (so, otherwise)) = all?;
    Ok(Term::If(test, so, otherwise))
}

/// A term of several.
#[tactic(auto, using(ac_canon::proofs::ValueForms::term_laws))]
pub fn row(kind: Row, parts: Result<Many<Term>, PieceFault>) -> Result<Term, PieceFault>
    ensures { MadeOfRead (λ (ts : List Term). exprs (map expr_of ts)) expr_of (put_row kind) parts
        result }
{
    let parts = parts?;
    match kind {
        Row::Tuple => Ok(Term::Tuple(parts)),
        Row::Seq => Ok(Term::Seq(parts)),
        Row::Prim(primitive) => Ok(Term::Prim(primitive, parts)),
    }
}

/// A match or a try.
#[tactic(auto, using(ac_canon::proofs::ValueForms::term_laws))]
pub fn cases(
    kind: Cases,
    parts: Result<(Boxed<Term>, Many<Arm>), PieceFault>,
) -> Result<Term, PieceFault>
    ensures { MadeOfRead {A = Expr × Arms} (λ p. (expr_of p.0, arms (map arm_of p.1))) expr_of
        (λ p. put_cases kind p.0 p.1) parts result }
{
    let (of, all) = parts?;
    match kind {
        Cases::Match => Ok(Term::Match(of, all)),
        Cases::Try => Ok(Term::Try(of, all)),
    }
}

/// A captured value.
#[tactic(auto, using(ac_canon::proofs::ValueForms::term_laws))]
pub fn captured(ty: Ty, value: Result<PVal, PieceFault>) -> Result<Term, PieceFault>
    ensures { MadeOfRead value_of expr_of (Val (typ_of ty)) value result }
{
    match value {
        Err(fault) => {
            drop(ty);
            Err(fault)
        }
        Ok(value) => Ok(Term::Val(ty, value)),
    }
}

/// A tuple of packed values.
#[tactic(auto, using(ac_canon::proofs::ValueForms::value_laws))]
pub fn value_tuple(parts: Result<Many<PVal>, PieceFault>) -> Result<PVal, PieceFault>
    ensures { MadeOfRead (λ (vs : List PVal). pvalues (map value_of vs)) value_of KTuple parts
        result }
{
    let parts = parts?;
    Ok(PVal::Tuple(parts))
}

/// A list of packed values.
#[tactic(auto, using(ac_canon::proofs::ValueForms::value_laws))]
pub fn value_list(parts: Result<Many<PVal>, PieceFault>) -> Result<PVal, PieceFault>
    ensures { MadeOfRead (λ (vs : List PVal). pvalues (map value_of vs)) value_of KList parts
        result }
{
    let parts = parts?;
    Ok(PVal::List(parts))
}

/// `Some`.
#[tactic(auto, using(ac_canon::proofs::ValueForms::value_laws))]
pub fn value_present(inner: Result<Boxed<PVal>, PieceFault>) -> Result<PVal, PieceFault>
    ensures { MadeOfRead value_of value_of KPresent inner result }
{
    let inner = inner?;
    Ok(PVal::Present(inner))
}

/// A function.
#[tactic(auto, using(ac_canon::proofs::ValueForms::value_laws))]
pub fn value_function(home: Home, term: Result<Boxed<Term>, PieceFault>) -> Result<PVal, PieceFault>
    ensures { MadeOfRead expr_of value_of (KFun (home_of home)) term result }
{
    let term = term?;
    Ok(PVal::Fun(home, term))
}

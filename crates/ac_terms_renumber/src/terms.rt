// Whether the parts of terms and packed values pass a test.

ghost use Rattle.std.specs.Prelude.{◌≡◌, ◌&&◌, map};
ghost use Rattle.std.specs.List.{list_all};
ghost use Rattle.ac_types.specs.Types.{Typ};
ghost use Rattle.ac_terms.specs.Terms.{exprs, arms, pvalues};
ghost use Rattle.ac_terms.specs.Parts.{OfType, pattern_types, term_parts, all_term_parts, arm_parts, value_parts, all_value_parts};
ghost use Rattle.ac_terms.specs.Read.{expr_of, arm_of, value_of};

use crate::patterns::pattern_passes;
use crate::test::Test;
use ac_terms::{Arm, PVal, Term};
use ac_types::{Boxed, Many};

/// Whether each part of a term passes.
#[cycle(term)]
pub fn term_passes<T: Test>(term: &Term, test: &T) -> bool
    ensures { result ≡ list_all (T.passes test.now) (term_parts (expr_of term.now)) }
{
    // `&`, not `&&`, between parts: one branch fewer in the proof of each arm
    match term {
        Term::Int(_) => true,
        Term::Bool(_) => true,
        Term::Str(_) => true,
        Term::Unit => true,
        Term::ExnVal(_) => true,
        Term::ExnOf(_, text) => boxed_passes(text, test),
        Term::Tuple(parts) => terms_pass(parts, test),
        Term::Nil(ty) => test.passes_type(ty),
        Term::Empty(ty) => test.passes_type(ty),
        Term::Present(inner) => boxed_passes(inner, test),
        Term::Cons(head, tail) => boxed_passes(head, test) & boxed_passes(tail, test),
        Term::Var(_) => true,
        Term::Own(_) => true,
        Term::Ref(entry, field) => test.passes_reference(*entry, field),
        Term::Lam(ty, body) => test.passes_type(ty) & boxed_passes(body, test),
        Term::Rec(from, to, body) => {
            test.passes_type(from) & (test.passes_type(to) & boxed_passes(body, test))
        }
        Term::App(f, a) => boxed_passes(f, test) & boxed_passes(a, test),
        Term::Let(ty, bound, body) => {
            test.passes_type(ty) & boxed_passes(bound, test) & boxed_passes(body, test)
        }
        Term::If(of, so, otherwise) => {
            boxed_passes(of, test) & boxed_passes(so, test) & boxed_passes(otherwise, test)
        }
        Term::Seq(parts) => terms_pass(parts, test),
        Term::Match(of, cases) => boxed_passes(of, test) & arms_pass(cases, test),
        Term::Try(of, cases) => boxed_passes(of, test) & arms_pass(cases, test),
        Term::Raise(ty, inner) => test.passes_type(ty) & boxed_passes(inner, test),
        Term::Prim(_, args) => terms_pass(args, test),
        Term::Marshal(ty, mark, inner) => {
            test.passes_type(ty) & boxed_passes(mark, test) & boxed_passes(inner, test)
        }
        Term::Unmarshal(ty, inner) => test.passes_type(ty) & boxed_passes(inner, test),
        Term::Val(ty, value) => {
            test.passes_type(ty) & (test.passes_captured() & value_passes(value, test))
        }
    }
}

// The same in a box.
#[cycle(term)]
fn boxed_passes<T: Test>(term: &Boxed<Term>, test: &T) -> bool
    ensures { result ≡ list_all (T.passes test.now) (term_parts (expr_of term.now)) }
{
    term_passes(term, test)
}

#[cycle(term)]
#[tactic(auto, using(crate::proofs::WalkLaws::list_laws))]
fn terms_pass<T: Test>(terms: &Many<Term>, test: &T) -> bool
    ensures { result ≡ list_all (T.passes test.now)
        (all_term_parts (exprs (map expr_of terms.now))) }
{
    for term in terms.as_slice() {
        if !term_passes(term, test) {
            return false;
        }
    }
    true
}

#[cycle(term)]
#[tactic(auto, using(crate::proofs::WalkLaws::arm_laws))]
fn arms_pass<T: Test>(cases: &Many<Arm>, test: &T) -> bool
    ensures { result ≡ list_all (T.passes test.now) (arm_parts (arms (map arm_of cases.now))) }
{
    for case in cases.as_slice() {
        if !arm_passes(case, test) {
            return false;
        }
    }
    true
}

#[cycle(term)]
fn arm_passes<T: Test>(case: &Arm, test: &T) -> bool
    ensures { result ≡ (list_all (λ (U : Typ). T.passes test.now (OfType U))
        (pattern_types (arm_of case.now).0) &&
        list_all (T.passes test.now) (term_parts (arm_of case.now).1)) }
{
    // `&`, not `&&`: one branch fewer in the proof
    pattern_passes(&case.pat, test) & term_passes(&case.body, test)
}

/// Whether each part of a packed value passes.
#[cycle(term)]
pub fn value_passes<T: Test>(value: &PVal, test: &T) -> bool
    ensures { result ≡ list_all (T.passes test.now) (value_parts (value_of value.now)) }
{
    match value {
        PVal::Int(_) => true,
        PVal::Bool(_) => true,
        PVal::Str(_) => true,
        PVal::Unit => true,
        PVal::Exn(_) => true,
        PVal::Tuple(parts) => values_pass(parts, test),
        PVal::List(parts) => values_pass(parts, test),
        PVal::Absent => true,
        PVal::Present(inner) => value_passes(inner, test),
        // `&`, not `&&`: one branch fewer in the proof
        PVal::Fun(home, term) => test.passes_home(*home) & boxed_passes(term, test),
    }
}

#[cycle(term)]
#[tactic(auto, using(crate::proofs::WalkLaws::list_laws))]
fn values_pass<T: Test>(values: &Many<PVal>, test: &T) -> bool
    ensures { result ≡ list_all (T.passes test.now)
        (all_value_parts (pvalues (map value_of values.now))) }
{
    for value in values.as_slice() {
        if !value_passes(value, test) {
            return false;
        }
    }
    true
}

// Whether patterns, terms and packed values nest little.

ghost use Rattle.std.specs.Prelude.{◌≡◌, ◌&&◌, nat_le, map};
ghost use Rattle.ac_terms.specs.Terms.{patterns, exprs, arms, pvalues};
ghost use Rattle.ac_terms.specs.Nesting.{pattern_nesting, pattern_depth, nesting, depth, arm_depth, value_nesting, value_depth};
ghost use Rattle.ac_terms.specs.Read.{pattern_of, expr_of, arm_of, value_of};

use ac_terms::{Arm, PVal, Pat, Term};

// Whether a pattern nests at most so far.
#[cycle(pat)]
#[tactic(auto, using(crate::proofs::NestingLaws::pattern_laws))]
fn pattern_nests(pat: &Pat, most: u32) -> bool
    ensures { result ≡ nat_le (pattern_nesting (pattern_of pat.now)) most }
{
    if most == 0 {
        return false;
    }
    let under = most - 1;
    match pat {
        Pat::Wild => true,
        Pat::Var(_) => true,
        Pat::Int(_) => true,
        Pat::Bool(_) => true,
        Pat::Str(_) => true,
        Pat::Unit => true,
        Pat::Tuple(parts) => patterns_nest(parts.as_slice(), under),
        Pat::Nil => true,
        // `&`, not `&&`: one branch fewer in the proof
        Pat::Cons(head, tail) => pattern_nests(head, under) & pattern_nests(tail, under),
        Pat::Absent => true,
        Pat::Present(inner) => pattern_nests(inner, under),
        Pat::Exn(_) => true,
        Pat::ExnOf(_, text) => pattern_nests(text, under),
    }
}

#[cycle(pat)]
#[tactic(auto, using(crate::proofs::NestingLaws::pattern_laws))]
fn patterns_nest(pats: &[Pat], most: u32) -> bool
    ensures { result ≡ nat_le (pattern_depth (patterns (map pattern_of pats.now))) most }
{
    for pat in pats {
        if !pattern_nests(pat, most) {
            return false;
        }
    }
    true
}

/// Whether a term nests at most so far.
#[cycle(term)]
#[tactic(auto, using(crate::proofs::NestingLaws::term_laws))]
pub fn term_nests(term: &Term, most: u32) -> bool
    ensures { result ≡ nat_le (nesting (expr_of term.now)) most }
{
    if most == 0 {
        return false;
    }
    let under = most - 1;
    // `&`, not `&&`, between parts: one branch fewer in the proof of each arm
    match term {
        Term::Int(_) => true,
        Term::Bool(_) => true,
        Term::Str(_) => true,
        Term::Unit => true,
        Term::ExnVal(_) => true,
        Term::ExnOf(_, text) => term_nests(text, under),
        Term::Tuple(parts) => terms_nest(parts.as_slice(), under),
        Term::Nil(_) => true,
        Term::Empty(_) => true,
        Term::Present(inner) => term_nests(inner, under),
        Term::Cons(head, tail) => term_nests(head, under) & term_nests(tail, under),
        Term::Var(_) => true,
        Term::Own(_) => true,
        Term::Ref(_, _) => true,
        Term::Lam(_, body) => term_nests(body, under),
        Term::Rec(_, _, body) => term_nests(body, under),
        Term::App(f, a) => term_nests(f, under) & term_nests(a, under),
        Term::Let(_, bound, body) => term_nests(bound, under) & term_nests(body, under),
        Term::If(of, so, otherwise) => {
            term_nests(of, under) & (term_nests(so, under) & term_nests(otherwise, under))
        }
        Term::Seq(parts) => terms_nest(parts.as_slice(), under),
        Term::Match(of, cases) => term_nests(of, under) & arms_nest(cases.as_slice(), under),
        Term::Try(of, cases) => term_nests(of, under) & arms_nest(cases.as_slice(), under),
        Term::Raise(_, inner) => term_nests(inner, under),
        Term::Prim(_, args) => terms_nest(args.as_slice(), under),
        Term::Marshal(_, mark, inner) => term_nests(mark, under) & term_nests(inner, under),
        Term::Unmarshal(_, inner) => term_nests(inner, under),
        Term::Val(_, value) => value_nests(value, under),
    }
}

#[cycle(term)]
#[tactic(auto, using(crate::proofs::NestingLaws::term_laws))]
fn terms_nest(terms: &[Term], most: u32) -> bool
    ensures { result ≡ nat_le (depth (exprs (map expr_of terms.now))) most }
{
    for term in terms {
        if !term_nests(term, most) {
            return false;
        }
    }
    true
}

#[cycle(term)]
#[tactic(auto, using(crate::proofs::NestingLaws::term_laws))]
fn arms_nest(cases: &[Arm], most: u32) -> bool
    ensures { result ≡ nat_le (arm_depth (arms (map arm_of cases.now))) most }
{
    for case in cases {
        if !arm_nests(case, most) {
            return false;
        }
    }
    true
}

#[cycle(term)]
fn arm_nests(case: &Arm, most: u32) -> bool
    ensures { result ≡ (nat_le (pattern_nesting (arm_of case.now).0) most &&
        nat_le (nesting (arm_of case.now).1) most) }
{
    // `&`, not `&&`: one branch fewer in the proof
    pattern_nests(&case.pat, most) & term_nests(&case.body, most)
}

// Whether a packed value nests at most so far.
#[cycle(term)]
#[tactic(auto, using(crate::proofs::NestingLaws::term_laws))]
fn value_nests(value: &PVal, most: u32) -> bool
    ensures { result ≡ nat_le (value_nesting (value_of value.now)) most }
{
    if most == 0 {
        return false;
    }
    let under = most - 1;
    match value {
        PVal::Int(_) => true,
        PVal::Bool(_) => true,
        PVal::Str(_) => true,
        PVal::Unit => true,
        PVal::Exn(_) => true,
        PVal::Tuple(parts) => values_nest(parts.as_slice(), under),
        PVal::List(parts) => values_nest(parts.as_slice(), under),
        PVal::Absent => true,
        PVal::Present(inner) => value_nests(inner, under),
        PVal::Fun(_, term) => term_nests(term, under),
    }
}

#[cycle(term)]
#[tactic(auto, using(crate::proofs::NestingLaws::term_laws))]
fn values_nest(values: &[PVal], most: u32) -> bool
    ensures { result ≡ nat_le (value_depth (pvalues (map value_of values.now))) most }
{
    for value in values {
        if !value_nests(value, most) {
            return false;
        }
    }
    true
}

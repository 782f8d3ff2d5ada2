// What terms and packed values speak of.

ghost use Rattle.std.specs.Prelude.{◌≡◌, map};
ghost use Rattle.ac_terms.specs.Terms.{exprs, arms, pvalues};
ghost use Rattle.ac_terms.specs.Parts.{term_parts, all_term_parts, arm_parts, value_parts, all_value_parts};
ghost use Rattle.ac_terms.specs.Read.{expr_of, arm_of, value_of};
ghost use Rattle.ac_closure.specs.inner.Chosen.{with_parts};
ghost use Rattle.ac_closure.specs.inner.Names.{entry_named};

use crate::names::Names;
use crate::patterns::add_pattern;
use crate::set::{add_entry, add_home};
use crate::types::add_type;
use ac_terms::{Arm, PVal, Term};

/// Adds the entries that a term speaks of.
#[cycle(term)]
#[tactic(auto, using(crate::proofs::WalkLaws::term_laws))]
pub fn add_term(set: &mut [bool], names: &Names, term: &Term)
    ensures { set.new ≡ with_parts (entry_named names.now) set.old
        (term_parts (expr_of term.now)) }
{
    match term {
        Term::Int(_) => {}
        Term::Bool(_) => {}
        Term::Str(_) => {}
        Term::Unit => {}
        Term::ExnVal(_) => {}
        Term::ExnOf(_, text) => add_term(set, names, text),
        Term::Tuple(parts) => add_terms(set, names, parts.as_slice()),
        Term::Nil(ty) => add_type(set, names, ty),
        Term::Empty(ty) => add_type(set, names, ty),
        Term::Present(inner) => add_term(set, names, inner),
        Term::Cons(head, tail) => {
            add_term(set, names, head);
            add_term(set, names, tail);
        }
        Term::Var(_) => {}
        Term::Own(_) => {}
        Term::Ref(entry, _) => add_entry(set, *entry),
        Term::Lam(ty, body) => {
            add_type(set, names, ty);
            add_term(set, names, body);
        }
        Term::Rec(from, to, body) => {
            add_type(set, names, from);
            add_type(set, names, to);
            add_term(set, names, body);
        }
        Term::App(function, argument) => {
            add_term(set, names, function);
            add_term(set, names, argument);
        }
        Term::Let(ty, bound, body) => {
            add_type(set, names, ty);
            add_term(set, names, bound);
            add_term(set, names, body);
        }
        Term::If(test, so, otherwise) => {
            add_term(set, names, test);
            add_term(set, names, so);
            add_term(set, names, otherwise);
        }
        Term::Seq(parts) => add_terms(set, names, parts.as_slice()),
        Term::Match(of, cases) => {
            add_term(set, names, of);
            add_arms(set, names, cases.as_slice());
        }
        Term::Try(of, cases) => {
            add_term(set, names, of);
            add_arms(set, names, cases.as_slice());
        }
        Term::Raise(ty, inner) => {
            add_type(set, names, ty);
            add_term(set, names, inner);
        }
        Term::Prim(_, args) => add_terms(set, names, args.as_slice()),
        Term::Marshal(ty, mark, inner) => {
            add_type(set, names, ty);
            add_term(set, names, mark);
            add_term(set, names, inner);
        }
        Term::Unmarshal(ty, inner) => {
            add_type(set, names, ty);
            add_term(set, names, inner);
        }
        Term::Val(ty, value) => {
            add_type(set, names, ty);
            add_value(set, names, value);
        }
    }
}

// Adds those of each term.
#[cycle(term)]
#[tactic(auto, using(crate::proofs::WalkLaws::term_laws))]
fn add_terms(set: &mut [bool], names: &Names, terms: &[Term])
    ensures { set.new ≡ with_parts (entry_named names.now) set.old
        (all_term_parts (exprs (map expr_of terms.now))) }
{
    for term in terms {
        add_term(set, names, term);
    }
}

// Adds those of each arm.
#[cycle(term)]
#[tactic(auto, using(crate::proofs::WalkLaws::term_laws))]
fn add_arms(set: &mut [bool], names: &Names, cases: &[Arm])
    ensures { set.new ≡ with_parts (entry_named names.now) set.old
        (arm_parts (arms (map arm_of cases.now))) }
{
    for case in cases {
        add_pattern(set, names, &case.pat);
        add_term(set, names, &case.body);
    }
}

// Adds those of a packed value.
#[cycle(term)]
#[tactic(auto, using(crate::proofs::WalkLaws::value_laws))]
fn add_value(set: &mut [bool], names: &Names, value: &PVal)
    ensures { set.new ≡ with_parts (entry_named names.now) set.old
        (value_parts (value_of value.now)) }
{
    match value {
        PVal::Int(_) => {}
        PVal::Bool(_) => {}
        PVal::Str(_) => {}
        PVal::Unit => {}
        PVal::Exn(_) => {}
        PVal::Tuple(parts) => add_values(set, names, parts.as_slice()),
        PVal::List(parts) => add_values(set, names, parts.as_slice()),
        PVal::Absent => {}
        PVal::Present(inner) => add_value(set, names, inner),
        PVal::Fun(home, function) => {
            add_home(set, *home);
            add_term(set, names, function);
        }
    }
}

// Adds those of each packed value.
#[cycle(term)]
#[tactic(auto, using(crate::proofs::WalkLaws::term_laws))]
fn add_values(set: &mut [bool], names: &Names, values: &[PVal])
    ensures { set.new ≡ with_parts (entry_named names.now) set.old
        (all_value_parts (pvalues (map value_of values.now))) }
{
    for value in values {
        add_value(set, names, value);
    }
}

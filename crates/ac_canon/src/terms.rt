// The bytes of terms, arms and packed values.

ghost use Rattle.std.specs.Prelude.{◌≡◌, ◌++◌, ◌∷◌, map, length, OnOk, IfOk};
ghost use Rattle.ac_types.specs.ReadNumbers.{primitive_number};
ghost use Rattle.ac_types.specs.ReadTypes.{typ_of};
ghost use Rattle.ac_terms.specs.Terms.{exprs, arms, pvalues};
ghost use Rattle.ac_terms.specs.Read.{environment_of, bytes_of, expr_of, arm_of, value_of};
ghost use Rattle.ac_terms.specs.Spelling.{one_written, two_written, four_written, word, term_count, value_count, term_bytes};
ghost use Rattle.ac_terms.specs.SpelledBy.{pattern_bytes, term_bytes as term_by, all_term_bytes, arm_bytes, value_bytes, all_value_bytes};
ghost use Rattle.ac_terms.specs.Tags.{term_ref, term_rec, term_tuple, term_seq, term_prim, term_val, value_tuple, value_list};
ghost use Rattle.ac_canon.specs.Canon.{kept};

use crate::counts::{
    put_bool, put_count_u8, put_count_u16, put_count_u32, put_int, put_string, put_tagged_byte,
    put_tagged_number, put_word,
};
use crate::patterns::put_pattern;
use crate::spelling::{ByName, Spelling};
use crate::values::{put_exn, put_home};
use ac_bytes::Out;
use ac_terms::{Arm, Env, PVal, Term, tags};
use ac_types::{Memory, Primitive, Text, Ty, Word};
use std::alloc::Global;

/// The bytes of a term, its references spelled by the names that their entries keep.
pub fn term_bytes(alloc: Global, env: &Env, t: &Term) -> Result<Text, Memory>
    ensures { IfOk result (λ x. bytes_of x ≡
        term_bytes (kept (environment_of env.now)) (expr_of t.now)) }
{
    let mut out = Out::new(alloc);
    put_term(&mut out, &ByName { env }, t)?;
    Ok(out.into_text())
}

/// Puts a term.
#[cycle(term)]
pub fn put_term<S: Spelling>(out: &mut Out, spelling: &S, term: &Term) -> Result<(), Memory>
    ensures { OnOk result (out.new ≡ out.old ++
        term_by (S.spelled_type spelling.now) (S.spelled_reference spelling.now)
        (expr_of term.now)) }
{
    match term {
        Term::Int(n) => put_int(out, tags::TERM_INT, *n),
        Term::Bool(b) => put_bool(out, tags::TERM_BOOL, *b),
        Term::Str(text) => put_string(out, tags::TERM_STR, text),
        Term::Unit => out.put_u8(tags::TERM_UNIT),
        Term::ExnVal(exn) => put_tagged_byte(out, tags::TERM_EXN, exn.number()),
        Term::ExnOf(exn, text) => {
            put_tagged_byte(out, tags::TERM_EXN, exn.number())?;
            put_term(out, spelling, text)
        }
        Term::Tuple(parts) => put_tuple(out, spelling, parts.as_slice()),
        Term::Nil(ty) => put_tagged_type(out, spelling, tags::TERM_NIL, ty),
        Term::Empty(ty) => put_tagged_type(out, spelling, tags::TERM_EMPTY, ty),
        Term::Present(inner) => put_one(out, spelling, tags::TERM_PRESENT, inner),
        Term::Cons(head, tail) => {
            put_one(out, spelling, tags::TERM_CONS, head)?;
            put_term(out, spelling, tail)
        }
        Term::Var(i) => put_tagged_number(out, tags::TERM_VAR, *i),
        Term::Own(field) => put_tagged_number(out, tags::TERM_OWN, *field),
        Term::Ref(entry, field) => put_field_of(out, spelling, *entry, field),
        Term::Lam(ty, body) => put_typed(out, spelling, tags::TERM_LAM, body, ty),
        Term::Rec(from, to, body) => put_recursive(out, spelling, body, from, to),
        Term::App(function, argument) => {
            put_one(out, spelling, tags::TERM_APP, function)?;
            put_term(out, spelling, argument)
        }
        Term::Let(ty, bound, body) => {
            put_typed(out, spelling, tags::TERM_LET, bound, ty)?;
            put_term(out, spelling, body)
        }
        Term::If(test, so, otherwise) => {
            put_one(out, spelling, tags::TERM_IF, test)?;
            put_term(out, spelling, so)?;
            put_term(out, spelling, otherwise)
        }
        Term::Seq(parts) => put_sequence(out, spelling, parts.as_slice()),
        Term::Match(of, cases) => {
            put_one(out, spelling, tags::TERM_MATCH, of)?;
            put_cases(out, spelling, cases.as_slice())
        }
        Term::Try(of, cases) => {
            put_one(out, spelling, tags::TERM_TRY, of)?;
            put_cases(out, spelling, cases.as_slice())
        }
        Term::Raise(ty, inner) => put_typed(out, spelling, tags::TERM_RAISE, inner, ty),
        Term::Prim(primitive, args) => put_primitive(out, spelling, *primitive, args.as_slice()),
        Term::Marshal(ty, mark, inner) => {
            put_typed(out, spelling, tags::TERM_MARSHAL, mark, ty)?;
            put_term(out, spelling, inner)
        }
        Term::Unmarshal(ty, inner) => put_typed(out, spelling, tags::TERM_UNMARSHAL, inner, ty),
        Term::Val(ty, value) => put_captured(out, spelling, value, ty),
    }
}

// Puts a type behind a tag.
#[tactic(auto, using(crate::proofs::Joins::joins))]
fn put_tagged_type<S: Spelling>(out: &mut Out, spelling: &S, tag: u8, ty: &Ty) -> Result<(), Memory>
    ensures { OnOk result (out.new ≡ out.old ++ tag ∷
        S.spelled_type spelling.now (typ_of ty.now)) }
{
    out.put_u8(tag)?;
    spelling.put_type(out, ty)
}

// Puts a value of a signature, by its definition and its name.
#[tactic(auto, using(crate::proofs::Joins::joins))]
fn put_field_of<S: Spelling>(
    out: &mut Out,
    spelling: &S,
    entry: u32,
    field: &Word,
) -> Result<(), Memory>
    ensures { OnOk result (out.new ≡ out.old ++ (term_ref ∷
        S.spelled_reference spelling.now entry ++ word field.now)) }
{
    out.put_u8(tags::TERM_REF)?;
    spelling.put_reference(out, entry)?;
    put_word(out, field)
}

// Puts a term behind a tag.
#[cycle(term)]
fn put_one<S: Spelling>(out: &mut Out, spelling: &S, tag: u8, a: &Term) -> Result<(), Memory>
    ensures { OnOk result (out.new ≡ out.old ++ tag ∷
        term_by (S.spelled_type spelling.now) (S.spelled_reference spelling.now)
        (expr_of a.now)) }
{
    out.put_u8(tag)?;
    put_term(out, spelling, a)
}

// Puts a type and a term behind a tag.
#[cycle(term)]
fn put_typed<S: Spelling>(
    out: &mut Out,
    spelling: &S,
    tag: u8,
    a: &Term,
    ty: &Ty,
) -> Result<(), Memory>
    ensures { OnOk result (out.new ≡ out.old ++ (tag ∷
        S.spelled_type spelling.now (typ_of ty.now) ++
        term_by (S.spelled_type spelling.now) (S.spelled_reference spelling.now)
        (expr_of a.now))) }
{
    put_tagged_type(out, spelling, tag, ty)?;
    put_term(out, spelling, a)
}

// Puts a recursive function.
#[cycle(term)]
fn put_recursive<S: Spelling>(
    out: &mut Out,
    spelling: &S,
    body: &Term,
    from: &Ty,
    to: &Ty,
) -> Result<(), Memory>
    ensures { OnOk result (out.new ≡ out.old ++ (term_rec ∷
        S.spelled_type spelling.now (typ_of from.now) ++
        S.spelled_type spelling.now (typ_of to.now) ++
        term_by (S.spelled_type spelling.now) (S.spelled_reference spelling.now)
        (expr_of body.now))) }
{
    put_tagged_type(out, spelling, tags::TERM_REC, from)?;
    spelling.put_type(out, to)?;
    put_term(out, spelling, body)
}

// Puts a tuple.
#[cycle(term)]
fn put_tuple<S: Spelling>(out: &mut Out, spelling: &S, parts: &[Term]) -> Result<(), Memory>
    ensures { OnOk result (out.new ≡ out.old ++ (term_tuple ∷ one_written
        (term_count (exprs (map expr_of parts.now))) ++
        all_term_bytes (S.spelled_type spelling.now) (S.spelled_reference spelling.now)
        (exprs (map expr_of parts.now)))) }
{
    out.put_u8(tags::TERM_TUPLE)?;
    put_count_u8(out, parts.len())?;
    put_terms(out, spelling, parts)
}

// Puts a sequence.
#[cycle(term)]
fn put_sequence<S: Spelling>(out: &mut Out, spelling: &S, parts: &[Term]) -> Result<(), Memory>
    ensures { OnOk result (out.new ≡ out.old ++ (term_seq ∷ four_written
        (term_count (exprs (map expr_of parts.now))) ++
        all_term_bytes (S.spelled_type spelling.now) (S.spelled_reference spelling.now)
        (exprs (map expr_of parts.now)))) }
{
    out.put_u8(tags::TERM_SEQ)?;
    put_count_u32(out, parts.len())?;
    put_terms(out, spelling, parts)
}

// Puts a primitive with its arguments.
#[cycle(term)]
fn put_primitive<S: Spelling>(
    out: &mut Out,
    spelling: &S,
    primitive: Primitive,
    args: &[Term],
) -> Result<(), Memory>
    ensures { OnOk result (out.new ≡ out.old ++ term_prim ∷ primitive_number primitive ∷
        all_term_bytes (S.spelled_type spelling.now) (S.spelled_reference spelling.now)
        (exprs (map expr_of args.now))) }
{
    put_tagged_byte(out, tags::TERM_PRIM, primitive.number())?;
    put_terms(out, spelling, args)
}

// Puts each term.
#[cycle(term)]
#[tactic(auto, using(crate::proofs::Joins::joins))]
fn put_terms<S: Spelling>(out: &mut Out, spelling: &S, terms: &[Term]) -> Result<(), Memory>
    ensures { OnOk result (out.new ≡ out.old ++
        all_term_bytes (S.spelled_type spelling.now) (S.spelled_reference spelling.now)
        (exprs (map expr_of terms.now))) }
{
    for term in terms {
        put_term(out, spelling, term)?;
    }
    Ok(())
}

// Puts how many arms there are, and each.
#[cycle(term)]
fn put_cases<S: Spelling>(out: &mut Out, spelling: &S, cases: &[Arm]) -> Result<(), Memory>
    ensures { OnOk result (out.new ≡ out.old ++ two_written (length cases.now) ++
        arm_bytes (S.spelled_type spelling.now) (S.spelled_reference spelling.now)
        (arms (map arm_of cases.now))) }
{
    put_count_u16(out, cases.len())?;
    put_arms(out, spelling, cases)
}

// Puts each arm.
#[cycle(term)]
#[tactic(auto, using(crate::proofs::Joins::joins))]
fn put_arms<S: Spelling>(out: &mut Out, spelling: &S, cases: &[Arm]) -> Result<(), Memory>
    ensures { OnOk result (out.new ≡ out.old ++
        arm_bytes (S.spelled_type spelling.now) (S.spelled_reference spelling.now)
        (arms (map arm_of cases.now))) }
{
    for case in cases {
        put_arm(out, spelling, case)?;
    }
    Ok(())
}

// Puts an arm.
#[cycle(term)]
fn put_arm<S: Spelling>(out: &mut Out, spelling: &S, case: &Arm) -> Result<(), Memory>
    ensures { OnOk result (out.new ≡ out.old ++
        pattern_bytes (S.spelled_type spelling.now) (arm_of case.now).0 ++
        term_by (S.spelled_type spelling.now) (S.spelled_reference spelling.now)
        (arm_of case.now).1) }
{
    put_pattern(out, spelling, &case.pat)?;
    put_term(out, spelling, &case.body)
}

// Puts a captured value at its type.
#[cycle(term)]
fn put_captured<S: Spelling>(
    out: &mut Out,
    spelling: &S,
    value: &PVal,
    ty: &Ty,
) -> Result<(), Memory>
    ensures { OnOk result (out.new ≡ out.old ++ (term_val ∷
        S.spelled_type spelling.now (typ_of ty.now) ++
        value_bytes (S.spelled_type spelling.now) (S.spelled_reference spelling.now)
        (value_of value.now))) }
{
    put_tagged_type(out, spelling, tags::TERM_VAL, ty)?;
    put_value(out, spelling, value)
}

/// Puts a packed value.
#[cycle(term)]
pub fn put_value<S: Spelling>(out: &mut Out, spelling: &S, value: &PVal) -> Result<(), Memory>
    ensures { OnOk result (out.new ≡ out.old ++
        value_bytes (S.spelled_type spelling.now) (S.spelled_reference spelling.now)
        (value_of value.now)) }
{
    match value {
        PVal::Int(n) => put_int(out, tags::VALUE_INT, *n),
        PVal::Bool(b) => put_bool(out, tags::VALUE_BOOL, *b),
        PVal::Str(text) => put_string(out, tags::VALUE_STR, text),
        PVal::Unit => out.put_u8(tags::VALUE_UNIT),
        PVal::Exn(exn) => put_exn(out, exn),
        PVal::Tuple(parts) => put_value_tuple(out, spelling, parts.as_slice()),
        PVal::List(parts) => put_value_list(out, spelling, parts.as_slice()),
        PVal::Absent => out.put_u8(tags::VALUE_ABSENT),
        PVal::Present(inner) => {
            out.put_u8(tags::VALUE_PRESENT)?;
            put_value(out, spelling, inner)
        }
        PVal::Fun(home, function) => {
            put_home(out, *home)?;
            put_term(out, spelling, function)
        }
    }
}

// Puts a tuple of packed values.
#[cycle(term)]
fn put_value_tuple<S: Spelling>(out: &mut Out, spelling: &S, parts: &[PVal]) -> Result<(), Memory>
    ensures { OnOk result (out.new ≡ out.old ++ (value_tuple ∷ one_written
        (value_count (pvalues (map value_of parts.now))) ++
        all_value_bytes (S.spelled_type spelling.now) (S.spelled_reference spelling.now)
        (pvalues (map value_of parts.now)))) }
{
    out.put_u8(tags::VALUE_TUPLE)?;
    put_count_u8(out, parts.len())?;
    put_values(out, spelling, parts)
}

// Puts a list of packed values.
#[cycle(term)]
fn put_value_list<S: Spelling>(out: &mut Out, spelling: &S, parts: &[PVal]) -> Result<(), Memory>
    ensures { OnOk result (out.new ≡ out.old ++ (value_list ∷ four_written
        (value_count (pvalues (map value_of parts.now))) ++
        all_value_bytes (S.spelled_type spelling.now) (S.spelled_reference spelling.now)
        (pvalues (map value_of parts.now)))) }
{
    out.put_u8(tags::VALUE_LIST)?;
    put_count_u32(out, parts.len())?;
    put_values(out, spelling, parts)
}

// Puts each packed value.
#[cycle(term)]
#[tactic(auto, using(crate::proofs::Joins::joins))]
fn put_values<S: Spelling>(out: &mut Out, spelling: &S, values: &[PVal]) -> Result<(), Memory>
    ensures { OnOk result (out.new ≡ out.old ++
        all_value_bytes (S.spelled_type spelling.now) (S.spelled_reference spelling.now)
        (pvalues (map value_of values.now))) }
{
    for value in values {
        put_value(out, spelling, value)?;
    }
    Ok(())
}

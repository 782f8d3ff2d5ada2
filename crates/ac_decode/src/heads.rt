// Terms, patterns and packed values by their tags, and what stands behind a tag but for inner
// trees.

ghost use Rattle.std.specs.Prelude.{◌≡◌, ℕ, Bool, true, false, Some, None, option_and_then, slice_get, MatchOption};
ghost use Rattle.ac_terms.specs.Terms.{Pattern, PInt, PExn, PExnOf, Expr, Int, Exn as ExnAlone, ExnOf, Ref, Rec, PValue, KInt, KExn};
ghost use Rattle.ac_types.specs.Limits.{longest_string};
ghost use Rattle.ac_types.specs.ReadNumbers.{primitive_number, kind_number};
ghost use Rattle.ac_terms.specs.PrimitiveTypes.{primitives};
ghost use Rattle.ac_terms.specs.Read.{bytes_of, pattern_of, expr_of, home_of, value_of};
ghost use Rattle.ac_terms.specs.PacketReading.{ReadsPart, one, two_parts_read, three, argument_count};
ghost use Rattle.ac_decode_pieces.specs.ExactReading.{exact_two, exact_eight, exact_lower, exact_text};
ghost use Rattle.ac_decode_pieces.specs.Readers.{ReadsAs, ReadsOn};
ghost use Rattle.ac_decode.specs.inner.ExactTerms.{names_primitive, exact_exn, exact_primitive, exact_home, exact_several, exact_with_text, exact_pattern_table, exact_term_table, exact_value_table};
ghost use Rattle.ac_decode.specs.inner.Follows.{pattern_follows, term_follows, value_follows};

use ac_bytes::Cursor;
use ac_decode_pieces::{
    PieceFault, Types, joined, take_byte, take_eight, take_four, take_lower, take_text, take_truth,
    take_two, width,
};
use ac_terms::{Home, PVal, Pat, Term, tags};
use ac_types::limits::LONGEST_STRING;
use ac_types::{Exn, ExnKind, Primitive, Text, TextExn, Ty};
use std::alloc::Global;

/// A pattern by its tag.
#[derive(Drop)]
pub enum PatHead {
    /// A pattern without inner ones.
    Leaf(Pat),
    /// A tuple of so many parts.
    Tuple(u8),
    /// A list's first element and the rest.
    Cons,
    /// `Some`.
    Present,
    /// An exception, with a pattern for its text.
    Exn(TextExn),
}

/// What one term stands in.
#[derive(Drop)]
pub enum Wrapper {
    /// An exception.
    Exn(TextExn),
    /// `Some`.
    Present,
    /// A function.
    Lam(Ty),
    /// A recursive function.
    Rec(Ty, Ty),
    /// A raise.
    Raise(Ty),
    /// An unmarshal.
    Unmarshal(Ty),
}

/// What two terms are joined by.
#[derive(Drop)]
pub enum Joint {
    /// A list's first element and the rest.
    Cons,
    /// An application.
    App,
    /// A binding.
    Let(Ty),
    /// A marshal.
    Marshal(Ty),
}

/// What several terms stand in.
#[derive(Clone, Copy)]
pub enum Row {
    /// A tuple.
    Tuple,
    /// A sequence.
    Seq,
    /// A primitive.
    Prim(Primitive),
}

/// What arms follow.
#[derive(Clone, Copy)]
pub enum Cases {
    /// A match.
    Match,
    /// A try.
    Try,
}

/// A term by its tag.
#[derive(Drop)]
pub enum TermHead {
    /// A term without inner ones.
    Leaf(Term),
    /// One term stands behind.
    Around(Wrapper),
    /// Two terms stand behind.
    Joint(Joint),
    /// A choice: three terms stand behind.
    Choice,
    /// So many terms stand behind.
    Row(Row, u32),
    /// A term and arms stand behind.
    Cases(Cases),
    /// A captured value stands behind.
    Captured(Ty),
}

/// A packed value by its tag.
#[derive(Drop)]
pub enum ValueHead {
    /// A value without inner ones.
    Leaf(PVal),
    /// A tuple of so many parts.
    Tuple(u8),
    /// A list of so many elements.
    List(u32),
    /// `Some`.
    Present,
    /// A function of that home.
    Fun(Home),
}

// An exception by its number.
#[tactic(auto, unfolding(crate::specs::inner::ExactTerms::exact_exn))]
fn exn(cursor: &mut Cursor<'_>) -> Result<ExnKind, PieceFault>
    ensures { ReadsAs kind_number result (exact_exn cursor.old.left) cursor.new.left }
{
    let at = cursor.place();
    let number = take_byte(cursor)?;
    match ExnKind::from_number(number) {
        None => Err(PieceFault::Misfit { at }),
        Some(kind) => Ok(kind),
    }
}

// The primitive of that number, `None` where there is none.
fn numbered(number: u8) -> Option<Primitive>
    ensures { MatchOption result (names_primitive number ≡ false)
        (λ p. (names_primitive number ≡ true) × (number ≡ primitive_number p)) }
{
    Primitive::from_number(number)
}

// How many arguments a primitive takes.
fn arguments(primitive: Primitive) -> u8
    ensures { result ≡ argument_count primitives (primitive_number primitive) }
{
    primitive.arity()
}

// A primitive by its number.
#[tactic(auto, unfolding(crate::specs::inner::ExactTerms::exact_primitive))]
fn primitive(cursor: &mut Cursor<'_>) -> Result<Primitive, PieceFault>
    ensures { ReadsAs primitive_number result (exact_primitive cursor.old.left) cursor.new.left }
{
    let at = cursor.place();
    let number = take_byte(cursor)?;
    match numbered(number) {
        None => Err(PieceFault::Misfit { at }),
        Some(primitive) => Ok(primitive),
    }
}

// A function's home.
#[tactic(auto, unfolding(crate::specs::inner::ExactTerms::exact_home))]
fn home(cursor: &mut Cursor<'_>) -> Result<Home, PieceFault>
    ensures { ReadsAs home_of result (exact_home cursor.old.left) cursor.new.left }
{
    match take_two(cursor)? {
        0 => Ok(Home::Main),
        k => Ok(Home::In(k as u32 - 1)),
    }
}

// How many parts a sequence has.
#[tactic(auto, unfolding(crate::specs::inner::ExactTerms::exact_several))]
fn several(cursor: &mut Cursor<'_>) -> Result<u32, PieceFault>
    ensures { ReadsAs (λ (n : ℕ). n) result (exact_several cursor.old.left) cursor.new.left }
{
    let at = cursor.place();
    let n = take_four(cursor)?;
    if n < 2 {
        return Err(PieceFault::Misfit { at });
    }
    Ok(n)
}

// A string.
fn string(alloc: Global, cursor: &mut Cursor<'_>) -> Result<Text, PieceFault>
    ensures { ReadsAs bytes_of result (exact_text longest_string cursor.old.left)
        cursor.new.left }
{
    take_text(alloc, cursor, LONGEST_STRING as u32)
}

/// The head of a pattern behind its tag, which stands at that place.
#[tactic(auto, using(ac_terms::proofs::PatternForms::pattern_forms))]
pub fn pattern_head<T: Types>(
    alloc: Global,
    cursor: &mut Cursor<'_>,
    types: &T,
    at: usize,
    tag: u8,
) -> Result<PatHead, PieceFault>
    ensures { (f : ReadsPart Pattern) → ReadsOn (λ h. pattern_follows f h cursor.new.left) result
        (option_and_then (λ (g : ReadsPart Pattern). g cursor.old.left)
        (slice_get (exact_pattern_table (T.reads_type types.now) f) tag)) }
{
    match tag {
        tags::PATTERN_WILD => Ok(PatHead::Leaf(Pat::Wild)),
        tags::PATTERN_VAR => Ok(PatHead::Leaf(Pat::Var(types.read_type(alloc, cursor, false)?))),
        tags::PATTERN_INT => pattern_int(cursor),
        tags::PATTERN_BOOL => Ok(PatHead::Leaf(Pat::Bool(take_truth(cursor)?))),
        tags::PATTERN_STR => Ok(PatHead::Leaf(Pat::Str(string(alloc, cursor)?))),
        tags::PATTERN_UNIT => Ok(PatHead::Leaf(Pat::Unit)),
        tags::PATTERN_TUPLE => Ok(PatHead::Tuple(width(cursor)?)),
        tags::PATTERN_NIL => Ok(PatHead::Leaf(Pat::Nil)),
        tags::PATTERN_CONS => Ok(PatHead::Cons),
        tags::PATTERN_ABSENT => Ok(PatHead::Leaf(Pat::Absent)),
        tags::PATTERN_PRESENT => Ok(PatHead::Present),
        tags::PATTERN_EXN => pattern_exn(cursor),
        _ => Err(PieceFault::Misfit { at }),
    }
}

// That of an exception.
#[tactic(auto, using(ac_terms::proofs::PatternForms::pattern_forms, ac_types::proofs::NumberLaws::exception_laws))]
fn pattern_exn(cursor: &mut Cursor<'_>) -> Result<PatHead, PieceFault>
    ensures { (f : ReadsPart Pattern) → ReadsOn (λ h. pattern_follows f h cursor.new.left) result
        (exact_with_text PExn PExnOf f cursor.old.left) }
{
    match exn(cursor)? {
        ExnKind::Bare(exn) => Ok(PatHead::Leaf(Pat::Exn(exn))),
        ExnKind::Text(exn) => Ok(PatHead::Exn(exn)),
    }
}

/// The head of a term behind its tag, which stands at that place.
#[tactic(auto, using(ac_terms::proofs::TermForms::term_forms))]
pub fn term_head<T: Types>(
    alloc: Global,
    cursor: &mut Cursor<'_>,
    types: &T,
    within: bool,
    at: usize,
    tag: u8,
) -> Result<TermHead, PieceFault>
    ensures { (p : ReadsPart Pattern) (f : ReadsPart Expr) (g : ReadsPart PValue) →
        ReadsOn (λ h. term_follows p f g h cursor.new.left) result
        (option_and_then (λ (r : ReadsPart Expr). r cursor.old.left)
        (slice_get (exact_term_table (T.reads_type types.now) within p f g) tag)) }
{
    match tag {
        tags::TERM_INT => term_int(cursor),
        tags::TERM_BOOL => Ok(TermHead::Leaf(Term::Bool(take_truth(cursor)?))),
        tags::TERM_STR => Ok(TermHead::Leaf(Term::Str(string(alloc, cursor)?))),
        tags::TERM_UNIT => Ok(TermHead::Leaf(Term::Unit)),
        tags::TERM_EXN => term_exn(cursor),
        tags::TERM_TUPLE => Ok(TermHead::Row(Row::Tuple, width(cursor)? as u32)),
        tags::TERM_NIL => Ok(TermHead::Leaf(Term::Nil(types.read_type(alloc, cursor, false)?))),
        tags::TERM_EMPTY => Ok(TermHead::Leaf(Term::Empty(types.read_type(alloc, cursor, false)?))),
        tags::TERM_PRESENT => Ok(TermHead::Around(Wrapper::Present)),
        tags::TERM_CONS => Ok(TermHead::Joint(Joint::Cons)),
        tags::TERM_VAR => Ok(TermHead::Leaf(Term::Var(take_two(cursor)?))),
        tags::TERM_OWN => Ok(TermHead::Leaf(Term::Own(take_two(cursor)?))),
        tags::TERM_REF => field_of(alloc, cursor),
        tags::TERM_LAM => Ok(TermHead::Around(Wrapper::Lam(types.read_type(
            alloc, cursor, false,
        )?))),
        tags::TERM_REC => recursive(alloc, cursor, types),
        tags::TERM_APP => Ok(TermHead::Joint(Joint::App)),
        tags::TERM_LET => Ok(TermHead::Joint(Joint::Let(types.read_type(alloc, cursor, false)?))),
        tags::TERM_IF => Ok(TermHead::Choice),
        tags::TERM_SEQ => Ok(TermHead::Row(Row::Seq, several(cursor)?)),
        tags::TERM_MATCH => Ok(TermHead::Cases(Cases::Match)),
        tags::TERM_TRY => Ok(TermHead::Cases(Cases::Try)),
        tags::TERM_RAISE => Ok(TermHead::Around(Wrapper::Raise(types.read_type(
            alloc, cursor, false,
        )?))),
        tags::TERM_PRIM => {
            let primitive = primitive(cursor)?;
            Ok(TermHead::Row(Row::Prim(primitive), arguments(primitive) as u32))
        }
        tags::TERM_MARSHAL => Ok(TermHead::Joint(Joint::Marshal(types.read_type(
            alloc, cursor, false,
        )?))),
        tags::TERM_UNMARSHAL => Ok(TermHead::Around(Wrapper::Unmarshal(types.read_type(
            alloc, cursor, false,
        )?))),
        tags::TERM_VAL => {
            if !within {
                return Err(PieceFault::Misfit { at });
            }
            Ok(TermHead::Captured(types.read_type(alloc, cursor, false)?))
        }
        _ => Err(PieceFault::Misfit { at }),
    }
}

// That of an exception.
#[tactic(auto, using(ac_terms::proofs::TermForms::term_forms, ac_types::proofs::NumberLaws::exception_laws))]
fn term_exn(cursor: &mut Cursor<'_>) -> Result<TermHead, PieceFault>
    ensures { (p : ReadsPart Pattern) (f : ReadsPart Expr) (g : ReadsPart PValue) →
        ReadsOn (λ h. term_follows p f g h cursor.new.left) result
        (exact_with_text ExnAlone ExnOf f cursor.old.left) }
{
    match exn(cursor)? {
        ExnKind::Bare(exn) => Ok(TermHead::Leaf(Term::ExnVal(exn))),
        ExnKind::Text(exn) => Ok(TermHead::Around(Wrapper::Exn(exn))),
    }
}

// That of a value of a signature.
#[tactic(auto, using(ac_terms::proofs::TermForms::term_forms))]
fn field_of(alloc: Global, cursor: &mut Cursor<'_>) -> Result<TermHead, PieceFault>
    ensures { (p : ReadsPart Pattern) (f : ReadsPart Expr) (g : ReadsPart PValue) →
        ReadsOn (λ h. term_follows p f g h cursor.new.left) result
        (two_parts_read Ref exact_two exact_lower cursor.old.left) }
{
    let entry = take_two(cursor)?;
    let field = take_lower(alloc, cursor)?;
    Ok(TermHead::Leaf(Term::Ref(entry as u32, field)))
}

// That of a recursive function.
fn recursive<T: Types>(
    alloc: Global,
    cursor: &mut Cursor<'_>,
    types: &T,
) -> Result<TermHead, PieceFault>
    ensures { (p : ReadsPart Pattern) (f : ReadsPart Expr) (g : ReadsPart PValue) →
        ReadsOn (λ h. term_follows p f g h cursor.new.left) result
        (three Rec (T.reads_type types.now false) (T.reads_type types.now false) f
        cursor.old.left) }
{
    let from = types.read_type(alloc, cursor, false)?;
    let (from, to) = joined(from, types.read_type(alloc, cursor, false))?;
    Ok(TermHead::Around(Wrapper::Rec(from, to)))
}

/// The head of a packed value behind its tag, which stands at that place.
#[tactic(auto, using(ac_terms::proofs::ValueForms::value_forms))]
pub fn value_head(
    alloc: Global,
    cursor: &mut Cursor<'_>,
    at: usize,
    tag: u8,
) -> Result<ValueHead, PieceFault>
    ensures { (f : ReadsPart Expr) (g : ReadsPart PValue) →
        ReadsOn (λ h. value_follows f g h cursor.new.left) result
        (option_and_then (λ (r : ReadsPart PValue). r cursor.old.left)
        (slice_get (exact_value_table f g) tag)) }
{
    match tag {
        tags::VALUE_INT => value_int(cursor),
        tags::VALUE_BOOL => Ok(ValueHead::Leaf(PVal::Bool(take_truth(cursor)?))),
        tags::VALUE_STR => Ok(ValueHead::Leaf(PVal::Str(string(alloc, cursor)?))),
        tags::VALUE_UNIT => Ok(ValueHead::Leaf(PVal::Unit)),
        tags::VALUE_EXN => value_exn(alloc, cursor),
        tags::VALUE_TUPLE => Ok(ValueHead::Tuple(width(cursor)?)),
        tags::VALUE_LIST => Ok(ValueHead::List(take_four(cursor)?)),
        tags::VALUE_ABSENT => Ok(ValueHead::Leaf(PVal::Absent)),
        tags::VALUE_PRESENT => Ok(ValueHead::Present),
        tags::VALUE_FUN => Ok(ValueHead::Fun(home(cursor)?)),
        _ => Err(PieceFault::Misfit { at }),
    }
}

// That of an exception.
#[tactic(auto, using(ac_terms::proofs::ValueForms::value_forms, ac_types::proofs::NumberLaws::exception_laws))]
fn value_exn(alloc: Global, cursor: &mut Cursor<'_>) -> Result<ValueHead, PieceFault>
    ensures { (f : ReadsPart Expr) (g : ReadsPart PValue) →
        ReadsOn (λ h. value_follows f g h cursor.new.left) result
        (exact_with_text (λ k. KExn k None) (λ k s. KExn k (Some s)) (exact_text longest_string)
        cursor.old.left) }
{
    match exn(cursor)? {
        ExnKind::Bare(exn) => Ok(ValueHead::Leaf(PVal::Exn(Exn::Bare(exn)))),
        ExnKind::Text(exn) => {
            let text = string(alloc, cursor)?;
            Ok(ValueHead::Leaf(PVal::Exn(Exn::Text(exn, text))))
        }
    }
}

// The head of a pattern that is an int.
fn pattern_int(cursor: &mut Cursor<'_>) -> Result<PatHead, PieceFault>
    ensures { (f : ReadsPart Pattern) → ReadsOn (λ h. pattern_follows f h cursor.new.left) result
        (one PInt exact_eight cursor.old.left) }
{
    let z = take_eight(cursor)?;
    Ok(PatHead::Leaf(Pat::Int(z)))
}

// That of a term.
fn term_int(cursor: &mut Cursor<'_>) -> Result<TermHead, PieceFault>
    ensures { (p : ReadsPart Pattern) (f : ReadsPart Expr) (g : ReadsPart PValue) →
        ReadsOn (λ h. term_follows p f g h cursor.new.left) result
        (one Int exact_eight cursor.old.left) }
{
    let z = take_eight(cursor)?;
    Ok(TermHead::Leaf(Term::Int(z)))
}

// That of a packed value.
fn value_int(cursor: &mut Cursor<'_>) -> Result<ValueHead, PieceFault>
    ensures { (f : ReadsPart Expr) (g : ReadsPart PValue) →
        ReadsOn (λ h. value_follows f g h cursor.new.left) result
        (one KInt exact_eight cursor.old.left) }
{
    let z = take_eight(cursor)?;
    Ok(ValueHead::Leaf(PVal::Int(z)))
}

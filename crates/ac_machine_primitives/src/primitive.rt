// What the primitives answer of constants.

ghost use Rattle.std.specs.Prelude.{◌≡◌, ◌<◌, length, IfOk, MatchOption, Some, None};
ghost use Rattle.std.specs.Fmt.{signed_decimal};
ghost use Rattle.ac_types.specs.ReadNumbers.{primitive_number};
ghost use Rattle.ac_code.specs.Constants.{CInt, CBool, CStr, CUnit, CPart, Yields, comes_before, meaning, concatenated, quotient, remainder, bytes_between, raise_invalid_argument};
ghost use Rattle.ac_values.specs.Values.{stands_as, values, values_at};
ghost use Rattle.ac_machine_primitives.specs.Consts.{const_in, part_in};
ghost use Rattle.ac_machine_primitives.specs.Meant.{constant_meant, answer_meant, of_arithmetic, of_comparison, of_binary, of_unary, meant};

use ac_code::{Arithmetic, Comparison};
use ac_types::limits::LONGEST_STRING;
use ac_types::{Many, Memory, Primitive, Text};
use ac_values::read::{int_in, text_in};
use ac_values::{Node, Store, Value};
use std::alloc::Global;

/// A value that primitives act on. The last is the argument of `Str.sub`: a string, a start and a
/// length.
#[derive(Clone, Copy)]
pub enum Constant<'a> {
    Int(i64),
    Bool(bool),
    Str(&'a Text),
    Unit,
    Part(&'a Text, i64, i64),
}

/// What a primitive answers.
#[derive(Drop)]
pub enum PrimitiveResult {
    Int(i64),
    Bool(bool),
    Str(Text),
    Print(Text),
    Send(Text),
    Receive,
    Invalid(Text),
    ByZero,
    NoSense,
}

/// A primitive of two arguments.
#[derive(Clone, Copy)]
pub enum Binary {
    Add,
    Sub,
    Mul,
    Div,
    Mod,
    Equal,
    Less,
    Concat,
}

/// A primitive of one argument.
#[derive(Clone, Copy)]
pub enum Unary {
    Neg,
    Not,
    PrintInt,
    PrintString,
    Send,
    Receive,
    Length,
    SubString,
    OfInt,
}

/// A primitive by how many arguments it takes.
#[derive(Clone, Copy)]
pub enum Operation {
    One(Unary),
    Two(Binary),
}

/// What a primitive does.
#[inline(always)]
pub fn operation_of(primitive: Primitive) -> Operation
    ensures { meaning (primitive_number primitive) ≡ Some (meant result) }
{
    match primitive {
        Primitive::Add => Operation::Two(Binary::Add),
        Primitive::Sub => Operation::Two(Binary::Sub),
        Primitive::Mul => Operation::Two(Binary::Mul),
        Primitive::Div => Operation::Two(Binary::Div),
        Primitive::Rem => Operation::Two(Binary::Mod),
        Primitive::Neg => Operation::One(Unary::Neg),
        Primitive::Eq => Operation::Two(Binary::Equal),
        Primitive::Lt => Operation::Two(Binary::Less),
        Primitive::Concat => Operation::Two(Binary::Concat),
        Primitive::Not => Operation::One(Unary::Not),
        Primitive::PrintInt => Operation::One(Unary::PrintInt),
        Primitive::PrintString => Operation::One(Unary::PrintString),
        Primitive::Send => Operation::One(Unary::Send),
        Primitive::Receive => Operation::One(Unary::Receive),
        Primitive::Length => Operation::One(Unary::Length),
        Primitive::SubString => Operation::One(Unary::SubString),
        Primitive::OfInt => Operation::One(Unary::OfInt),
    }
}

/// The constant that a value is.
pub fn constant_in<'a>(store: &'a Store, v: Value) -> Option<Constant<'a>>
    requires { v.0 < length store.now }
    ensures { MatchOption result (const_in (stands_as store.now v.0) ≡ None)
        (λ d. const_in (stands_as store.now v.0) ≡ Some (constant_meant d)) }
{
    match store.node(v) {
        Some(Node::Int(n)) => Some(Constant::Int(*n)),
        Some(Node::Bool(b)) => Some(Constant::Bool(*b)),
        Some(Node::Str(text)) => Some(Constant::Str(text)),
        Some(Node::Unit) => Some(Constant::Unit),
        Some(Node::Tuple(parts)) => part_in(store, parts),
        _ => None,
    }
}

// A string with two ints.
#[tactic(auto, using(crate::proofs::PrimitiveLaws::part_laws))]
fn part_in<'a>(store: &'a Store, parts: &Many<Value>) -> Option<Constant<'a>>
    ensures { MatchOption result (part_in (values_at (values store.now) parts.now) ≡ None)
        (λ d. part_in (values_at (values store.now) parts.now) ≡ Some (constant_meant d)) }
{
    if parts.len() != 3 {
        return None;
    }
    let parts = parts.as_slice();
    let text = text_in(store, parts[0])?;
    let start = int_in(store, parts[1])?;
    let count = int_in(store, parts[2])?;
    Some(Constant::Part(text, start, count))
}

/// What a primitive of two arguments answers.
#[tactic(auto, using(crate::proofs::PrimitiveLaws::operator_laws))]
pub fn combined(
    alloc: Global,
    operator: Binary,
    first: &Constant<'_>,
    second: &Constant<'_>,
) -> Result<PrimitiveResult, Memory>
    ensures { IfOk result (λ a. answer_meant a ≡ of_binary operator (constant_meant first.now)
        (constant_meant second.now)) }
{
    match (*first, *second) {
        (Constant::Int(x), Constant::Int(y)) => Ok(of_ints(operator, x, y)),
        (Constant::Bool(x), Constant::Bool(y)) => Ok(of_bools(operator, x, y)),
        (Constant::Str(x), Constant::Str(y)) => of_texts(alloc, operator, x, y),
        _ => Ok(PrimitiveResult::NoSense),
    }
}

// What a primitive of two arguments answers of two ints.
#[tactic(auto, using(crate::proofs::PrimitiveLaws::operator_laws))]
fn of_ints(operator: Binary, x: i64, y: i64) -> PrimitiveResult
    ensures { answer_meant result ≡ of_binary operator (CInt x) (CInt y) }
{
    match operator {
        Binary::Add => PrimitiveResult::Int(x.wrapping_add(y)),
        Binary::Sub => PrimitiveResult::Int(x.wrapping_sub(y)),
        Binary::Mul => PrimitiveResult::Int(x.wrapping_mul(y)),
        Binary::Div => quotient(x, y),
        Binary::Mod => remainder(x, y),
        Binary::Equal => PrimitiveResult::Bool(x == y),
        Binary::Less => PrimitiveResult::Bool(x < y),
        Binary::Concat => PrimitiveResult::NoSense,
    }
}

/// What arithmetic gives of two ints.
#[inline(always)]
#[tactic(auto, using(crate::proofs::PrimitiveLaws::operator_laws))]
pub fn calculated(operator: Arithmetic, x: i64, y: i64) -> i64
    ensures { of_arithmetic operator (CInt x) (CInt y) ≡ Yields (CInt result) }
{
    match operator {
        Arithmetic::Add => x.wrapping_add(y),
        Arithmetic::Sub => x.wrapping_sub(y),
        Arithmetic::Mul => x.wrapping_mul(y),
    }
}

/// What a comparison gives of two ints.
#[inline(always)]
pub fn compared(operator: Comparison, x: i64, y: i64) -> bool
    ensures { of_comparison operator (CInt x) (CInt y) ≡ Yields (CBool result) }
{
    match operator {
        Comparison::Equal => x == y,
        Comparison::Less => x < y,
    }
}

#[inline(always)]
fn quotient(x: i64, y: i64) -> PrimitiveResult
    ensures { answer_meant result ≡ quotient (CInt x) (CInt y) }
{
    if y == 0 {
        return PrimitiveResult::ByZero;
    }
    if y == -1 {
        return PrimitiveResult::Int(x.wrapping_neg());
    }
    PrimitiveResult::Int(x / y)
}

#[inline(always)]
fn remainder(x: i64, y: i64) -> PrimitiveResult
    ensures { answer_meant result ≡ remainder (CInt x) (CInt y) }
{
    if y == 0 {
        return PrimitiveResult::ByZero;
    }
    PrimitiveResult::Int(x.wrapping_rem(y))
}

#[tactic(auto, using(crate::proofs::PrimitiveLaws::operator_laws))]
fn of_bools(operator: Binary, x: bool, y: bool) -> PrimitiveResult
    ensures { answer_meant result ≡ of_binary operator (CBool x) (CBool y) }
{
    match operator {
        Binary::Equal => PrimitiveResult::Bool(x == y),
        Binary::Less => PrimitiveResult::Bool(!x && y),
        _ => PrimitiveResult::NoSense,
    }
}

#[tactic(auto, using(crate::proofs::PrimitiveLaws::operator_laws))]
fn of_texts(alloc: Global, operator: Binary, x: &Text, y: &Text) -> Result<PrimitiveResult, Memory>
    ensures { IfOk result (λ a. answer_meant a ≡ of_binary operator (CStr x.now.0) (CStr y.now.0)) }
{
    match operator {
        Binary::Equal => Ok(PrimitiveResult::Bool(x.as_slice() == y.as_slice())),
        Binary::Less => Ok(PrimitiveResult::Bool(comes_before(x.as_slice(), y.as_slice()))),
        Binary::Concat => joined(alloc, x.as_slice(), y.as_slice()),
        _ => Ok(PrimitiveResult::NoSense),
    }
}

// Whether the first string comes before the second.
fn comes_before(first: &[u8], second: &[u8]) -> bool
    ensures { result ≡ comes_before first.now second.now }
{
    first < second
}

fn joined(alloc: Global, x: &[u8], y: &[u8]) -> Result<PrimitiveResult, Memory>
    ensures { IfOk result (λ a. answer_meant a ≡ concatenated (CStr x.now) (CStr y.now)) }
{
    if y.len() > LONGEST_STRING || x.len() > LONGEST_STRING - y.len() {
        return invalid(alloc, b"string");
    }
    let mut text = Text::from_slice(alloc, x)?;
    text.extend(y)?;
    Ok(PrimitiveResult::Str(text))
}

fn invalid(alloc: Global, why: &[u8]) -> Result<PrimitiveResult, Memory>
    ensures { IfOk result (λ a. answer_meant a ≡ raise_invalid_argument why.now) }
{
    Ok(PrimitiveResult::Invalid(Text::from_slice(alloc, why)?))
}

/// What a primitive of one argument answers.
pub fn turned(
    alloc: Global,
    unary: Unary,
    constant: &Constant<'_>,
) -> Result<PrimitiveResult, Memory>
    ensures { IfOk result (λ a. answer_meant a ≡ of_unary unary (constant_meant constant.now)) }
{
    match *constant {
        Constant::Int(n) => of_int(alloc, unary, n),
        Constant::Bool(b) => Ok(of_bool(unary, b)),
        Constant::Str(text) => of_text(alloc, unary, text),
        Constant::Unit => Ok(of_unit(unary)),
        Constant::Part(text, i, n) => of_part(alloc, unary, text.as_slice(), i, n),
    }
}

#[tactic(auto, using(crate::proofs::PrimitiveLaws::operator_laws))]
fn of_int(alloc: Global, unary: Unary, n: i64) -> Result<PrimitiveResult, Memory>
    ensures { IfOk result (λ a. answer_meant a ≡ of_unary unary (CInt n)) }
{
    match unary {
        Unary::Neg => Ok(PrimitiveResult::Int(n.wrapping_neg())),
        Unary::PrintInt => Ok(PrimitiveResult::Print(decimal(alloc, n)?)),
        Unary::OfInt => Ok(PrimitiveResult::Str(decimal(alloc, n)?)),
        _ => Ok(PrimitiveResult::NoSense),
    }
}

fn of_bool(unary: Unary, b: bool) -> PrimitiveResult
    ensures { answer_meant result ≡ of_unary unary (CBool b) }
{
    match unary {
        Unary::Not => PrimitiveResult::Bool(!b),
        _ => PrimitiveResult::NoSense,
    }
}

fn of_text(alloc: Global, unary: Unary, text: &Text) -> Result<PrimitiveResult, Memory>
    ensures { IfOk result (λ a. answer_meant a ≡ of_unary unary (CStr text.now.0)) }
{
    match unary {
        Unary::PrintString => Ok(PrimitiveResult::Print(text.copy(alloc)?)),
        Unary::Send => Ok(PrimitiveResult::Send(text.copy(alloc)?)),
        Unary::Length => Ok(PrimitiveResult::Int(text.as_slice().len() as i64)),
        _ => Ok(PrimitiveResult::NoSense),
    }
}

fn of_unit(unary: Unary) -> PrimitiveResult
    ensures { answer_meant result ≡ of_unary unary CUnit }
{
    match unary {
        Unary::Receive => PrimitiveResult::Receive,
        _ => PrimitiveResult::NoSense,
    }
}

fn of_part(
    alloc: Global,
    unary: Unary,
    text: &[u8],
    start: i64,
    count: i64,
) -> Result<PrimitiveResult, Memory>
    ensures { IfOk result (λ a. answer_meant a ≡ of_unary unary (CPart text.now start count)) }
{
    match unary {
        Unary::SubString => part(alloc, text, start, count),
        _ => Ok(PrimitiveResult::NoSense),
    }
}

// So many bytes of a string from a start on.
fn part(alloc: Global, text: &[u8], start: i64, count: i64) -> Result<PrimitiveResult, Memory>
    ensures { IfOk result (λ a. answer_meant a ≡ bytes_between text.now start count) }
{
    if start < 0 || count < 0 {
        return invalid(alloc, b"sub");
    }
    let start = start as usize;
    let count = count as usize;
    if count > text.len() || start > text.len() - count {
        return invalid(alloc, b"sub");
    }
    Ok(PrimitiveResult::Str(Text::from_slice(alloc, &text[start..start + count])?))
}

fn decimal(alloc: Global, n: i64) -> Result<Text, Memory>
    ensures { IfOk result (λ text. text.0 ≡ signed_decimal n) }
{
    let digits = format!(in alloc; "{n}")?;
    Text::from_slice(alloc, digits.as_bytes())
}

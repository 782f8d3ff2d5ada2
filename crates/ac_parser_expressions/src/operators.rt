// Operators by level, and what stands between them.

ghost use Rattle.std.specs.Prelude.{◌≡◌, ◌<◌, ◌≤◌, ◌-◌, ◌^◌};
ghost use Rattle.ac_syntax.specs.Signs.{Fixed};
ghost use Rattle.ac_syntax.specs.Expressions.{Binary, After, Unary, front, ToLeft, ToRight, Once, operator_tree, side_of, IsTree};
ghost use Rattle.ac_syntax.specs.ReadSigns.{read_signs};
ghost use Rattle.ac_syntax.specs.ReadTrees.{tree_of};
ghost use Rattle.ac_parser_expressions.specs.inner.Levels.{GoesOn, IsLastOperand, ReadsTree, ReadsMade};
ghost use Rattle.ac_parser_patterns.specs.Pieces.{Past};
ghost use Rattle.ac_parser_patterns.specs.Forms.{is_measured, operator_read};

use crate::expressions::app;
use crate::keywords::operator;
use ac_parser_patterns::build::{self, Operator, Parsed};
use ac_parser_patterns::lone_number;
use ac_syntax::{ParseError, Sign, Symbol, after, here, refused_at};
use ac_types::Primitive;
use std::alloc::Global;

// What stands behind a `-`.
#[cycle(expressions)]
fn minus<'s, 't>(
    alloc: Global,
    depth: u32,
    at: u32,
    signs: &'s [Sign<'t>],
) -> Result<(Parsed, &'s [Sign<'t>]), ParseError>
    requires { 0 < depth }
    ensures { ReadsTree (Past (Fixed at Symbol.Minus) (IsTree depth Unary)) signs.now result }
{
    if let Some((n, rest)) = lone_number(signs) {
        return build::negative(alloc, at, n, rest);
    }
    let (operand, rest) = unary(alloc, depth - 1, signs)?;
    build::operation(alloc, at, Primitive::Neg, operand, rest)
}

// A `-` or a `not` with its operand, or an application.
#[cycle(expressions)]
fn unary<'s, 't>(
    alloc: Global,
    depth: u32,
    signs: &'s [Sign<'t>],
) -> Result<(Parsed, &'s [Sign<'t>]), ParseError>
    ensures { ReadsTree (IsTree depth Unary) signs.now result }
{
    let at = here(signs);
    if let Some(behind) = after(Symbol::Minus, signs) {
        if depth == 0 {
            return Err(refused_at(signs));
        }
        return minus(alloc, depth, at, behind);
    }
    if let Some(behind) = after(Symbol::Not, signs) {
        if depth == 0 {
            return Err(refused_at(signs));
        }
        let (operand, rest) = unary(alloc, depth - 1, behind)?;
        return build::operation(alloc, at, Primitive::Not, operand, rest);
    }
    app(alloc, depth, signs)
}

// A left side and its operator with the operand of this level that stands here.
#[cycle(expressions)]
fn right_side<'s, 't>(
    alloc: Global,
    level: u32,
    depth: u32,
    at: u32,
    operator: Operator,
    left: Parsed,
    signs: &'s [Sign<'t>],
) -> Result<(Parsed, &'s [Sign<'t>]), ParseError>
    requires level { level ≤ 6 }
    requires low { left.height < 2 ^ 32 - 1 }
    requires small { depth < 2 ^ 32 - 1 }
    requires left { is_measured left }
    ensures { ReadsMade (IsTree depth (Binary level))
        (operator_tree at (operator_read operator) (tree_of left.tree)) signs.now result }
{
    let (right, rest) = binary(alloc, level, depth, signs)?;
    build::with_operator(alloc, at, operator, left, right, rest)
}

// Operands with the operators of a level that group to the left.
#[cycle(expressions)]
fn to_left<'s, 't>(
    alloc: Global,
    level: u32,
    depth: u32,
    signs: &'s [Sign<'t>],
) -> Result<(Parsed, &'s [Sign<'t>]), ParseError>
    requires level { (0 < level) × (level ≤ 6) }
    requires side { side_of level ≡ ToLeft }
    ensures { ReadsTree (IsTree depth (Binary level)) signs.now result }
{
    let at = here(signs);
    let (mut left, mut rest) = binary(alloc, level - 1, depth, signs)?;
    while let Some((operator, behind)) = operator(level, rest) {
        if left.height >= depth {
            return Err(refused_at(rest));
        }
        let (joined, later) = right_side(alloc, level - 1, depth - 1, at, operator, left, behind)?;
        left = joined;
        rest = later;
    }
    Ok((left, rest))
}

// What follows a first operand at a level whose operators group to the right.
#[cycle(expressions)]
fn to_right<'s, 't>(
    alloc: Global,
    level: u32,
    depth: u32,
    at: u32,
    first: Parsed,
    signs: &'s [Sign<'t>],
) -> Result<(Parsed, &'s [Sign<'t>]), ParseError>
    requires level { (0 < level) × (level ≤ 6) }
    requires side { side_of level ≡ ToRight }
    requires low { first.height ≤ depth }
    requires first { is_measured first }
    requires stops { level < front (read_signs signs.now) }
    ensures { GoesOn (IsTree depth (After level at (tree_of first.tree))) signs.now result }
{
    let Some((operator, behind)) = operator(level, signs) else {
        return Ok((first, signs));
    };
    if first.height >= depth {
        return Err(refused_at(signs));
    }
    right_side(alloc, level, depth - 1, at, operator, first, behind)
}

// A left side and its operator with the right side here, the last operator of this level.
#[cycle(expressions)]
fn compared<'s, 't>(
    alloc: Global,
    level: u32,
    depth: u32,
    at: u32,
    operator: Operator,
    left: Parsed,
    signs: &'s [Sign<'t>],
) -> Result<(Parsed, &'s [Sign<'t>]), ParseError>
    requires level { (0 < level) × (level ≤ 6) }
    requires low { left.height < 2 ^ 32 - 1 }
    requires small { depth < 2 ^ 32 - 1 }
    requires left { is_measured left }
    ensures { ReadsMade (IsLastOperand level depth)
        (operator_tree at (operator_read operator) (tree_of left.tree)) signs.now result }
{
    let (joined, rest) = right_side(alloc, level - 1, depth, at, operator, left, signs)?;
    match self::operator(level, rest) {
        Some(_) => Err(refused_at(rest)),
        None => Ok((joined, rest)),
    }
}

// What follows a first operand at a level with at most one operator.
#[cycle(expressions)]
fn once<'s, 't>(
    alloc: Global,
    level: u32,
    depth: u32,
    at: u32,
    first: Parsed,
    signs: &'s [Sign<'t>],
) -> Result<(Parsed, &'s [Sign<'t>]), ParseError>
    requires level { (0 < level) × (level ≤ 6) }
    requires side { side_of level ≡ Once }
    requires low { first.height ≤ depth }
    requires first { is_measured first }
    requires stops { level < front (read_signs signs.now) }
    ensures { GoesOn (IsTree depth (After level at (tree_of first.tree))) signs.now result }
{
    let Some((operator, behind)) = operator(level, signs) else {
        return Ok((first, signs));
    };
    if first.height >= depth {
        return Err(refused_at(signs));
    }
    compared(alloc, level, depth - 1, at, operator, first, behind)
}

/// An operand of this level or tighter.
#[cycle(expressions)]
pub fn binary<'s, 't>(
    alloc: Global,
    level: u32,
    depth: u32,
    signs: &'s [Sign<'t>],
) -> Result<(Parsed, &'s [Sign<'t>]), ParseError>
    requires { level ≤ 6 }
    ensures { ReadsTree (IsTree depth (Binary level)) signs.now result }
{
    if level == 0 {
        return unary(alloc, depth, signs);
    }
    if level <= 2 {
        return to_left(alloc, level, depth, signs);
    }
    let at = here(signs);
    let (first, rest) = binary(alloc, level - 1, depth, signs)?;
    if level == 4 {
        once(alloc, level, depth, at, first, rest)
    } else {
        to_right(alloc, level, depth, at, first, rest)
    }
}

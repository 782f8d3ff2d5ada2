// Expressions, by recursive descent. What would be higher than `depth` is refused on the way down.

ghost use Rattle.std.specs.Prelude.{◌<◌, ◌-◌, ◌^◌};
ghost use Rattle.ac_syntax.specs.Signs.{Fixed};
ghost use Rattle.ac_syntax.specs.Trees.{ExApp};
ghost use Rattle.ac_syntax.specs.Expressions.{Expr, Part, App, Atom, IsTree};
ghost use Rattle.ac_syntax.specs.ReadSigns.{read_signs};
ghost use Rattle.ac_syntax.specs.ReadTrees.{tree_of};
ghost use Rattle.ac_syntax.specs.PartParsing.{NoSymbol};
ghost use Rattle.ac_parser_expressions.specs.inner.Levels.{ReadsArm, ReadsArms, ReadsChoice, keyword_symbol, IsLet, IsLetRec, IsFun, IsRec, IsIf, IsMarshal, IsUnmarshal, IsRaise, IsParts, IsItems, ReadsTree, ReadsMade, sequence_tree, tuple_tree};
ghost use Rattle.ac_parser_patterns.specs.Pieces.{Before, NoPrefix, Past};
ghost use Rattle.ac_parser_patterns.specs.Forms.{is_measured, let_tree, let_rec_tree, fun_tree, rec_tree, if_tree, marshal_tree, unmarshal_tree, raise_tree};

use crate::keywords::{Keyword, after_bar, next_keyword};
use crate::leaves::{absent, nil, parsed_leaf};
use crate::operators::binary;
use ac_parser_patterns::build::{self, Choice, Parsed};
use ac_parser_patterns::{
    argument, arm_pattern, begins_atom, expect, followed, function_head, next_prefix, type_behind,
    typed,
};
use ac_syntax::{ParseError, SArm, Sign, Symbol, after, here, refused_at};
use ac_types::Many;
use std::alloc::Global;

// An expression with this symbol behind it.
#[cycle(expressions)]
fn before<'s, 't>(
    alloc: Global,
    symbol: Symbol,
    depth: u32,
    signs: &'s [Sign<'t>],
) -> Result<(Parsed, &'s [Sign<'t>]), ParseError>
    ensures { ReadsTree (Before symbol (IsTree depth Expr)) signs.now result }
{
    let (tree, behind) = expr(alloc, depth, signs)?;
    followed(symbol, tree, behind)
}

// An arm, and the height of its expression.
#[cycle(expressions)]
fn arm<'s, 't>(
    alloc: Global,
    depth: u32,
    signs: &'s [Sign<'t>],
) -> Result<((SArm, u32), &'s [Sign<'t>]), ParseError>
    ensures { ReadsArm depth signs.now result }
{
    let (pat, behind) = arm_pattern(alloc, signs)?;
    let (body, rest) = expr(alloc, depth, behind)?;
    let height = body.height;
    let body = body.tree.into_inner();
    Ok(((SArm { pat, body }, height), rest))
}

// Arms and their `end`, with the height of the highest.
#[cycle(expressions)]
fn arms<'s, 't>(
    alloc: Global,
    depth: u32,
    signs: &'s [Sign<'t>],
) -> Result<((Many<SArm>, u32), &'s [Sign<'t>]), ParseError>
    ensures { ReadsArms depth signs.now result }
{
    let ((first, mut height), mut rest) = arm(alloc, depth, signs)?;
    let mut arms = build::with_arm(Many::new(alloc), first)?;
    while let Some(behind) = after(Symbol::Bar, rest) {
        let ((next, own), later) = arm(alloc, depth, behind)?;
        height = height.max(own);
        arms = build::with_arm(arms, next)?;
        rest = later;
    }
    followed(Symbol::End, (arms, height), rest)
}

// What stands behind a `match` or a `try`.
#[cycle(expressions)]
fn choice<'s, 't>(
    alloc: Global,
    depth: u32,
    signs: &'s [Sign<'t>],
) -> Result<(Choice, &'s [Sign<'t>]), ParseError>
    ensures { ReadsChoice depth signs.now result }
{
    let (of, behind) = before(alloc, Symbol::With, depth, signs)?;
    let ((arms, height), rest) = arms(alloc, depth, after_bar(behind))?;
    Ok((Choice { of, arms, height }, rest))
}

// The tuple of a first expression and those behind its comma.
#[cycle(expressions)]
fn tuple<'s, 't>(
    alloc: Global,
    depth: u32,
    at: u32,
    first: Parsed,
    signs: &'s [Sign<'t>],
) -> Result<(Parsed, &'s [Sign<'t>]), ParseError>
    requires low { first.height < 2 ^ 32 - 1 }
    requires small { depth < 2 ^ 32 - 1 }
    requires first { is_measured first }
    ensures { ReadsMade (IsItems depth) (tuple_tree at (tree_of first.tree)) signs.now result }
{
    let (second, mut rest) = expr(alloc, depth, signs)?;
    let mut height = first.height.max(second.height);
    let mut parts = build::two_trees(alloc, first, second)?;
    while let Some(behind) = after(Symbol::Comma, rest) {
        let (part, later) = expr(alloc, depth, behind)?;
        height = height.max(part.height);
        parts = build::with_part(parts, part)?;
        rest = later;
    }
    build::tuple(alloc, at, parts, height, rest)
}

// What stands behind a `(` and begins with an expression.
#[cycle(expressions)]
fn enclosed<'s, 't>(
    alloc: Global,
    depth: u32,
    at: u32,
    signs: &'s [Sign<'t>],
) -> Result<(Parsed, &'s [Sign<'t>]), ParseError>
    requires unclosed { NoSymbol Symbol.Close (read_signs signs.now) }
    requires no_nil { NoSymbol Symbol.OpenSquare (read_signs signs.now) }
    requires no_absent { NoSymbol Symbol.NoneWord (read_signs signs.now) }
    ensures { ReadsTree (Past (Fixed at Symbol.Open) (IsTree depth Atom)) signs.now result }
{
    let (first, rest) = expr(alloc, depth, signs)?;
    if let Some(end) = after(Symbol::Close, rest) {
        return Ok((first, end));
    }
    let behind = expect(Symbol::Comma, rest)?;
    if first.height >= depth {
        return Err(refused_at(rest));
    }
    tuple(alloc, depth - 1, at, first, behind)
}

// What stands behind a `(`.
#[cycle(expressions)]
fn opened<'s, 't>(
    alloc: Global,
    depth: u32,
    at: u32,
    signs: &'s [Sign<'t>],
) -> Result<(Parsed, &'s [Sign<'t>]), ParseError>
    requires { 0 < depth }
    ensures { ReadsTree (Past (Fixed at Symbol.Open) (IsTree depth Atom)) signs.now result }
{
    if let Some(rest) = after(Symbol::Close, signs) {
        return build::unit(alloc, at, rest);
    }
    if let Some(behind) = after(Symbol::OpenSquare, signs) {
        return nil(alloc, at, behind);
    }
    if let Some(behind) = after(Symbol::NoneWord, signs) {
        return absent(alloc, at, behind);
    }
    enclosed(alloc, depth, at, signs)
}

// A leaf, what stands in parentheses, a `match` or a `try`.
#[cycle(expressions)]
fn atom<'s, 't>(
    alloc: Global,
    depth: u32,
    signs: &'s [Sign<'t>],
) -> Result<(Parsed, &'s [Sign<'t>]), ParseError>
    ensures { ReadsTree (IsTree depth Atom) signs.now result }
{
    if depth == 0 {
        return Err(refused_at(signs));
    }
    let at = here(signs);
    if let Some(behind) = after(Symbol::Open, signs) {
        return opened(alloc, depth, at, behind);
    }
    if let Some(behind) = after(Symbol::Match, signs) {
        let (choice, rest) = choice(alloc, depth - 1, behind)?;
        return build::match_with(alloc, at, choice, rest);
    }
    if let Some(behind) = after(Symbol::Try, signs) {
        let (choice, rest) = choice(alloc, depth - 1, behind)?;
        return build::try_with(alloc, at, choice, rest);
    }
    parsed_leaf(alloc, signs)
}

/// An atom behind a word that takes it, or an atom with its arguments.
#[cycle(expressions)]
pub fn app<'s, 't>(
    alloc: Global,
    depth: u32,
    signs: &'s [Sign<'t>],
) -> Result<(Parsed, &'s [Sign<'t>]), ParseError>
    ensures { ReadsTree (IsTree depth App) signs.now result }
{
    let Some((prefix, at, behind)) = next_prefix(signs) else {
        return applied(alloc, depth, signs);
    };
    if depth == 0 {
        return Err(refused_at(signs));
    }
    let (item, rest) = atom(alloc, depth - 1, behind)?;
    build::prefixed_by(alloc, at, prefix, item, rest)
}

// An atom with its arguments; no word that takes one stands here.
#[cycle(expressions)]
fn applied<'s, 't>(
    alloc: Global,
    depth: u32,
    signs: &'s [Sign<'t>],
) -> Result<(Parsed, &'s [Sign<'t>]), ParseError>
    requires { NoPrefix (read_signs signs.now) }
    ensures { ReadsTree (IsTree depth App) signs.now result }
{
    let at = here(signs);
    let (mut function, mut rest) = atom(alloc, depth, signs)?;
    while begins_atom(rest) {
        if function.height >= depth {
            return Err(refused_at(rest));
        }
        let (next, later) = next_argument(alloc, depth - 1, at, function, rest)?;
        function = next;
        rest = later;
    }
    Ok((function, rest))
}

// A function and the argument that stands here.
#[cycle(expressions)]
fn next_argument<'s, 't>(
    alloc: Global,
    depth: u32,
    at: u32,
    function: Parsed,
    signs: &'s [Sign<'t>],
) -> Result<(Parsed, &'s [Sign<'t>]), ParseError>
    requires low { function.height < 2 ^ 32 - 1 }
    requires small { depth < 2 ^ 32 - 1 }
    requires function { is_measured function }
    ensures { ReadsMade (IsTree depth Atom) (ExApp at (tree_of function.tree)) signs.now result }
{
    let (argument, rest) = atom(alloc, depth, signs)?;
    build::application(alloc, at, function, argument, rest)
}

// What stands behind a `let` that is not recursive.
#[cycle(expressions)]
fn let_in<'s, 't>(
    alloc: Global,
    depth: u32,
    at: u32,
    signs: &'s [Sign<'t>],
) -> Result<(Parsed, &'s [Sign<'t>]), ParseError>
    requires { depth < 2 ^ 32 - 1 }
    ensures { ReadsMade (IsLet depth) (let_tree at) signs.now result }
{
    let (binder, behind) = typed(alloc, Symbol::Equals, signs)?;
    let (bound, later) = before(alloc, Symbol::In, depth, behind)?;
    let (body, rest) = expr(alloc, depth, later)?;
    build::let_in(alloc, at, binder, bound, body, rest)
}

// What stands behind a `let rec`.
#[cycle(expressions)]
fn let_rec<'s, 't>(
    alloc: Global,
    depth: u32,
    at: u32,
    signs: &'s [Sign<'t>],
) -> Result<(Parsed, &'s [Sign<'t>]), ParseError>
    requires { depth < 2 ^ 32 - 1 }
    ensures { ReadsMade (IsLetRec depth) (let_rec_tree at) signs.now result }
{
    let (head, behind) = function_head(alloc, signs)?;
    let (bound, later) = before(alloc, Symbol::In, depth, behind)?;
    let (body, rest) = expr(alloc, depth, later)?;
    build::let_rec(alloc, at, head, bound, body, rest)
}

// What stands behind a `fun`.
#[cycle(expressions)]
fn fun<'s, 't>(
    alloc: Global,
    depth: u32,
    at: u32,
    signs: &'s [Sign<'t>],
) -> Result<(Parsed, &'s [Sign<'t>]), ParseError>
    requires { depth < 2 ^ 32 - 1 }
    ensures { ReadsMade (IsFun depth) (fun_tree at) signs.now result }
{
    let (binder, behind) = argument(alloc, signs)?;
    let later = expect(Symbol::Arrow, behind)?;
    let (body, rest) = expr(alloc, depth, later)?;
    build::fun(alloc, at, binder, body, rest)
}

// What stands behind a `rec`.
#[cycle(expressions)]
fn rec<'s, 't>(
    alloc: Global,
    depth: u32,
    at: u32,
    signs: &'s [Sign<'t>],
) -> Result<(Parsed, &'s [Sign<'t>]), ParseError>
    requires { depth < 2 ^ 32 - 1 }
    ensures { ReadsMade (IsRec depth) (rec_tree at) signs.now result }
{
    let (head, behind) = function_head(alloc, signs)?;
    let (body, rest) = expr(alloc, depth, behind)?;
    build::rec(alloc, at, head, body, rest)
}

// What stands behind an `if`.
#[cycle(expressions)]
fn if_else<'s, 't>(
    alloc: Global,
    depth: u32,
    at: u32,
    signs: &'s [Sign<'t>],
) -> Result<(Parsed, &'s [Sign<'t>]), ParseError>
    requires { depth < 2 ^ 32 - 1 }
    ensures { ReadsMade (IsIf depth) (if_tree at) signs.now result }
{
    let (test, behind) = before(alloc, Symbol::Then, depth, signs)?;
    let (so, later) = before(alloc, Symbol::Else, depth, behind)?;
    let (otherwise, rest) = part(alloc, depth, later)?;
    build::if_else(alloc, at, test, so, otherwise, rest)
}

// What stands behind a `marshal`.
#[cycle(expressions)]
fn marshal<'s, 't>(
    alloc: Global,
    depth: u32,
    at: u32,
    signs: &'s [Sign<'t>],
) -> Result<(Parsed, &'s [Sign<'t>]), ParseError>
    requires { depth < 2 ^ 32 - 1 }
    ensures { ReadsMade (IsMarshal depth) (marshal_tree at) signs.now result }
{
    let (mark, behind) = atom(alloc, depth, signs)?;
    let (value, later) = atom(alloc, depth, behind)?;
    let (ty, rest) = type_behind(alloc, Symbol::Colon, later)?;
    build::marshal_at(alloc, at, mark, value, ty, rest)
}

// What stands behind an `unmarshal`.
#[cycle(expressions)]
fn unmarshal<'s, 't>(
    alloc: Global,
    depth: u32,
    at: u32,
    signs: &'s [Sign<'t>],
) -> Result<(Parsed, &'s [Sign<'t>]), ParseError>
    requires { depth < 2 ^ 32 - 1 }
    ensures { ReadsMade (IsUnmarshal depth) (unmarshal_tree at) signs.now result }
{
    let (text, behind) = atom(alloc, depth, signs)?;
    let (ty, rest) = type_behind(alloc, Symbol::As, behind)?;
    build::unmarshal_at(alloc, at, text, ty, rest)
}

// What stands behind a `raise`.
#[cycle(expressions)]
fn raise<'s, 't>(
    alloc: Global,
    depth: u32,
    at: u32,
    signs: &'s [Sign<'t>],
) -> Result<(Parsed, &'s [Sign<'t>]), ParseError>
    requires { depth < 2 ^ 32 - 1 }
    ensures { ReadsMade (IsRaise depth) (raise_tree at) signs.now result }
{
    let (exception, behind) = atom(alloc, depth, signs)?;
    let (ty, rest) = type_behind(alloc, Symbol::Colon, behind)?;
    build::raise(alloc, at, exception, ty, rest)
}

// What stands behind the first word of a part.
#[cycle(expressions)]
fn keyword_part<'s, 't>(
    alloc: Global,
    keyword: Keyword,
    depth: u32,
    at: u32,
    signs: &'s [Sign<'t>],
) -> Result<(Parsed, &'s [Sign<'t>]), ParseError>
    requires { 0 < depth }
    ensures { ReadsTree (Past (Fixed at (keyword_symbol keyword)) (IsTree depth Part))
        signs.now result }
{
    let depth = depth - 1;
    match keyword {
        Keyword::Let => match after(Symbol::Rec, signs) {
            Some(behind) => let_rec(alloc, depth, at, behind),
            None => let_in(alloc, depth, at, signs),
        },
        Keyword::Fun => fun(alloc, depth, at, signs),
        Keyword::Rec => rec(alloc, depth, at, signs),
        Keyword::If => if_else(alloc, depth, at, signs),
        Keyword::Marshal => marshal(alloc, depth, at, signs),
        Keyword::Unmarshal => unmarshal(alloc, depth, at, signs),
        Keyword::Raise => raise(alloc, depth, at, signs),
    }
}

// What is closed or swallows.
#[cycle(expressions)]
fn part<'s, 't>(
    alloc: Global,
    depth: u32,
    signs: &'s [Sign<'t>],
) -> Result<(Parsed, &'s [Sign<'t>]), ParseError>
    ensures { ReadsTree (IsTree depth Part) signs.now result }
{
    let Some((keyword, behind)) = next_keyword(signs) else {
        return binary(alloc, 6, depth, signs);
    };
    if depth == 0 {
        return Err(refused_at(signs));
    }
    keyword_part(alloc, keyword, depth, here(signs), behind)
}

// The sequence of a first part and those behind its `;`.
#[cycle(expressions)]
fn sequence<'s, 't>(
    alloc: Global,
    depth: u32,
    at: u32,
    first: Parsed,
    signs: &'s [Sign<'t>],
) -> Result<(Parsed, &'s [Sign<'t>]), ParseError>
    requires low { first.height < 2 ^ 32 - 1 }
    requires small { depth < 2 ^ 32 - 1 }
    requires first { is_measured first }
    ensures { ReadsMade (IsParts depth) (sequence_tree at (tree_of first.tree)) signs.now result }
{
    let (second, mut rest) = part(alloc, depth, signs)?;
    let mut height = first.height.max(second.height);
    let mut parts = build::two_trees(alloc, first, second)?;
    while let Some(behind) = after(Symbol::Semicolon, rest) {
        let (next, later) = part(alloc, depth, behind)?;
        height = height.max(next.height);
        parts = build::with_part(parts, next)?;
        rest = later;
    }
    build::sequence(alloc, at, parts, height, rest)
}

/// A part, or a sequence of several.
#[cycle(expressions)]
pub fn expr<'s, 't>(
    alloc: Global,
    depth: u32,
    signs: &'s [Sign<'t>],
) -> Result<(Parsed, &'s [Sign<'t>]), ParseError>
    ensures { ReadsTree (IsTree depth Expr) signs.now result }
{
    let (first, rest) = part(alloc, depth, signs)?;
    let Some(behind) = after(Symbol::Semicolon, rest) else {
        return Ok((first, rest));
    };
    if first.height >= depth {
        return Err(refused_at(rest));
    }
    sequence(alloc, depth - 1, here(signs), first, behind)
}

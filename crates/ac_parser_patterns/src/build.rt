// Trees of expressions with their heights, and what is left behind them.

ghost use Rattle.std.specs.Prelude.{◌≡◌, ◌<◌, ◌-◌, ◌^◌, ◌∷◌, [], ◌++◌, true, false, max, map, neg_ℤ, pos, IfOk, option_map};
ghost use Rattle.ac_types.specs.ReadNumbers.{primitive_number};
ghost use Rattle.ac_syntax.specs.Trees.{ExInt, ExUnit, ExNil, ExAbsent, ExApp, ExOp, ExSeq, ExTuple, ExMatch, ExTry, tree, no_trees, trees, arm_trees, tree_height, highest, highest_arm};
ghost use Rattle.ac_syntax.specs.Expressions.{begins_atom, operator_of, operator_tree};
ghost use Rattle.ac_syntax.specs.ReadSigns.{read_signs};
ghost use Rattle.ac_syntax.specs.ReadTrees.{type_tree_of, tree_of, expr_kind_of, arm_tree_of};
ghost use Rattle.ac_parser_patterns.specs.Reading.{FindsOr};
ghost use Rattle.ac_parser_patterns.specs.Pieces.{binder_of, head_of};
ghost use Rattle.ac_parser_patterns.specs.Forms.{is_measured, prefixed, operator_read, let_tree, let_rec_tree, fun_tree, rec_tree, if_tree, marshal_tree, unmarshal_tree, raise_tree, IsMadeTree, MakesTree, Closes};

use crate::binders::{Binder, FunctionHead};
use crate::front::{Prefix, begins_atom, expect, negated};
use ac_syntax::{ParseError, SArm, SExpr, SExprKind, SFun, SType, Sign, Symbol, refused_at};
use ac_types::{Boxed, Many, Memory, Primitive};
use std::alloc::Global;

/// An expression, and its height.
#[derive(Drop)]
pub struct Parsed {
    pub tree: Boxed<SExpr>,
    pub height: u32,
}

/// What stands between a `match` or a `try` and its `end`, and the height of the highest arm.
#[derive(Drop)]
pub struct Choice {
    pub of: Parsed,
    pub arms: Many<SArm>,
    pub height: u32,
}

/// An operator between two sides: a primitive, or one that is a form of its own.
#[derive(Clone, Copy)]
pub enum Operator {
    Prim(Primitive),
    Consing,
    Both,
    Either,
}

/// An operator, with its level, 1 the tightest.
pub fn operator_of(symbol: Symbol) -> Option<(u32, Operator)>
    ensures { operator_of symbol ≡ option_map (λ x. (x.0, operator_read x.1)) result }
{
    match symbol {
        Symbol::Star => Some((1, Operator::Prim(Primitive::Mul))),
        Symbol::Slash => Some((1, Operator::Prim(Primitive::Div))),
        Symbol::Mod => Some((1, Operator::Prim(Primitive::Rem))),
        Symbol::Plus => Some((2, Operator::Prim(Primitive::Add))),
        Symbol::Minus => Some((2, Operator::Prim(Primitive::Sub))),
        Symbol::Caret => Some((2, Operator::Prim(Primitive::Concat))),
        Symbol::Cons => Some((3, Operator::Consing)),
        Symbol::Equals => Some((4, Operator::Prim(Primitive::Eq))),
        Symbol::Less => Some((4, Operator::Prim(Primitive::Lt))),
        Symbol::And => Some((5, Operator::Both)),
        Symbol::Or => Some((6, Operator::Either)),
        _ => None,
    }
}

// An expression of this kind and height.
fn made<'s, 't>(
    alloc: Global,
    at: u32,
    kind: SExprKind,
    high: u32,
    rest: &'s [Sign<'t>],
) -> Result<(Parsed, &'s [Sign<'t>]), ParseError>
    requires { high ≡ tree_height (expr_kind_of kind at) }
    ensures { MakesTree (expr_kind_of kind at) rest.now result }
{
    let tree = Boxed::new(alloc, SExpr { at, kind })?;
    let height = high;
    Ok((Parsed { tree, height }, rest))
}

/// Two sides and the operator between them.
#[tactic(auto, using(ac_syntax::proofs::ReadLaws::expr_laws))]
pub fn with_operator<'s, 't>(
    alloc: Global,
    at: u32,
    operator: Operator,
    left: Parsed,
    right: Parsed,
    rest: &'s [Sign<'t>],
) -> Result<(Parsed, &'s [Sign<'t>]), ParseError>
    requires low { max left.height right.height < 2 ^ 32 - 1 }
    requires left { is_measured left }
    requires right { is_measured right }
    ensures { MakesTree (operator_tree at (operator_read operator) (tree_of left.tree)
        (tree_of right.tree)) rest.now result }
{
    let height = left.height.max(right.height) + 1;
    let kind = match operator {
        Operator::Prim(primitive) => SExprKind::Op(primitive, two_trees(alloc, left, right)?),
        Operator::Consing => SExprKind::Cons(left.tree, right.tree),
        Operator::Both => SExprKind::And(left.tree, right.tree),
        Operator::Either => SExprKind::Or(left.tree, right.tree),
    };
    made(alloc, at, kind, height, rest)
}

/// A function applied to an argument.
#[tactic(auto, using(ac_syntax::proofs::ReadLaws::expr_laws))]
pub fn application<'s, 't>(
    alloc: Global,
    at: u32,
    function: Parsed,
    argument: Parsed,
    rest: &'s [Sign<'t>],
) -> Result<(Parsed, &'s [Sign<'t>]), ParseError>
    requires low { max function.height argument.height < 2 ^ 32 - 1 }
    requires function { is_measured function }
    requires argument { is_measured argument }
    ensures { MakesTree (ExApp at (tree_of function.tree) (tree_of argument.tree)) rest.now result }
{
    let height = function.height.max(argument.height) + 1;
    let kind = SExprKind::App(function.tree, argument.tree);
    made(alloc, at, kind, height, rest)
}

/// An expression with the word that takes it, behind which no further atom may begin.
#[tactic(auto, using(ac_syntax::proofs::ReadLaws::expr_laws))]
pub fn prefixed_by<'s, 't>(
    alloc: Global,
    at: u32,
    prefix: Prefix,
    item: Parsed,
    rest: &'s [Sign<'t>],
) -> Result<(Parsed, &'s [Sign<'t>]), ParseError>
    requires low { item.height < 2 ^ 32 - 1 }
    requires item { is_measured item }
    ensures { FindsOr result (λ x. IsMadeTree (prefixed prefix at (tree_of item.tree)) rest.now x.0
        x.1.now ×
        (begins_atom (read_signs rest.now) ≡ false)) (begins_atom (read_signs rest.now) ≡ true) }
{
    if begins_atom(rest) {
        return Err(refused_at(rest));
    }
    let height = item.height + 1;
    let item = item.tree;
    match prefix {
        Prefix::Present => made(alloc, at, SExprKind::Present(item), height, rest),
        Prefix::Exn(exn) => {
            let kind = SExprKind::ExnOf(exn, item);
            made(alloc, at, kind, height, rest)
        }
    }
}

/// A `let`.
#[tactic(auto, using(ac_syntax::proofs::ReadLaws::expr_laws))]
pub fn let_in<'s, 't>(
    alloc: Global,
    at: u32,
    binder: Binder,
    bound: Parsed,
    body: Parsed,
    rest: &'s [Sign<'t>],
) -> Result<(Parsed, &'s [Sign<'t>]), ParseError>
    requires low { max bound.height body.height < 2 ^ 32 - 1 }
    requires bound { is_measured bound }
    requires body { is_measured body }
    ensures { MakesTree (let_tree at (binder_of binder, (tree_of bound.tree, tree_of body.tree)))
        rest.now result }
{
    let height = bound.height.max(body.height) + 1;
    let (name, ty) = binder.into_parts();
    let kind = SExprKind::Let(name, ty, bound.tree, body.tree);
    made(alloc, at, kind, height, rest)
}

/// A `let rec`.
#[tactic(auto, using(ac_syntax::proofs::ReadLaws::expr_laws))]
pub fn let_rec<'s, 't>(
    alloc: Global,
    at: u32,
    head: FunctionHead,
    bound: Parsed,
    body: Parsed,
    rest: &'s [Sign<'t>],
) -> Result<(Parsed, &'s [Sign<'t>]), ParseError>
    requires low { max bound.height body.height < 2 ^ 32 - 1 }
    requires bound { is_measured bound }
    requires body { is_measured body }
    ensures { MakesTree (let_rec_tree at (head_of head, (tree_of bound.tree, tree_of body.tree)))
        rest.now result }
{
    let height = bound.height.max(body.height) + 1;
    let (name, argument, result) = head.into_parts();
    let (arg, ty) = argument.into_parts();
    let function = SFun {
        name,
        arg,
        ty,
        result,
        body: bound.tree,
    };
    let kind = SExprKind::LetRec(function, body.tree);
    made(alloc, at, kind, height, rest)
}

/// A `fun`.
#[tactic(auto, using(ac_syntax::proofs::ReadLaws::expr_laws))]
pub fn fun<'s, 't>(
    alloc: Global,
    at: u32,
    binder: Binder,
    body: Parsed,
    rest: &'s [Sign<'t>],
) -> Result<(Parsed, &'s [Sign<'t>]), ParseError>
    requires low { body.height < 2 ^ 32 - 1 }
    requires body { is_measured body }
    ensures { MakesTree (fun_tree at (binder_of binder, tree_of body.tree)) rest.now result }
{
    let height = body.height + 1;
    let (name, ty) = binder.into_parts();
    let kind = SExprKind::Fun(name, ty, body.tree);
    made(alloc, at, kind, height, rest)
}

/// A `rec`.
#[tactic(auto, using(ac_syntax::proofs::ReadLaws::expr_laws))]
pub fn rec<'s, 't>(
    alloc: Global,
    at: u32,
    head: FunctionHead,
    body: Parsed,
    rest: &'s [Sign<'t>],
) -> Result<(Parsed, &'s [Sign<'t>]), ParseError>
    requires low { body.height < 2 ^ 32 - 1 }
    requires body { is_measured body }
    ensures { MakesTree (rec_tree at (head_of head, tree_of body.tree)) rest.now result }
{
    let height = body.height + 1;
    let (name, argument, result) = head.into_parts();
    let (arg, ty) = argument.into_parts();
    let function = SFun {
        name,
        arg,
        ty,
        result,
        body: body.tree,
    };
    let kind = SExprKind::Rec(function);
    made(alloc, at, kind, height, rest)
}

/// An `if`.
#[tactic(auto, using(ac_syntax::proofs::ReadLaws::expr_laws))]
pub fn if_else<'s, 't>(
    alloc: Global,
    at: u32,
    test: Parsed,
    so: Parsed,
    otherwise: Parsed,
    rest: &'s [Sign<'t>],
) -> Result<(Parsed, &'s [Sign<'t>]), ParseError>
    requires low { max test.height (max so.height otherwise.height) < 2 ^ 32 - 1 }
    requires test { is_measured test }
    requires so { is_measured so }
    requires otherwise { is_measured otherwise }
    ensures { MakesTree (if_tree at (tree_of test.tree, (tree_of so.tree, tree_of otherwise.tree)))
        rest.now result }
{
    let height = test.height.max(so.height.max(otherwise.height)) + 1;
    let kind = SExprKind::If(test.tree, so.tree, otherwise.tree);
    made(alloc, at, kind, height, rest)
}

/// A `marshal_at`.
#[tactic(auto, using(ac_syntax::proofs::ReadLaws::expr_laws))]
pub fn marshal_at<'s, 't>(
    alloc: Global,
    at: u32,
    mark: Parsed,
    value: Parsed,
    ty: SType,
    rest: &'s [Sign<'t>],
) -> Result<(Parsed, &'s [Sign<'t>]), ParseError>
    requires low { max mark.height value.height < 2 ^ 32 - 1 }
    requires mark { is_measured mark }
    requires value { is_measured value }
    ensures { MakesTree (marshal_tree at (tree_of mark.tree, (tree_of value.tree, type_tree_of ty)))
        rest.now result }
{
    let height = mark.height.max(value.height) + 1;
    let kind = SExprKind::Marshal(mark.tree, value.tree, ty);
    made(alloc, at, kind, height, rest)
}

/// An `unmarshal_at`.
#[tactic(auto, using(ac_syntax::proofs::ReadLaws::expr_laws))]
pub fn unmarshal_at<'s, 't>(
    alloc: Global,
    at: u32,
    text: Parsed,
    ty: SType,
    rest: &'s [Sign<'t>],
) -> Result<(Parsed, &'s [Sign<'t>]), ParseError>
    requires low { text.height < 2 ^ 32 - 1 }
    requires text { is_measured text }
    ensures { MakesTree (unmarshal_tree at (tree_of text.tree, type_tree_of ty)) rest.now result }
{
    let height = text.height + 1;
    made(alloc, at, SExprKind::Unmarshal(text.tree, ty), height, rest)
}

/// A `raise`.
#[tactic(auto, using(ac_syntax::proofs::ReadLaws::expr_laws))]
pub fn raise<'s, 't>(
    alloc: Global,
    at: u32,
    exception: Parsed,
    ty: SType,
    rest: &'s [Sign<'t>],
) -> Result<(Parsed, &'s [Sign<'t>]), ParseError>
    requires low { exception.height < 2 ^ 32 - 1 }
    requires exception { is_measured exception }
    ensures { MakesTree (raise_tree at (tree_of exception.tree, type_tree_of ty)) rest.now result }
{
    let height = exception.height + 1;
    made(
        alloc,
        at,
        SExprKind::Raise(exception.tree, ty),
        height,
        rest,
    )
}

/// The primitive of this number on one operand.
#[tactic(auto, using(crate::proofs::ExprLaws::list_laws))]
pub fn operation<'s, 't>(
    alloc: Global,
    at: u32,
    primitive: Primitive,
    operand: Parsed,
    rest: &'s [Sign<'t>],
) -> Result<(Parsed, &'s [Sign<'t>]), ParseError>
    requires low { operand.height < 2 ^ 32 - 1 }
    requires operand { is_measured operand }
    ensures { MakesTree (ExOp at (primitive_number primitive)
        (tree (tree_of operand.tree) no_trees)) rest.now result }
{
    let height = operand.height + 1;
    let parts = with_part(Many::new(alloc), operand)?;
    made(alloc, at, SExprKind::Op(primitive, parts), height, rest)
}

/// A sequence of parts, of which the highest has this height.
#[tactic(auto, using(crate::proofs::ExprLaws::list_laws))]
pub fn sequence<'s, 't>(
    alloc: Global,
    at: u32,
    parts: Many<SExpr>,
    most: u32,
    rest: &'s [Sign<'t>],
) -> Result<(Parsed, &'s [Sign<'t>]), ParseError>
    requires low { most < 2 ^ 32 - 1 }
    requires highest { most ≡ highest (trees (map tree_of parts)) }
    ensures { MakesTree (ExSeq at (trees (map tree_of parts))) rest.now result }
{
    made(alloc, at, SExprKind::Seq(parts), most + 1, rest)
}

/// A tuple of parts, of which the highest has this height, with its `)`.
#[tactic(auto, using(crate::proofs::ExprLaws::list_laws))]
pub fn tuple<'s, 't>(
    alloc: Global,
    at: u32,
    parts: Many<SExpr>,
    most: u32,
    rest: &'s [Sign<'t>],
) -> Result<(Parsed, &'s [Sign<'t>]), ParseError>
    requires low { most < 2 ^ 32 - 1 }
    requires highest { most ≡ highest (trees (map tree_of parts)) }
    ensures { Closes (ExTuple at (trees (map tree_of parts))) rest.now result }
{
    let end = expect(Symbol::Close, rest)?;
    made(alloc, at, SExprKind::Tuple(parts), most + 1, end)
}

/// A `match`.
#[tactic(auto, using(ac_syntax::proofs::ReadLaws::expr_laws))]
pub fn match_with<'s, 't>(
    alloc: Global,
    at: u32,
    choice: Choice,
    rest: &'s [Sign<'t>],
) -> Result<(Parsed, &'s [Sign<'t>]), ParseError>
    requires low { max choice.of.height choice.height < 2 ^ 32 - 1 }
    requires of_tree { is_measured choice.of }
    requires arms { choice.height ≡ highest_arm (arm_trees (map arm_tree_of choice.arms)) }
    ensures { MakesTree (ExMatch at (tree_of choice.of.tree)
        (arm_trees (map arm_tree_of choice.arms))) rest.now result }
{
    let height = choice.of.height.max(choice.height) + 1;
    made(
        alloc,
        at,
        SExprKind::Match(choice.of.tree, choice.arms),
        height,
        rest,
    )
}

/// A `try`.
#[tactic(auto, using(ac_syntax::proofs::ReadLaws::expr_laws))]
pub fn try_with<'s, 't>(
    alloc: Global,
    at: u32,
    choice: Choice,
    rest: &'s [Sign<'t>],
) -> Result<(Parsed, &'s [Sign<'t>]), ParseError>
    requires low { max choice.of.height choice.height < 2 ^ 32 - 1 }
    requires of_tree { is_measured choice.of }
    requires arms { choice.height ≡ highest_arm (arm_trees (map arm_tree_of choice.arms)) }
    ensures { MakesTree (ExTry at (tree_of choice.of.tree)
        (arm_trees (map arm_tree_of choice.arms))) rest.now result }
{
    let height = choice.of.height.max(choice.height) + 1;
    made(
        alloc,
        at,
        SExprKind::Try(choice.of.tree, choice.arms),
        height,
        rest,
    )
}

/// A number behind its `-`.
#[tactic(auto, using(ac_syntax::proofs::ReadLaws::expr_laws))]
pub fn negative<'s, 't>(
    alloc: Global,
    at: u32,
    n: u64,
    rest: &'s [Sign<'t>],
) -> Result<(Parsed, &'s [Sign<'t>]), ParseError>
    ensures { MakesTree (ExInt at (neg_ℤ (pos n))) rest.now result }
{
    let n = negated(n)?;
    made(alloc, at, SExprKind::Int(n), 1, rest)
}

/// The empty tuple.
#[tactic(auto, using(ac_syntax::proofs::ReadLaws::expr_laws))]
pub fn unit<'s, 't>(
    alloc: Global,
    at: u32,
    rest: &'s [Sign<'t>],
) -> Result<(Parsed, &'s [Sign<'t>]), ParseError>
    ensures { MakesTree (ExUnit at) rest.now result }
{
    made(alloc, at, SExprKind::Unit, 1, rest)
}

/// The empty list of a type.
#[tactic(auto, using(ac_syntax::proofs::ReadLaws::expr_laws))]
pub fn nil_at<'s, 't>(
    alloc: Global,
    at: u32,
    ty: SType,
    rest: &'s [Sign<'t>],
) -> Result<(Parsed, &'s [Sign<'t>]), ParseError>
    ensures { MakesTree (ExNil at (type_tree_of ty)) rest.now result }
{
    made(alloc, at, SExprKind::Nil(ty), 1, rest)
}

/// `None` of a type.
#[tactic(auto, using(ac_syntax::proofs::ReadLaws::expr_laws))]
pub fn absent_at<'s, 't>(
    alloc: Global,
    at: u32,
    ty: SType,
    rest: &'s [Sign<'t>],
) -> Result<(Parsed, &'s [Sign<'t>]), ParseError>
    ensures { MakesTree (ExAbsent at (type_tree_of ty)) rest.now result }
{
    made(alloc, at, SExprKind::Absent(ty), 1, rest)
}

/// The parts, and one more behind them.
pub fn with_part(mut parts: Many<SExpr>, part: Parsed) -> Result<Many<SExpr>, Memory>
    ensures { IfOk result (λ all. all ≡ parts ++ part.tree ∷ []) }
{
    parts.push(part.tree.into_inner())?;
    Ok(parts)
}

/// The trees of two expressions.
pub fn two_trees(alloc: Global, first: Parsed, second: Parsed) -> Result<Many<SExpr>, Memory>
    ensures { IfOk result (λ parts. parts ≡ first.tree ∷ second.tree ∷ []) }
{
    let parts = with_part(Many::new(alloc), first)?;
    with_part(parts, second)
}

/// The arms, and one more behind them.
pub fn with_arm(mut arms: Many<SArm>, arm: SArm) -> Result<Many<SArm>, Memory>
    ensures { IfOk result (λ all. all ≡ arms ++ arm ∷ []) }
{
    arms.push(arm)?;
    Ok(arms)
}

// Expressions that are leaves.

ghost use Rattle.std.specs.Prelude.{◌≡◌, ℕ, ◌∷◌, MatchOption, Some, None};
ghost use Rattle.ac_syntax.specs.Signs.{Upper};
ghost use Rattle.ac_syntax.specs.Trees.{ExNil, ExAbsent};
ghost use Rattle.ac_syntax.specs.ReadTrees.{tree_of, expr_kind_of};
ghost use Rattle.ac_parser_expressions.specs.inner.Levels.{NoOtherLeaf, base_expr, FormLeafAt, NoFormLeaf, ReadsTreeOr, ReadsMade};
ghost use Rattle.ac_parser_patterns.specs.Reading.{ReadsOr};
ghost use Rattle.ac_parser_patterns.specs.Pieces.{Behind, IsAscribed, Past};

use ac_parser_patterns::build::{self, Parsed};
use ac_parser_patterns::{ascribed, constant, expect, lower_name};
use ac_syntax::{ParseError, SExpr, SExprKind, SName, Sign, SignKind, Symbol, next, refused_at};
use ac_types::{BareExn, Boxed, Word};
use std::alloc::Global;

#[tactic(auto, using(ac_syntax::proofs::ReadLaws::expr_laws))]
fn base_kind(symbol: Symbol) -> Option<SExprKind>
    ensures { (at : ℕ) → MatchOption result (base_expr symbol at ≡ None)
        (λ kind. base_expr symbol at ≡ Some (expr_kind_of kind at)) }
{
    match symbol {
        Symbol::True => Some(SExprKind::Bool(true)),
        Symbol::False => Some(SExprKind::Bool(false)),
        Symbol::NotFound => Some(SExprKind::Exn(BareExn::NotFound)),
        Symbol::DivisionByZero => Some(SExprKind::Exn(BareExn::DivisionByZero)),
        Symbol::MatchFailure => Some(SExprKind::Exn(BareExn::MatchFailure)),
        Symbol::EndOfFile => Some(SExprKind::Exn(BareExn::EndOfFile)),
        _ => None,
    }
}

// A field of another module: what stands behind the module's name.
fn field<'s, 't>(
    alloc: Global,
    at: u32,
    word: &Word,
    signs: &'s [Sign<'t>],
) -> Result<(SExpr, &'s [Sign<'t>]), ParseError>
    ensures { ReadsOr (λ ts. NoFormLeaf (Upper at word.now ∷ ts))
        (Past (Upper at word.now) FormLeafAt) tree_of signs.now result }
{
    let behind = expect(Symbol::Dot, signs)?;
    let (field, rest) = lower_name(alloc, behind)?;
    let word = word.copy(alloc)?;
    let kind = SExprKind::Of(SName { at, word }, field);
    Ok((SExpr { at, kind }, rest))
}

// An atom that is a leaf and begins with no `(`, `match` or `try`.
fn leaf<'s, 't>(alloc: Global, signs: &'s [Sign<'t>]) -> Result<(SExpr, &'s [Sign<'t>]), ParseError>
    ensures { ReadsOr NoOtherLeaf FormLeafAt tree_of signs.now result }
{
    let Some((first, rest)) = next(signs) else {
        return Err(refused_at(signs));
    };
    let at = first.at;
    match first.kind {
        SignKind::Int(n) => {
            let kind = SExprKind::Int(constant(n)?);
            Ok((SExpr { at, kind }, rest))
        }
        SignKind::Str(text) => {
            let kind = SExprKind::Str(text.copy(alloc)?);
            Ok((SExpr { at, kind }, rest))
        }
        SignKind::Lower(word) => {
            let kind = SExprKind::Var(word.copy(alloc)?);
            Ok((SExpr { at, kind }, rest))
        }
        SignKind::Upper(word) => field(alloc, at, word, rest),
        SignKind::Fixed(symbol) => match base_kind(symbol) {
            Some(kind) => Ok((SExpr { at, kind }, rest)),
            None => Err(refused_at(signs)),
        },
        SignKind::Other => Err(refused_at(signs)),
    }
}

/// An atom that is a leaf and begins with no `(`, `match` or `try`, with its height.
pub fn parsed_leaf<'s, 't>(
    alloc: Global,
    signs: &'s [Sign<'t>],
) -> Result<(Parsed, &'s [Sign<'t>]), ParseError>
    ensures { ReadsTreeOr NoOtherLeaf FormLeafAt signs.now result }
{
    let (tree, rest) = leaf(alloc, signs)?;
    let tree = Boxed::new(alloc, tree)?;
    Ok((Parsed { tree, height: 1 }, rest))
}

/// What stands behind a `([`.
pub fn nil<'s, 't>(
    alloc: Global,
    at: u32,
    signs: &'s [Sign<'t>],
) -> Result<(Parsed, &'s [Sign<'t>]), ParseError>
    ensures { ReadsMade (Behind Symbol.CloseSquare (IsAscribed Symbol.Close)) (ExNil at)
        signs.now result }
{
    let behind = expect(Symbol::CloseSquare, signs)?;
    let (ty, rest) = ascribed(alloc, Symbol::Close, behind)?;
    build::nil_at(alloc, at, ty, rest)
}

/// What stands behind a `(None`.
pub fn absent<'s, 't>(
    alloc: Global,
    at: u32,
    signs: &'s [Sign<'t>],
) -> Result<(Parsed, &'s [Sign<'t>]), ParseError>
    ensures { ReadsMade (IsAscribed Symbol.Close) (ExAbsent at) signs.now result }
{
    let (ty, rest) = ascribed(alloc, Symbol::Close, signs)?;
    build::absent_at(alloc, at, ty, rest)
}

// Expressions within their bound.

ghost use Rattle.ac_syntax.specs.Expressions.{IsExpr};
ghost use Rattle.ac_syntax.specs.ReadTrees.{tree_of};
ghost use Rattle.ac_parser_patterns.specs.Reading.{ReadsKind};

use crate::expressions::expr;
use ac_syntax::{ParseError, SExpr, Sign};
use ac_types::limits::HIGHEST_EXPRESSION;
use std::alloc::Global;

/// The expression at the front, taken as long as it can be, and what is left. It has a height of at
/// most `HIGHEST_EXPRESSION`.
/// `Syntax` where no expression stands there.
pub fn expression<'s, 't>(
    alloc: Global,
    signs: &'s [Sign<'t>],
) -> Result<(SExpr, &'s [Sign<'t>]), ParseError>
    ensures { ReadsKind IsExpr tree_of signs.now result }
{
    let (parsed, rest) = expr(alloc, HIGHEST_EXPRESSION, signs)?;
    Ok((parsed.tree.into_inner(), rest))
}

// The definitions that signs begin with.

ghost use Rattle.ac_syntax.specs.Signs.{Fixed};
ghost use Rattle.ac_syntax.specs.Programs.{ParsesDef};
ghost use Rattle.ac_syntax.specs.ReadTrees.{def_tree_of};
ghost use Rattle.ac_parser.specs.inner.ProgramParsing.{NoComma, ReadsBehind, ReadsDef};

use crate::front::next_text;
use crate::imports::import;
use crate::modules::module;
use ac_syntax::{ParseError, SDef, SDefKind, Sign, Symbol, after, here, refused_at};
use std::alloc::Global;

// The mark behind the `mark` that stands at this place.
fn mark<'s, 't>(
    alloc: Global,
    at: u32,
    signs: &'s [Sign<'t>],
) -> Result<(SDef, &'s [Sign<'t>]), ParseError>
    ensures { ReadsBehind (Fixed at Symbol.Mark) ParsesDef NoComma def_tree_of signs.now result }
{
    let Some((text_at, text, rest)) = next_text(alloc, signs)? else {
        return Err(refused_at(signs));
    };
    let kind = SDefKind::Mark { text_at, text };
    Ok((SDef { at, kind }, rest))
}

/// The definition at the front, where one begins, and what is left: all of the signs where none
/// begins.
pub fn next_def<'s, 't>(
    alloc: Global,
    signs: &'s [Sign<'t>],
) -> Result<(Option<SDef>, &'s [Sign<'t>]), ParseError>
    ensures { ReadsDef signs.now result }
{
    let at = here(signs);
    if let Some(behind) = after(Symbol::Module, signs) {
        let (found, rest) = module(alloc, at, behind)?;
        return Ok((Some(found), rest));
    }
    if let Some(behind) = after(Symbol::Import, signs) {
        let (found, rest) = import(alloc, at, behind)?;
        return Ok((Some(found), rest));
    }
    let Some(behind) = after(Symbol::Mark, signs) else {
        return Ok((None, signs));
    };
    let (found, rest) = mark(alloc, at, behind)?;
    Ok((Some(found), rest))
}

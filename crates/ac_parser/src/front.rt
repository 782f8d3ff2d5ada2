// What stands at the front of the signs.

ghost use Rattle.std.specs.Prelude.{◌<◌, length, IfOk, IfSome, MatchOption};
ghost use Rattle.ac_syntax.specs.ReadSigns.{read_signs};
ghost use Rattle.ac_syntax.specs.ReadTrees.{name_of, abbrev_of};
ghost use Rattle.ac_parser.specs.inner.ProgramParsing.{UpperAt, NoUpper, TextAt, NoText, Anything, AbbrevAt, HeadAt, head_read, ReadsOnly};
ghost use Rattle.ac_parser_patterns.specs.Reading.{ReadsKind};

use ac_syntax::{
    ParseError, SAbbrev, SName, SSig, Sign, SignKind, Symbol, after, next, next_name, refused_at,
    sig, whole_type,
};
use ac_types::limits::HIGHEST_WRITTEN_TYPE;
use ac_types::{Memory, Text};
use std::alloc::Global;

/// An upper name at the front.
pub fn next_upper<'s, 't>(
    alloc: Global,
    signs: &'s [Sign<'t>],
) -> Result<Option<(SName, &'s [Sign<'t>])>, Memory>
    ensures found { IfOk result (λ o. MatchOption o (NoUpper (read_signs signs.now))
        (λ x. UpperAt (name_of x.0) (read_signs signs.now) (read_signs x.1.now))) }
    ensures shorter { IfOk result (λ o. IfSome o (λ x. length x.1.now < length signs.now)) }
{
    let Some((first, rest)) = next(signs) else {
        return Ok(None);
    };
    let SignKind::Upper(word) = first.kind else {
        return Ok(None);
    };
    let word = word.copy(alloc)?;
    Ok(Some((SName { at: first.at, word }, rest)))
}

/// A string at the front, and its place.
pub fn next_text<'s, 't>(
    alloc: Global,
    signs: &'s [Sign<'t>],
) -> Result<Option<(u32, Text, &'s [Sign<'t>])>, Memory>
    ensures found { IfOk result (λ o. MatchOption o (NoText (read_signs signs.now))
        (λ x. TextAt x.0 x.1.0 (read_signs signs.now) (read_signs x.2.now))) }
    ensures shorter { IfOk result (λ o. IfSome o (λ x. length x.2.now < length signs.now)) }
{
    let Some((first, rest)) = next(signs) else {
        return Ok(None);
    };
    let SignKind::Str(text) = first.kind else {
        return Ok(None);
    };
    let text = text.copy(alloc)?;
    Ok(Some((first.at, text, rest)))
}

/// The abbreviation behind a `type`.
pub fn abbreviation<'s, 't>(
    alloc: Global,
    signs: &'s [Sign<'t>],
) -> Result<(SAbbrev, &'s [Sign<'t>]), ParseError>
    ensures { ReadsKind AbbrevAt abbrev_of signs.now result }
{
    let Some((name, rest)) = next_name(alloc, signs)? else {
        return Err(refused_at(signs));
    };
    let Some(behind) = after(Symbol::Equals, rest) else {
        return Err(refused_at(rest));
    };
    let (ty, end) = whole_type(alloc, HIGHEST_WRITTEN_TYPE, behind)?;
    Ok((SAbbrev { name, ty: ty.tree }, end))
}

/// The name of a module or an import, and its signature.
pub fn module_head<'s, 't>(
    alloc: Global,
    signs: &'s [Sign<'t>],
) -> Result<((SName, SSig), &'s [Sign<'t>]), ParseError>
    ensures { ReadsOnly HeadAt Anything head_read signs.now result }
{
    let Some((name, rest)) = next_upper(alloc, signs)? else {
        return Err(refused_at(signs));
    };
    let Some(behind) = after(Symbol::Colon, rest) else {
        return Err(refused_at(rest));
    };
    let (found, end) = sig(alloc, behind)?;
    Ok(((name, found), end))
}

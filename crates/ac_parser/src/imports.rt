// Imports: what they ask for, and where they look.

ghost use Rattle.std.specs.Prelude.{◌<◌, ◌∷◌, ℕ, map, option_map, length, IfOk, IfSome, MatchOption};
ghost use Rattle.ac_syntax.specs.Signs.{Fixed};
ghost use Rattle.ac_syntax.specs.Programs.{ParsesResolve, ParsesDef};
ghost use Rattle.ac_types.specs.ReadTypes.{resolve_of};
ghost use Rattle.ac_syntax.specs.ReadSigns.{read_signs};
ghost use Rattle.ac_syntax.specs.ReadTrees.{name_of, abbrevs_of, def_tree_of};
ghost use Rattle.ac_parser.specs.inner.ProgramParsing.{NoRead, Anything, NoComma, LikeAt, NameWanted, DemandAt, demand_read, ResolveAt, NoResolve, ReadsOnly, ReadsBehind};
ghost use Rattle.ac_parser_patterns.specs.Reading.{ReadsOr};

use crate::front::{module_head, next_upper};
use crate::modules::abbreviations;
use crate::versions::constraint;
use ac_syntax::{
    ParseError, SAbbrev, SDef, SDefKind, SName, SWants, Sign, SignKind, Symbol, after, next,
    refused_at,
};
use ac_types::{Many, Memory, Resolve};
use std::alloc::Global;

// The likespec of an import, where one is written, and the `by` behind it.
fn likespec<'s, 't>(
    alloc: Global,
    signs: &'s [Sign<'t>],
) -> Result<(Option<Many<SAbbrev>>, &'s [Sign<'t>]), ParseError>
    ensures { ReadsOnly LikeAt Anything (option_map abbrevs_of) signs.now result }
{
    if let Some(rest) = after(Symbol::By, signs) {
        return Ok((None, rest));
    }
    let Some(behind) = after(Symbol::Like, signs) else {
        return Err(refused_at(signs));
    };
    let (found, later) = abbreviations(alloc, behind)?;
    let Some(rest) = after(Symbol::By, later) else {
        return Err(refused_at(later));
    };
    Ok((Some(found), rest))
}

// The definition behind the `name` of an import, and the `by` behind it.
fn name_wanted<'s, 't>(
    alloc: Global,
    signs: &'s [Sign<'t>],
) -> Result<(SName, &'s [Sign<'t>]), ParseError>
    ensures { ReadsOr (λ ts. (a : ℕ) → NoRead NameWanted Anything (Fixed a Symbol.NameWord ∷ ts))
        (λ ts x rest. (a : ℕ) → NameWanted (Fixed a Symbol.NameWord ∷ ts) x rest) name_of
        signs.now result }
{
    let Some(behind) = after(Symbol::Equals, signs) else {
        return Err(refused_at(signs));
    };
    let Some((name, later)) = next_upper(alloc, behind)? else {
        return Err(refused_at(behind));
    };
    let Some(rest) = after(Symbol::By, later) else {
        return Err(refused_at(later));
    };
    Ok((name, rest))
}

// What stands between an import's `version` and the places where it looks.
fn demand<'s, 't>(
    alloc: Global,
    signs: &'s [Sign<'t>],
) -> Result<((SWants, Option<Many<SAbbrev>>), &'s [Sign<'t>]), ParseError>
    ensures { ReadsOnly DemandAt Anything demand_read signs.now result }
{
    if let Some(behind) = after(Symbol::NameWord, signs) {
        let (name, rest) = name_wanted(alloc, behind)?;
        return Ok(((SWants::NameOf(name), None), rest));
    }
    let (constraint, behind) = constraint(alloc, signs)?;
    let (like, rest) = likespec(alloc, behind)?;
    Ok(((SWants::Ranges(constraint), like), rest))
}

// A place where an import looks, at the front.
fn next_resolve<'s, 't>(
    alloc: Global,
    signs: &'s [Sign<'t>],
) -> Result<Option<(Resolve, &'s [Sign<'t>])>, Memory>
    ensures found { IfOk result (λ o. MatchOption o (NoResolve (read_signs signs.now))
        (λ x. ResolveAt (read_signs signs.now) (resolve_of x.0) (read_signs x.1.now))) }
    ensures shorter { IfOk result (λ o. IfSome o (λ x. length x.1.now < length signs.now)) }
{
    let Some((first, rest)) = next(signs) else {
        return Ok(None);
    };
    match first.kind {
        SignKind::Fixed(Symbol::StaticLink) => Ok(Some((Resolve::StaticLink, rest))),
        SignKind::Fixed(Symbol::HereAlready) => Ok(Some((Resolve::HereAlready, rest))),
        SignKind::Str(text) => {
            let text = text.copy(alloc)?;
            Ok(Some((Resolve::Uri(text), rest)))
        }
        _ => Ok(None),
    }
}

// The places where an import looks, all that stand here.
fn resolves<'s, 't>(
    alloc: Global,
    signs: &'s [Sign<'t>],
) -> Result<(Many<Resolve>, &'s [Sign<'t>]), ParseError>
    ensures { ReadsOnly ParsesResolve NoComma (map resolve_of) signs.now result }
{
    let Some((first, mut rest)) = next_resolve(alloc, signs)? else {
        return Err(refused_at(signs));
    };
    let mut found = Many::new(alloc);
    found.push(first)?;
    while let Some(behind) = after(Symbol::Comma, rest) {
        let Some((place, later)) = next_resolve(alloc, behind)? else {
            return Err(refused_at(behind));
        };
        found.push(place)?;
        rest = later;
    }
    Ok((found, rest))
}

/// The import behind the `import` that stands at this place.
pub fn import<'s, 't>(
    alloc: Global,
    at: u32,
    signs: &'s [Sign<'t>],
) -> Result<(SDef, &'s [Sign<'t>]), ParseError>
    ensures { ReadsBehind (Fixed at Symbol.Import) ParsesDef NoComma def_tree_of signs.now result }
{
    let ((name, sig), rest) = module_head(alloc, signs)?;
    let Some(asked) = after(Symbol::Version, rest) else {
        return Err(refused_at(rest));
    };
    let ((wants, like), behind) = demand(alloc, asked)?;
    let (by, end) = resolves(alloc, behind)?;
    let kind = SDefKind::Import {
        name,
        sig,
        wants,
        like,
        by,
    };
    Ok((SDef { at, kind }, end))
}

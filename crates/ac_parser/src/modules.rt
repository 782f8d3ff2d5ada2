// Modules, and the lists of their fields.

ghost use Rattle.std.specs.Prelude.{◌∷◌, ℕ, map};
ghost use Rattle.ac_syntax.specs.Signs.{Fixed};
ghost use Rattle.ac_syntax.specs.Programs.{ParsesFields, ParsesAbbrevs, ParsesDef};
ghost use Rattle.ac_syntax.specs.ReadTrees.{abbrev_of, field_tree_of, def_tree_of};
ghost use Rattle.ac_syntax.specs.PartParsing.{NoSymbol};
ghost use Rattle.ac_parser.specs.inner.ProgramParsing.{NoRead, Anything, NoComma, StructOf, ItemAt, ReadsOnly, ReadsBehind};
ghost use Rattle.ac_parser_patterns.specs.Reading.{ReadsOr};

use crate::front::{abbreviation, module_head};
use crate::versions::version;
use ac_parser_expressions::expression;
use ac_syntax::{
    ParseError, SAbbrev, SDef, SDefKind, SField, Sign, Symbol, after, next_name, refused_at,
    whole_type,
};
use ac_types::Many;
use ac_types::limits::HIGHEST_WRITTEN_TYPE;
use std::alloc::Global;

/// The `struct` of a likespec, its abbreviations and its `end`.
pub fn abbreviations<'s, 't>(
    alloc: Global,
    signs: &'s [Sign<'t>],
) -> Result<(Many<SAbbrev>, &'s [Sign<'t>]), ParseError>
    ensures { ReadsOnly (StructOf ParsesAbbrevs) Anything (map abbrev_of) signs.now result }
{
    let Some(inner) = after(Symbol::Struct, signs) else {
        return Err(refused_at(signs));
    };
    let mut rest = inner;
    let mut found = Many::new(alloc);
    loop {
        if let Some(end) = after(Symbol::End, rest) {
            return Ok((found, end));
        }
        let Some(behind) = after(Symbol::TypeWord, rest) else {
            return Err(refused_at(rest));
        };
        let (next, later) = abbreviation(alloc, behind)?;
        found.push(next)?;
        rest = later;
    }
}

// The field behind a `val`.
fn value_field<'s, 't>(
    alloc: Global,
    signs: &'s [Sign<'t>],
) -> Result<(SField, &'s [Sign<'t>]), ParseError>
    ensures { ReadsOr (λ ts. (a : ℕ) → NoRead ParsesFields Anything (Fixed a Symbol.Val ∷ ts))
        (λ ts x rest. (a : ℕ) → ItemAt ParsesFields (Fixed a Symbol.Val ∷ ts) x rest)
        field_tree_of signs.now result }
{
    let Some((name, rest)) = next_name(alloc, signs)? else {
        return Err(refused_at(signs));
    };
    let Some(behind) = after(Symbol::Colon, rest) else {
        return Err(refused_at(rest));
    };
    let (ty, later) = whole_type(alloc, HIGHEST_WRITTEN_TYPE, behind)?;
    let Some(inner) = after(Symbol::Equals, later) else {
        return Err(refused_at(later));
    };
    let (body, end) = expression(alloc, inner)?;
    Ok((SField::Val(name, ty.tree, body), end))
}

// The field at the front.
fn field<'s, 't>(
    alloc: Global,
    signs: &'s [Sign<'t>],
) -> Result<(SField, &'s [Sign<'t>]), ParseError>
    ensures { ReadsOr (λ ts. NoSymbol Symbol.End ts → NoRead ParsesFields Anything ts)
        (ItemAt ParsesFields) field_tree_of signs.now result }
{
    if let Some(behind) = after(Symbol::Val, signs) {
        return value_field(alloc, behind);
    }
    let Some(behind) = after(Symbol::TypeWord, signs) else {
        return Err(refused_at(signs));
    };
    let (found, rest) = abbreviation(alloc, behind)?;
    Ok((SField::Abbrev(found), rest))
}

// The `struct` of a module, its fields and its `end`.
fn fields<'s, 't>(
    alloc: Global,
    signs: &'s [Sign<'t>],
) -> Result<(Many<SField>, &'s [Sign<'t>]), ParseError>
    ensures { ReadsOnly (StructOf ParsesFields) Anything (map field_tree_of) signs.now result }
{
    let Some(inner) = after(Symbol::Struct, signs) else {
        return Err(refused_at(signs));
    };
    let mut rest = inner;
    let mut found = Many::new(alloc);
    loop {
        if let Some(end) = after(Symbol::End, rest) {
            return Ok((found, end));
        }
        let (next, later) = field(alloc, rest)?;
        found.push(next)?;
        rest = later;
    }
}

/// The module behind the `module` that stands at this place.
pub fn module<'s, 't>(
    alloc: Global,
    at: u32,
    signs: &'s [Sign<'t>],
) -> Result<(SDef, &'s [Sign<'t>]), ParseError>
    ensures { ReadsBehind (Fixed at Symbol.Module) ParsesDef NoComma def_tree_of signs.now result }
{
    let ((name, sig), rest) = module_head(alloc, signs)?;
    let (version, behind) = version(alloc, rest)?;
    let (fields, end) = fields(alloc, behind)?;
    let kind = SDefKind::Module {
        name,
        sig,
        version,
        fields,
    };
    Ok((SDef { at, kind }, end))
}

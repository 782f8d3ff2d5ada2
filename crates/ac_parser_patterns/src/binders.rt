// Lower names with their types.

ghost use Rattle.std.specs.Prelude.{◌≡◌};
ghost use Rattle.ac_syntax.specs.ReadTrees.{type_tree_of};
ghost use Rattle.ac_syntax.specs.TypeForms.{IsType};
ghost use Rattle.ac_parser_patterns.specs.Reading.{ReadsKind};
ghost use Rattle.ac_parser_patterns.specs.Pieces.{Behind, Before, IsAscribed, IsTypedBinder, IsArgument, IsHead, IsLastType, binder_of, head_of};

use crate::front::{ends_part, expect, lower_name};
use ac_syntax::{ParseError, SName, SType, Sign, Symbol, refused_at, whole_type};
use ac_types::limits::HIGHEST_WRITTEN_TYPE;
use std::alloc::Global;

/// A name with its type.
pub struct Binder {
    pub name: SName,
    pub ty: SType,
}

// One call lets a binder go; a derived drop would stand part by part where it is let go.
impl Drop for Binder {
    fn drop(self) {
        let Binder { name: _, ty: _ } = self;
    }
}

impl Binder {
    /// The name and the type.
    pub fn into_parts(self) -> (SName, SType)
        ensures { result ≡ (self.name, self.ty) }
    {
        let Binder { name, ty } = self;
        (name, ty)
    }
}

/// A function's name, argument and result.
pub struct FunctionHead {
    pub name: SName,
    pub argument: Binder,
    pub result: SType,
}

impl Drop for FunctionHead {
    fn drop(self) {
        let FunctionHead {
            name: _,
            argument: _,
            result: _,
        } = self;
    }
}

impl FunctionHead {
    /// The name, the argument and the result.
    pub fn into_parts(self) -> (SName, Binder, SType)
        ensures name { result.0 ≡ self.name }
        ensures argument { result.1 ≡ self.argument }
        ensures ty { result.2 ≡ self.result }
    {
        let FunctionHead {
            name,
            argument,
            result,
        } = self;
        (name, argument, result)
    }
}

// A type with this symbol behind it.
fn type_before<'s, 't>(
    alloc: Global,
    symbol: Symbol,
    signs: &'s [Sign<'t>],
) -> Result<(SType, &'s [Sign<'t>]), ParseError>
    ensures { ReadsKind (Before symbol IsType) type_tree_of signs.now result }
{
    let (ty, behind) = whole_type(alloc, HIGHEST_WRITTEN_TYPE, signs)?;
    match expect(symbol, behind) {
        Ok(rest) => Ok((ty.tree, rest)),
        Err(stop) => {
            drop(ty);
            Err(stop)
        }
    }
}

/// `: type`, with this symbol behind it.
pub fn ascribed<'s, 't>(
    alloc: Global,
    symbol: Symbol,
    signs: &'s [Sign<'t>],
) -> Result<(SType, &'s [Sign<'t>]), ParseError>
    ensures { ReadsKind (IsAscribed symbol) type_tree_of signs.now result }
{
    let behind = expect(Symbol::Colon, signs)?;
    type_before(alloc, symbol, behind)
}

/// `lower_name : type`, with this symbol behind it.
pub fn typed<'s, 't>(
    alloc: Global,
    symbol: Symbol,
    signs: &'s [Sign<'t>],
) -> Result<(Binder, &'s [Sign<'t>]), ParseError>
    ensures { ReadsKind (IsTypedBinder symbol) binder_of signs.now result }
{
    let (name, behind) = lower_name(alloc, signs)?;
    let (ty, rest) = ascribed(alloc, symbol, behind)?;
    Ok((Binder { name, ty }, rest))
}

/// `( name : type )`.
pub fn argument<'s, 't>(
    alloc: Global,
    signs: &'s [Sign<'t>],
) -> Result<(Binder, &'s [Sign<'t>]), ParseError>
    ensures { ReadsKind IsArgument binder_of signs.now result }
{
    let inner = expect(Symbol::Open, signs)?;
    typed(alloc, Symbol::Close, inner)
}

/// `lower_name ( name : type ) : type =`.
pub fn function_head<'s, 't>(
    alloc: Global,
    signs: &'s [Sign<'t>],
) -> Result<(FunctionHead, &'s [Sign<'t>]), ParseError>
    ensures { ReadsKind IsHead head_of signs.now result }
{
    let (name, behind) = lower_name(alloc, signs)?;
    let (argument, later) = argument(alloc, behind)?;
    let (result, rest) = ascribed(alloc, Symbol::Equals, later)?;
    let head = FunctionHead {
        name,
        argument,
        result,
    };
    Ok((head, rest))
}

// A type behind which a part ends.
fn last_type<'s, 't>(
    alloc: Global,
    signs: &'s [Sign<'t>],
) -> Result<(SType, &'s [Sign<'t>]), ParseError>
    ensures { ReadsKind IsLastType type_tree_of signs.now result }
{
    let (ty, rest) = whole_type(alloc, HIGHEST_WRITTEN_TYPE, signs)?;
    if ends_part(rest) {
        Ok((ty.tree, rest))
    } else {
        drop(ty);
        Err(refused_at(rest))
    }
}

/// This symbol, and a type behind which a part ends.
pub fn type_behind<'s, 't>(
    alloc: Global,
    symbol: Symbol,
    signs: &'s [Sign<'t>],
) -> Result<(SType, &'s [Sign<'t>]), ParseError>
    ensures { ReadsKind (Behind symbol IsLastType) type_tree_of signs.now result }
{
    let behind = expect(symbol, signs)?;
    last_type(alloc, behind)
}

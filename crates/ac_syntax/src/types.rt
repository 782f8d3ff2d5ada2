// Types, by recursive descent. Each parser takes the front of the signs and gives what is left.
// A type may have the height `depth` at most: what would be higher is refused on the way down.

ghost use Rattle.std.specs.Prelude.{◌≡◌, ◌<◌, ◌≤◌, ◌-◌, ◌^◌, ◌∷◌, ℕ, max, length, IfOk, IfErr, IfSome, MatchOption, Some, None};
ghost use Rattle.ac_syntax.specs.Signs.{Upper};
ghost use Rattle.ac_syntax.specs.Trees.{TyFun, type_height};
ghost use Rattle.ac_syntax.specs.TypeForms.{Whole, Product, Suffixed, Single, IsTypeTree};
ghost use Rattle.ac_syntax.specs.ReadSigns.{read_signs};
ghost use Rattle.ac_syntax.specs.ReadTrees.{type_tree_of, type_kind_of};
ghost use Rattle.ac_syntax.specs.PartParsing.{OnSyntax, SymbolAt, NoType, LeafAt, NoLeaf, base_type, suffix_symbol, suffixed_by, NoSuffix, TupleOf, NoFactors};

use crate::front::{after, here, next, next_name, next_symbol};
use crate::sign::{Sign, SignKind, Symbol};
use crate::stop::{ParseError, refused_at};
use crate::surface::{SName, SType, STypeKind};
use ac_types::{Boxed, Many, Memory, Word, both};
use std::alloc::Global;

/// A type, and its height.
#[derive(Drop)]
pub struct ParsedType {
    pub tree: SType,
    pub height: u32,
}

/// What may follow a type.
#[derive(Clone, Copy)]
pub enum Suffix {
    List,
    Opt,
}

// A `list` or an `option` at the front.
fn next_suffix<'s, 't>(signs: &'s [Sign<'t>]) -> Option<(Suffix, &'s [Sign<'t>])>
    ensures found { MatchOption result (NoSuffix (read_signs signs.now))
        (λ x. SymbolAt (suffix_symbol x.0) (read_signs signs.now) (read_signs x.1.now)) }
    ensures shorter { IfSome result (λ x. length x.1.now < length signs.now) }
{
    if let Some(rest) = after(Symbol::ListType, signs) {
        return Some((Suffix::List, rest));
    }
    let rest = after(Symbol::OptionType, signs)?;
    Some((Suffix::Opt, rest))
}

// A type with a suffix.
#[tactic(auto, using(crate::proofs::TypeLaws::type_laws))]
fn with_suffix(
    alloc: Global,
    suffix: Suffix,
    at: u32,
    item: ParsedType,
) -> Result<ParsedType, ParseError>
    requires low { item.height < 2 ^ 32 - 1 }
    requires item { item.height ≡ type_height (type_tree_of item.tree) }
    ensures tree { IfOk result (λ x. type_tree_of x.tree ≡ suffixed_by suffix at
        (type_tree_of item.tree)) }
    ensures height { IfOk result (λ x. x.height ≡ type_height (type_tree_of x.tree)) }
    ensures memory { IfErr result (λ e. e ≡ ParseError.Memory) }
{
    let height = item.height + 1;
    let item = Boxed::new(alloc, item.tree)?;
    let kind = match suffix {
        Suffix::List => STypeKind::List(item),
        Suffix::Opt => STypeKind::Opt(item),
    };
    Ok(ParsedType {
        tree: SType { at, kind },
        height,
    })
}

// A function's type.
#[tactic(auto, using(crate::proofs::TypeLaws::type_laws))]
fn function(
    alloc: Global,
    at: u32,
    from: ParsedType,
    to: ParsedType,
) -> Result<ParsedType, ParseError>
    requires low { max from.height to.height < 2 ^ 32 - 1 }
    requires from { from.height ≡ type_height (type_tree_of from.tree) }
    requires to { to.height ≡ type_height (type_tree_of to.tree) }
    ensures tree { IfOk result (λ x. type_tree_of x.tree ≡ TyFun at (type_tree_of from.tree)
        (type_tree_of to.tree)) }
    ensures height { IfOk result (λ x. x.height ≡ type_height (type_tree_of x.tree)) }
    ensures memory { IfErr result (λ e. e ≡ ParseError.Memory) }
{
    let height = from.height.max(to.height) + 1;
    let (from, to) = both(Boxed::new(alloc, from.tree), Boxed::new(alloc, to.tree))?;
    Ok(ParsedType {
        tree: SType {
            at,
            kind: STypeKind::Fun(from, to),
        },
        height,
    })
}

#[tactic(auto, using(crate::proofs::TypeLaws::type_laws))]
fn base_kind(symbol: Symbol) -> Option<STypeKind>
    ensures { (at : ℕ) → MatchOption result (base_type symbol at ≡ None)
        (λ kind. base_type symbol at ≡ Some (type_kind_of kind at)) }
{
    match symbol {
        Symbol::IntType => Some(STypeKind::Int),
        Symbol::BoolType => Some(STypeKind::Bool),
        Symbol::StringType => Some(STypeKind::Str),
        Symbol::UnitType => Some(STypeKind::Unit),
        Symbol::ExnType => Some(STypeKind::Exn),
        _ => None,
    }
}

// A type of another module: what stands behind its name.
fn qualified<'s, 't>(
    alloc: Global,
    at: u32,
    word: &Word,
    signs: &'s [Sign<'t>],
) -> Result<Option<(SType, &'s [Sign<'t>])>, Memory>
    ensures found { IfOk result (λ o. MatchOption o
        (NoLeaf (Upper at word.now ∷ read_signs signs.now))
        (λ x. LeafAt (Upper at word.now ∷ read_signs signs.now) (type_tree_of x.0)
        (read_signs x.1.now))) }
    ensures shorter { IfOk result (λ o. IfSome o (λ x. length x.1.now < length signs.now)) }
{
    let Some(behind) = after(Symbol::Dot, signs) else {
        return Ok(None);
    };
    let Some((ty, rest)) = next_name(alloc, behind)? else {
        return Ok(None);
    };
    let word = word.copy(alloc)?;
    let kind = STypeKind::Of(SName { at, word }, ty);
    Ok(Some((SType { at, kind }, rest)))
}

// A type at the front that is a leaf.
fn leaf<'s, 't>(
    alloc: Global,
    signs: &'s [Sign<'t>],
) -> Result<Option<(SType, &'s [Sign<'t>])>, Memory>
    ensures found { IfOk result (λ o. MatchOption o (NoLeaf (read_signs signs.now))
        (λ x. LeafAt (read_signs signs.now) (type_tree_of x.0) (read_signs x.1.now))) }
    ensures shorter { IfOk result (λ o. IfSome o (λ x. length x.1.now < length signs.now)) }
{
    let Some((first, rest)) = next(signs) else {
        return Ok(None);
    };
    let at = first.at;
    match first.kind {
        SignKind::Lower(word) => {
            let kind = STypeKind::Local(word.copy(alloc)?);
            Ok(Some((SType { at, kind }, rest)))
        }
        SignKind::Upper(word) => qualified(alloc, at, word, rest),
        SignKind::Fixed(symbol) => match base_kind(symbol) {
            Some(kind) => Ok(Some((SType { at, kind }, rest))),
            None => Ok(None),
        },
        SignKind::Int(_) | SignKind::Str(_) | SignKind::Other => Ok(None),
    }
}

// A leaf, or a type in parentheses.
#[cycle(types)]
fn single<'s, 't>(
    alloc: Global,
    depth: u32,
    signs: &'s [Sign<'t>],
) -> Result<(ParsedType, &'s [Sign<'t>]), ParseError>
    ensures tree { IfOk result (λ x. IsTypeTree depth Single (read_signs signs.now)
        (type_tree_of x.0.tree) (read_signs x.1.now)) }
    ensures height { IfOk result (λ x. x.0.height ≡ type_height (type_tree_of x.0.tree)) }
    ensures shorter { IfOk result (λ x. length x.1.now < length signs.now) }
    ensures none { IfErr result (λ e. OnSyntax e (NoType depth Single (read_signs signs.now))) }
{
    if depth == 0 {
        return Err(refused_at(signs));
    }
    if let Some((tree, rest)) = leaf(alloc, signs)? {
        return Ok((ParsedType { tree, height: 1 }, rest));
    }
    let Some(inner) = after(Symbol::Open, signs) else {
        return Err(refused_at(signs));
    };
    let (tree, behind) = whole_type(alloc, depth, inner)?;
    let Some(rest) = after(Symbol::Close, behind) else {
        drop(tree);
        return Err(refused_at(behind));
    };
    Ok((tree, rest))
}

// A type with its suffixes.
#[cycle(types)]
fn suffixed<'s, 't>(
    alloc: Global,
    depth: u32,
    signs: &'s [Sign<'t>],
) -> Result<(ParsedType, &'s [Sign<'t>]), ParseError>
    ensures tree { IfOk result (λ x. IsTypeTree depth Suffixed (read_signs signs.now)
        (type_tree_of x.0.tree) (read_signs x.1.now)) }
    ensures height { IfOk result (λ x. x.0.height ≡ type_height (type_tree_of x.0.tree)) }
    ensures shorter { IfOk result (λ x. length x.1.now < length signs.now) }
    ensures none { IfErr result (λ e. OnSyntax e (NoType depth Suffixed (read_signs signs.now))) }
{
    let at = here(signs);
    let (mut item, mut rest) = single(alloc, depth, signs)?;
    while let Some((suffix, behind)) = next_suffix(rest) {
        if item.height >= depth {
            drop(item);
            return Err(refused_at(rest));
        }
        item = with_suffix(alloc, suffix, at, item)?;
        rest = behind;
    }
    Ok((item, rest))
}

// A type, or a tuple of several.
#[cycle(types)]
fn product<'s, 't>(
    alloc: Global,
    depth: u32,
    signs: &'s [Sign<'t>],
) -> Result<(ParsedType, &'s [Sign<'t>]), ParseError>
    ensures tree { IfOk result (λ x. IsTypeTree depth Product (read_signs signs.now)
        (type_tree_of x.0.tree) (read_signs x.1.now)) }
    ensures height { IfOk result (λ x. x.0.height ≡ type_height (type_tree_of x.0.tree)) }
    ensures shorter { IfOk result (λ x. length x.1.now < length signs.now) }
    ensures none { IfErr result (λ e. OnSyntax e (NoType depth Product (read_signs signs.now))) }
{
    let (first, rest) = suffixed(alloc, depth, signs)?;
    let Some(behind) = after(Symbol::Star, rest) else {
        return Ok((first, rest));
    };
    if first.height >= depth {
        drop(first);
        return Err(refused_at(rest));
    }
    tuple(alloc, depth, here(signs), first, behind)
}

// The tuple of a first type and those behind its `*`.
#[cycle(types)]
fn tuple<'s, 't>(
    alloc: Global,
    depth: u32,
    at: u32,
    first: ParsedType,
    signs: &'s [Sign<'t>],
) -> Result<(ParsedType, &'s [Sign<'t>]), ParseError>
    requires low { first.height < depth }
    requires first { first.height ≡ type_height (type_tree_of first.tree) }
    ensures tree { IfOk result (λ x. TupleOf depth at (type_tree_of first.tree)
        (read_signs signs.now)
        (type_tree_of x.0.tree) (read_signs x.1.now)) }
    ensures height { IfOk result (λ x. x.0.height ≡ type_height (type_tree_of x.0.tree)) }
    ensures shorter { IfOk result (λ x. length x.1.now < length signs.now) }
    ensures none { IfErr result (λ e. OnSyntax e (NoFactors (depth - 1) (read_signs signs.now))) }
{
    let mut parts = Many::new(alloc);
    parts.push(first.tree)?;
    let (second, mut rest) = suffixed(alloc, depth - 1, signs)?;
    let mut height = first.height.max(second.height);
    parts.push(second.tree)?;
    while let Some(behind) = after(Symbol::Star, rest) {
        let (part, later) = suffixed(alloc, depth - 1, behind)?;
        height = height.max(part.height);
        parts.push(part.tree)?;
        rest = later;
    }
    let kind = STypeKind::Tuple(parts);
    let height = height + 1;
    Ok((
        ParsedType {
            tree: SType { at, kind },
            height,
        },
        rest,
    ))
}

/// A type of at most this height, taken as long as it can be.
#[cycle(types)]
pub fn whole_type<'s, 't>(
    alloc: Global,
    depth: u32,
    signs: &'s [Sign<'t>],
) -> Result<(ParsedType, &'s [Sign<'t>]), ParseError>
    ensures tree { IfOk result (λ x. IsTypeTree depth Whole (read_signs signs.now)
        (type_tree_of x.0.tree) (read_signs x.1.now)) }
    ensures height { IfOk result (λ x. x.0.height ≡ type_height (type_tree_of x.0.tree)) }
    ensures shorter { IfOk result (λ x. length x.1.now < length signs.now) }
    ensures none { IfErr result (λ e. OnSyntax e (NoType depth Whole (read_signs signs.now))) }
{
    let (from, rest) = product(alloc, depth, signs)?;
    let Some(behind) = after(Symbol::Arrow, rest) else {
        return Ok((from, rest));
    };
    if from.height >= depth {
        drop(from);
        return Err(refused_at(rest));
    }
    match whole_type(alloc, depth - 1, behind) {
        Ok((to, end)) => Ok((function(alloc, here(signs), from, to)?, end)),
        Err(stop) => {
            drop(from);
            Err(stop)
        }
    }
}

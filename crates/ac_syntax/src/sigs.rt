// Signatures.

ghost use Rattle.std.specs.Prelude.{◌≡◌, ◌<◌, ◌∷◌, ℕ, length, IfOk, IfErr};
ghost use Rattle.ac_syntax.specs.Signs.{Fixed};
ghost use Rattle.ac_syntax.specs.Programs.{IsSig};
ghost use Rattle.ac_syntax.specs.ReadSigns.{read_signs};
ghost use Rattle.ac_syntax.specs.ReadTrees.{spec_of, sig_tree_of};
ghost use Rattle.ac_syntax.specs.PartParsing.{OnSyntax, NoSymbol, SpecAt, NoSpecs, NoSig};

use crate::front::{after, here, next_name};
use crate::sign::{Sign, Symbol};
use crate::stop::{ParseError, refused_at};
use crate::surface::{SAbbrev, SSig, SSpec};
use crate::types::whole_type;
use ac_types::Many;
use ac_types::limits::HIGHEST_WRITTEN_TYPE;
use std::alloc::Global;

// The spec behind a `type`.
fn type_spec<'s, 't>(
    alloc: Global,
    signs: &'s [Sign<'t>],
) -> Result<(SSpec, &'s [Sign<'t>]), ParseError>
    ensures spec { IfOk result (λ x. (a : ℕ) →
        SpecAt (Fixed a Symbol.TypeWord ∷ read_signs signs.now) (spec_of x.0)
        (read_signs x.1.now)) }
    ensures shorter { IfOk result (λ x. length x.1.now < length signs.now) }
    ensures none { IfErr result (λ e. OnSyntax e ((a : ℕ) →
        NoSpecs (Fixed a Symbol.TypeWord ∷ read_signs signs.now))) }
{
    let Some((name, rest)) = next_name(alloc, signs)? else {
        return Err(refused_at(signs));
    };
    let Some(behind) = after(Symbol::Equals, rest) else {
        return Ok((SSpec::Abstract(name), rest));
    };
    let (ty, end) = whole_type(alloc, HIGHEST_WRITTEN_TYPE, behind)?;
    Ok((SSpec::Manifest(SAbbrev { name, ty: ty.tree }), end))
}

// The spec behind a `val`.
fn value_spec<'s, 't>(
    alloc: Global,
    signs: &'s [Sign<'t>],
) -> Result<(SSpec, &'s [Sign<'t>]), ParseError>
    ensures spec { IfOk result (λ x. (a : ℕ) →
        SpecAt (Fixed a Symbol.Val ∷ read_signs signs.now) (spec_of x.0) (read_signs x.1.now)) }
    ensures shorter { IfOk result (λ x. length x.1.now < length signs.now) }
    ensures none { IfErr result (λ e. OnSyntax e ((a : ℕ) →
        NoSpecs (Fixed a Symbol.Val ∷ read_signs signs.now))) }
{
    let Some((name, rest)) = next_name(alloc, signs)? else {
        return Err(refused_at(signs));
    };
    let Some(behind) = after(Symbol::Colon, rest) else {
        return Err(refused_at(rest));
    };
    let (ty, end) = whole_type(alloc, HIGHEST_WRITTEN_TYPE, behind)?;
    Ok((SSpec::Val(name, ty.tree), end))
}

// The spec at the front.
fn spec<'s, 't>(alloc: Global, signs: &'s [Sign<'t>]) -> Result<(SSpec, &'s [Sign<'t>]), ParseError>
    ensures spec { IfOk result (λ x. SpecAt (read_signs signs.now) (spec_of x.0)
        (read_signs x.1.now)) }
    ensures shorter { IfOk result (λ x. length x.1.now < length signs.now) }
    ensures none { IfErr result (λ e. OnSyntax e (NoSymbol Symbol.End (read_signs signs.now) →
        NoSpecs (read_signs signs.now))) }
{
    if let Some(behind) = after(Symbol::TypeWord, signs) {
        return type_spec(alloc, behind);
    }
    let Some(behind) = after(Symbol::Val, signs) else {
        return Err(refused_at(signs));
    };
    value_spec(alloc, behind)
}

/// The signature at the front.
pub fn sig<'s, 't>(
    alloc: Global,
    signs: &'s [Sign<'t>],
) -> Result<(SSig, &'s [Sign<'t>]), ParseError>
    ensures sig { IfOk result (λ x. IsSig (read_signs signs.now) (sig_tree_of x.0)
        (read_signs x.1.now)) }
    ensures shorter { IfOk result (λ x. length x.1.now < length signs.now) }
    ensures none { IfErr result (λ e. OnSyntax e (NoSig (read_signs signs.now))) }
{
    let at = here(signs);
    let Some(behind) = after(Symbol::Sig, signs) else {
        return Err(refused_at(signs));
    };
    let mut rest = behind;
    let mut specs = Many::new(alloc);
    loop {
        if let Some(end) = after(Symbol::End, rest) {
            return Ok((SSig { at, specs }, end));
        }
        let (next, later) = spec(alloc, rest)?;
        specs.push(next)?;
        rest = later;
    }
}

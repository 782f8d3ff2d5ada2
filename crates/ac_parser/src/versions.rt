// The versions of modules and the constraints of imports.

ghost use Rattle.std.specs.Prelude.{◌≡◌, ◌≤◌, length, option_map, IfOk};
ghost use Rattle.ac_types.specs.ReadTypes.{constraint_of};
ghost use Rattle.ac_syntax.specs.Programs.{vtoken_of, VTokens, ParsesVersion};
ghost use Rattle.ac_syntax.specs.ReadSigns.{read_sign, read_signs};
ghost use Rattle.ac_syntax.specs.ReadTrees.{version_of};
ghost use Rattle.ac_parser.specs.inner.ProgramParsing.{OnlyRead, Anything, BeginsEquals, NoVToken, VersionAt, ConstraintAt, stopped, ReadsOnly, ReadsWithin};

use ac_syntax::{ParseError, Sign, SignKind, Symbol, after, refused_at};
use ac_types::{Constraint, Memory, Version};
use ac_version::{VToken, VersionFault, read_constraint, read_version};
use std::alloc::Global;

// What a sign is in a version or a constraint.
fn vtoken(sign: &Sign<'_>) -> Option<VToken>
    ensures { result ≡ vtoken_of (read_sign sign.now) }
{
    match sign.kind {
        SignKind::Int(n) => Some(VToken::Number(n)),
        SignKind::Fixed(Symbol::Dot) => Some(VToken::Dot),
        SignKind::Fixed(Symbol::Minus) => Some(VToken::Minus),
        SignKind::Fixed(Symbol::Star) => Some(VToken::Star),
        SignKind::Fixed(Symbol::MyName) => Some(VToken::MyName),
        _ => None,
    }
}

// The tokens of a version or a constraint at the front, all that stand there.
fn vtokens<'s, 't>(
    alloc: Global,
    signs: &'s [Sign<'t>],
) -> Result<(Vec<VToken>, &'s [Sign<'t>]), Memory>
    ensures all { IfOk result (λ x. OnlyRead VTokens NoVToken (read_signs signs.now) x.0.items
        (read_signs x.1.now)) }
    ensures stops { IfOk result (λ x. NoVToken (read_signs x.1.now)) }
    ensures within { IfOk result (λ x. length x.1.now ≤ length signs.now) }
{
    let mut tokens = Vec::new(alloc);
    for sign in signs {
        let Some(token) = vtoken(sign) else {
            let rest = &signs[tokens.len()..];
            return Ok((tokens, rest));
        };
        tokens.push(token)?;
    }
    let rest = &signs[tokens.len()..];
    Ok((tokens, rest))
}

// Why the tokens of a version or a constraint, which begin here, are none.
fn bad(fault: VersionFault, signs: &[Sign<'_>]) -> ParseError
    ensures { stopped fault result }
{
    match fault {
        VersionFault::Memory => ParseError::Memory,
        VersionFault::Bad => refused_at(signs),
    }
}

// The version behind a module's signature, where one is written.
fn written<'s, 't>(
    alloc: Global,
    signs: &'s [Sign<'t>],
) -> Result<(Option<Version>, &'s [Sign<'t>]), ParseError>
    ensures { ReadsWithin ParsesVersion BeginsEquals (option_map version_of) signs.now result }
{
    let Some(behind) = after(Symbol::Version, signs) else {
        return Ok((None, signs));
    };
    let (tokens, rest) = vtokens(alloc, behind)?;
    match read_version(alloc, tokens.as_slice()) {
        Ok(version) => Ok((Some(version), rest)),
        Err(fault) => Err(bad(fault, behind)),
    }
}

/// The version of a module, where one is written, and the `=` behind it.
pub fn version<'s, 't>(
    alloc: Global,
    signs: &'s [Sign<'t>],
) -> Result<(Option<Version>, &'s [Sign<'t>]), ParseError>
    ensures { ReadsOnly VersionAt Anything (option_map version_of) signs.now result }
{
    let (version, rest) = written(alloc, signs)?;
    let Some(end) = after(Symbol::Equals, rest) else {
        return Err(refused_at(rest));
    };
    Ok((version, end))
}

/// The constraint of an import, of all the tokens that stand here.
pub fn constraint<'s, 't>(
    alloc: Global,
    signs: &'s [Sign<'t>],
) -> Result<(Constraint, &'s [Sign<'t>]), ParseError>
    ensures { ReadsWithin ConstraintAt NoVToken constraint_of signs.now result }
{
    let (tokens, rest) = vtokens(alloc, signs)?;
    match read_constraint(alloc, tokens.as_slice()) {
        Ok(constraint) => Ok((constraint, rest)),
        Err(fault) => Err(bad(fault, signs)),
    }
}

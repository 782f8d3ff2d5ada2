// The parsers that take tokens.

ghost use Rattle.std.specs.Prelude.{◌≡◌, ◌≤◌, ◌-◌, length, drop, IfOk, IfErr, List, ℕ};
ghost use Rattle.ac_types.specs.Limits.{highest_written_type};
ghost use Rattle.ac_syntax.specs.Signs.{signs};
ghost use Rattle.ac_syntax.specs.Openers.{IsShallow};
ghost use Rattle.ac_syntax.specs.TypeForms.{IsType, Whole};
ghost use Rattle.ac_syntax.specs.Programs.{IsSig};
ghost use Rattle.ac_syntax.specs.ReadTrees.{type_tree_of, sig_tree_of};
ghost use Rattle.ac_syntax.specs.PartParsing.{OnFault, NoType, NoSig, faulted};

use crate::fault::ParseFault;
use crate::sign::{Sign, signs};
use crate::sigs::sig;
use crate::stop::ParseError;
use crate::surface::{SSig, SType};
use crate::types::whole_type;
use ac_lexer::Token;
use ac_types::limits::HIGHEST_WRITTEN_TYPE;
use std::alloc::Global;

// The place of the token before which so many are left, of the last one where none is left.
fn place_before(tokens: &[Token], left: usize) -> u32 {
    let number = tokens.len().saturating_sub(left.max(1));
    match tokens.get(number) {
        Some(token) => token.at,
        None => 0,
    }
}

fn fault(tokens: &[Token], stop: ParseError) -> ParseFault
    ensures { faulted stop result }
{
    match stop {
        ParseError::Memory => ParseFault::Memory,
        ParseError::Syntax(left) => ParseFault::Syntax {
            at: place_before(tokens, left),
        },
    }
}

// The signs from this number on.
fn from_number<'s, 't>(signs: &'s [Sign<'t>], from: u32) -> &'s [Sign<'t>]
    ensures { result.now ≡ drop from signs.now }
{
    let start = (from as usize).min(signs.len());
    &signs[start..]
}

// The number of the token behind what was read, where these signs are left.
fn number_behind(all: &[Sign<'_>], rest: &[Sign<'_>]) -> Result<u32, ParseFault>
    ensures number { IfOk result (λ n. n ≡ length all.now - length rest.now) }
    ensures memory { IfErr result (λ e. e ≡ ParseFault.Memory) }
{
    match u32::try_from(all.len().saturating_sub(rest.len())) {
        Ok(number) => Ok(number),
        Err(_) => Err(ParseFault::Memory),
    }
}

/// The type that begins at token number `from`, taken as long as it can be, and the number of the
/// token after it. The place of a `Syntax` is that of the token at which no type can go on, or that
/// of the last token. A number past the `u32`s counts as want of memory.
pub fn parse_type(alloc: Global, tokens: &[Token], from: u32) -> Result<(SType, u32), ParseFault>
    requires { IsShallow (signs tokens.now) }
    ensures tree { IfOk result (λ x. IsType (drop from (signs tokens.now)) (type_tree_of x.0)
        (drop x.1 (signs tokens.now))) }
    ensures within { IfOk result (λ x. x.1 ≤ length tokens.now) }
    ensures none { IfErr result (λ e. OnFault e (NoType highest_written_type Whole
        (drop from (signs tokens.now)))) }
{
    let found = signs(alloc, tokens)?;
    let all = found.as_slice();
    match whole_type(alloc, HIGHEST_WRITTEN_TYPE, from_number(all, from)) {
        Ok((ty, rest)) => {
            let number = number_behind(all, rest)?;
            Ok((ty.tree, number))
        }
        Err(stop) => Err(fault(tokens, stop)),
    }
}

/// The signature that begins at token number `from`, and the number of the token after it. The
/// place of a `Syntax` is that of the token at which no signature can go on, or that of the last
/// token. A number past the `u32`s counts as want of memory.
pub fn parse_sig(alloc: Global, tokens: &[Token], from: u32) -> Result<(SSig, u32), ParseFault>
    requires { IsShallow (signs tokens.now) }
    ensures tree { IfOk result (λ x. IsSig (drop from (signs tokens.now)) (sig_tree_of x.0)
        (drop x.1 (signs tokens.now))) }
    ensures within { IfOk result (λ x. x.1 ≤ length tokens.now) }
    ensures none { IfErr result (λ e. OnFault e (NoSig (drop from (signs tokens.now)))) }
{
    let found = signs(alloc, tokens)?;
    let all = found.as_slice();
    match sig(alloc, from_number(all, from)) {
        Ok((tree, rest)) => {
            let number = number_behind(all, rest)?;
            Ok((tree, number))
        }
        Err(stop) => Err(fault(tokens, stop)),
    }
}

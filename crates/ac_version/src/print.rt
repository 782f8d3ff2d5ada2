// Versions and constraints as the source spells them, without blanks.

ghost use Rattle.std.specs.Prelude.{◌≡◌, ◌++◌, [], ◌∷◌, map, IfOk, OnOk, codes};
ghost use Rattle.hex.specs.Hex.{encode_lower};
ghost use Rattle.ac_types.specs.ReadTypes.{atom_of, range_of, constraint_of};
ghost use Rattle.ac_version.specs.Printing.{token_text, tokens_joined, dot_before, atom_token, version_tokens, range_tokens, constraint_tokens, constraint_printed};

use crate::read::VToken;
use ac_types::{Atom, Constraint, Memory, Name, Range, Text, Version};
use std::alloc::Global;

/// A version as the source spells it, without blanks.
pub fn version_text(alloc: Global, v: &Version) -> Result<Text, Memory>
    ensures { IfOk result (λ text. text.0 ≡ tokens_joined
        (version_tokens (map atom_of v.now.atoms))) }
{
    let mut text = Text::new(alloc);
    let mut is_first = true;
    for atom in v.atoms.as_slice() {
        put_dot(alloc, &mut text, is_first)?;
        put(alloc, &mut text, token_of(atom))?;
        is_first = false;
    }
    Ok(text)
}

/// A constraint as the source spells it, without blanks; one by exact name as `name = ` and the 64
/// lower-case digits of the name to the base 16.
pub fn constraint_text(alloc: Global, c: &Constraint) -> Result<Text, Memory>
    ensures { IfOk result (λ text. text.0 ≡ constraint_printed (constraint_of c.now)) }
{
    match c {
        Constraint::Ranges { atoms, star } => ranges_text(alloc, atoms.as_slice(), *star),
        Constraint::Exact(name) => name_text(alloc, name),
    }
}

// Ranges, and a star behind them.
fn ranges_text(alloc: Global, ranges: &[Range], star: bool) -> Result<Text, Memory>
    ensures { IfOk result (λ text. text.0 ≡ tokens_joined
        (constraint_tokens (map range_of ranges.now) star)) }
{
    let mut text = Text::new(alloc);
    let mut is_first = true;
    for range in ranges {
        put_dot(alloc, &mut text, is_first)?;
        put_range(alloc, &mut text, range)?;
        is_first = false;
    }
    if star {
        put_dot(alloc, &mut text, is_first)?;
        put(alloc, &mut text, VToken::Star)?;
    }
    Ok(text)
}

fn name_text(alloc: Global, name: &Name) -> Result<Text, Memory>
    ensures { IfOk result (λ text. text.0 ≡ codes "name = " ++ encode_lower name.now.0) }
{
    let digits = hex::encode(alloc, name.0.as_slice())?;
    let mut text = Text::from_slice(alloc, b"name = ")?;
    text.extend(digits.as_bytes())?;
    Ok(text)
}

// A dot in front of all but the first.
fn put_dot(alloc: Global, text: &mut Text, is_first: bool) -> Result<(), Memory>
    ensures { OnOk result (text.new.0 ≡ text.old.0 ++ tokens_joined (dot_before is_first [])) }
{
    if is_first {
        return Ok(());
    }
    put(alloc, text, VToken::Dot)
}

// The tokens of a range.
fn put_range(alloc: Global, text: &mut Text, range: &Range) -> Result<(), Memory>
    ensures { OnOk result (text.new.0 ≡ text.old.0 ++ tokens_joined
        (range_tokens (range_of range.now))) }
{
    match range {
        Range::One(n) => put(alloc, text, VToken::Number(u64::from(*n))),
        Range::Between(n, m) => {
            put(alloc, text, VToken::Number(u64::from(*n)))?;
            put(alloc, text, VToken::Minus)?;
            put(alloc, text, VToken::Number(u64::from(*m)))
        }
        Range::UpTo(m) => {
            put(alloc, text, VToken::Minus)?;
            put(alloc, text, VToken::Number(u64::from(*m)))
        }
        Range::From(n) => {
            put(alloc, text, VToken::Number(u64::from(*n)))?;
            put(alloc, text, VToken::Minus)
        }
    }
}

// The token that is an atom.
fn token_of(atom: &Atom) -> VToken
    ensures { result ≡ atom_token (atom_of atom.now) }
{
    match atom {
        Atom::Number(n) => VToken::Number(u64::from(*n)),
        Atom::MyName => VToken::MyName,
    }
}

// The spelling of a token.
fn put(alloc: Global, text: &mut Text, token: VToken) -> Result<(), Memory>
    ensures { OnOk result (text.new.0 ≡ text.old.0 ++ token_text token) }
{
    match token {
        VToken::Number(n) => {
            let digits = format!(in alloc; "{n}")?;
            text.extend(digits.as_bytes())
        }
        VToken::Dot => text.extend(b"."),
        VToken::Minus => text.extend(b"-"),
        VToken::Star => text.extend(b"*"),
        VToken::MyName => text.extend(b"myname"),
    }
}

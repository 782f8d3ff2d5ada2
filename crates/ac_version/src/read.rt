// The tokens of versions and constraints.

ghost use Rattle.std.specs.Prelude.{◌≡◌, ◌<◌, ◌∷◌, [], map, length, IfOk, IfErr, IfSome, MatchOption, MatchBool};
ghost use Rattle.ac_types.specs.ReadTypes.{atom_of, range_of, constraint_of};
ghost use Rattle.ac_version.specs.VersionReading.{IsSmall, AtomAt, FirstAtom, NoAtom, IsVersion, NoVersion, OnBad, RangeRead, NoRange, EndAt, ReadsConstraint, NoConstraint};

use ac_types::limits::MOST_VERSION_ATOMS;
use ac_types::{Atom, Constraint, Many, Memory, Range, Version};
use std::alloc::Global;

/// A token of a version or a constraint.
#[derive(Clone, Copy, PartialEq, Eq)]
pub enum VToken {
    Number(u64),
    Dot,
    Minus,
    Star,
    MyName,
}

/// Why tokens give no version or no constraint.
#[derive(Clone, Copy, Debug, PartialEq, Eq)]
pub enum VersionFault {
    Bad,
    Memory,
}

impl From<Memory> for VersionFault {
    ghost use Rattle.ac_version.specs.declared.read.VersionFault.TheVariants as fault;

    ghost from_gives = { λ _ e. e ≡ fault.Memory };

    fn from(_e: Memory) -> VersionFault {
        VersionFault::Memory
    }
}

fn next(tokens: &[VToken]) -> Option<(VToken, &[VToken])>
    ensures first { MatchOption result (tokens.now ≡ []) (λ x. tokens.now ≡ x.0 ∷ x.1.now) }
    ensures shorter { IfSome result (λ x. length x.1.now < length tokens.now) }
{
    let (first, rest) = tokens.split_first()?;
    Some((*first, rest))
}

fn after(token: VToken, tokens: &[VToken]) -> Option<&[VToken]>
    ensures found { MatchOption result ((rest : _) → tokens.now ≡ token ∷ rest →
        ⊥) (λ rest. tokens.now ≡ token ∷ rest.now) }
    ensures shorter { IfSome result (λ rest. length rest.now < length tokens.now) }
{
    let (first, rest) = next(tokens)?;
    if first == token { Some(rest) } else { None }
}

fn atom(token: VToken) -> Option<Atom>
    ensures { MatchOption result ((a : _) → AtomAt token a → ⊥) (λ a. AtomAt token (atom_of a)) }
{
    match token {
        VToken::Number(n) => match u32::try_from(n) {
            Ok(n) => Some(Atom::Number(n)),
            Err(_) => None,
        },
        VToken::MyName => Some(Atom::MyName),
        VToken::Dot | VToken::Minus | VToken::Star => None,
    }
}

// An atom at the front.
fn next_atom(tokens: &[VToken]) -> Option<(Atom, &[VToken])>
    ensures found { MatchOption result (NoAtom tokens.now)
        (λ x. FirstAtom tokens.now (atom_of x.0) x.1.now) }
    ensures shorter { IfSome result (λ x. length x.1.now < length tokens.now) }
{
    let (token, rest) = next(tokens)?;
    let atom = atom(token)?;
    Some((atom, rest))
}

/// The version of these tokens. `Bad` where they are none.
pub fn read_version(alloc: Global, tokens: &[VToken]) -> Result<Version, VersionFault>
    ensures version { IfOk result (λ v. IsVersion tokens.now (map atom_of v.atoms)) }
    ensures none { IfErr result (λ e. OnBad e (NoVersion tokens.now)) }
{
    let Some((first, mut rest)) = next_atom(tokens) else {
        return Err(VersionFault::Bad);
    };
    let mut atoms = Many::new(alloc);
    atoms.push(first)?;
    while let Some(behind) = after(VToken::Dot, rest) {
        let Some((atom, later)) = next_atom(behind) else {
            return Err(VersionFault::Bad);
        };
        atoms.push(atom)?;
        rest = later;
    }
    if !rest.is_empty() {
        return Err(VersionFault::Bad);
    }
    if atoms.len() > MOST_VERSION_ATOMS {
        return Err(VersionFault::Bad);
    }
    Ok(Version { atoms })
}

// A number below 2^32 at the front.
fn next_number(tokens: &[VToken]) -> Option<(u32, &[VToken])>
    ensures found { MatchOption result ((n : _) (rest : _) → tokens.now ≡ VToken.Number n ∷ rest →
        IsSmall n → ⊥) (λ x. tokens.now ≡ VToken.Number x.0 ∷ x.1.now) }
    ensures small { IfSome result (λ x. IsSmall x.0) }
    ensures shorter { IfSome result (λ x. length x.1.now < length tokens.now) }
{
    let (first, rest) = next(tokens)?;
    let VToken::Number(n) = first else {
        return None;
    };
    match u32::try_from(n) {
        Ok(n) => Some((n, rest)),
        Err(_) => None,
    }
}

// A range at the front, taken as long as it can be: a `-` behind a number takes a number that
// follows.
fn next_range(tokens: &[VToken]) -> Option<(Range, &[VToken])>
    ensures found { MatchOption result (NoRange tokens.now)
        (λ x. RangeRead tokens.now (range_of x.0) x.1.now) }
    ensures shorter { IfSome result (λ x. length x.1.now < length tokens.now) }
{
    if let Some(behind) = after(VToken::Minus, tokens) {
        let (most, rest) = next_number(behind)?;
        return Some((Range::UpTo(most), rest));
    }
    let (first, rest) = next_number(tokens)?;
    let Some(behind) = after(VToken::Minus, rest) else {
        return Some((Range::One(first), rest));
    };
    match next_number(behind) {
        Some((most, end)) => Some((Range::Between(first, most), end)),
        None => Some((Range::From(first), behind)),
    }
}

// Whether the tokens are a star and no more.
fn is_star(tokens: &[VToken]) -> bool
    ensures { MatchBool result (tokens.now ≡ VToken.Star ∷ []) (tokens.now ≡ VToken.Star ∷ [] → ⊥) }
{
    match after(VToken::Star, tokens) {
        Some(rest) => next(rest).is_none(),
        None => false,
    }
}

// Whether a star ends the constraint, where its end stands behind a range.
fn end(tokens: &[VToken]) -> Option<bool>
    ensures { MatchOption result ((star : _) → EndAt star tokens.now →
        ⊥) (λ star. EndAt star tokens.now) }
{
    let Some(behind) = after(VToken::Dot, tokens) else {
        return match next(tokens) {
            Some(_) => None,
            None => Some(false),
        };
    };
    if is_star(behind) { Some(true) } else { None }
}

/// The constraint of these tokens, by ranges. `Bad` where they are none.
pub fn read_constraint(alloc: Global, tokens: &[VToken]) -> Result<Constraint, VersionFault>
    ensures constraint { IfOk result (λ c. ReadsConstraint tokens.now (constraint_of c)) }
    ensures none { IfErr result (λ e. OnBad e (NoConstraint tokens.now)) }
{
    let mut atoms = Many::new(alloc);
    if is_star(tokens) {
        return Ok(Constraint::Ranges { atoms, star: true });
    }
    let Some((first, mut rest)) = next_range(tokens) else {
        return Err(VersionFault::Bad);
    };
    atoms.push(first)?;
    loop {
        if let Some(star) = end(rest) {
            if atoms.len() > MOST_VERSION_ATOMS {
                return Err(VersionFault::Bad);
            }
            return Ok(Constraint::Ranges { atoms, star });
        }
        let Some(behind) = after(VToken::Dot, rest) else {
            return Err(VersionFault::Bad);
        };
        let Some((range, later)) = next_range(behind) else {
            return Err(VersionFault::Bad);
        };
        atoms.push(range)?;
        rest = later;
    }
}

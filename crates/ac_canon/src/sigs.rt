// The bytes of signatures, versions and constraints.

ghost use Rattle.std.specs.Prelude.{◌≡◌, ◌++◌, map, option_map, OnOk};
ghost use Rattle.ac_types.specs.ReadTypes.{typ_of, typed_of, sig_type_of, sig_of, atom_of, range_of, constraint_of};
ghost use Rattle.ac_terms.specs.Spelling.{one_written, two_written, listed, atom_bytes, range_bytes, constraint_bytes};
ghost use Rattle.ac_terms.specs.SpelledBy.{manifest_bytes, sig_type_bytes, typed_bytes, sig_bytes};

use crate::counts::{put_count_u8, put_count_u16, put_truth, put_word};
use crate::spelling::Spelling;
use ac_bytes::Out;
use ac_terms::tags;
use ac_types::{Atom, Constraint, Memory, Range, Sig, SigType, Ty, TyField};

// Puts a part of a version.
#[tactic(auto, using(crate::proofs::Lists::lists))]
fn put_atom(out: &mut Out, atom: Atom) -> Result<(), Memory>
    ensures { OnOk result (out.new ≡ out.old ++ atom_bytes (atom_of atom)) }
{
    match atom {
        Atom::Number(n) => {
            out.put_u8(tags::ATOM_NUMBER)?;
            out.put_u32(n)
        }
        Atom::MyName => out.put_u8(tags::ATOM_MY_NAME),
    }
}

/// Puts how many parts a version has, and each.
#[tactic(auto, using(crate::proofs::Lists::lists))]
pub fn put_version(out: &mut Out, atoms: &[Atom]) -> Result<(), Memory>
    ensures { OnOk result (out.new ≡ out.old ++ listed one_written atom_bytes
        (map atom_of atoms.now)) }
{
    put_count_u8(out, atoms.len())?;
    for atom in atoms {
        put_atom(out, *atom)?;
    }
    Ok(())
}

// Puts the numbers that a constraint allows at one place.
#[tactic(auto, using(crate::proofs::Lists::lists))]
fn put_range(out: &mut Out, range: Range) -> Result<(), Memory>
    ensures { OnOk result (out.new ≡ out.old ++ range_bytes (range_of range)) }
{
    match range {
        Range::One(n) => {
            out.put_u8(tags::RANGE_ONE)?;
            out.put_u32(n)
        }
        Range::Between(n, m) => {
            out.put_u8(tags::RANGE_BETWEEN)?;
            out.put_u32(n)?;
            out.put_u32(m)
        }
        Range::UpTo(n) => {
            out.put_u8(tags::RANGE_UP_TO)?;
            out.put_u32(n)
        }
        Range::From(n) => {
            out.put_u8(tags::RANGE_FROM)?;
            out.put_u32(n)
        }
    }
}

// Puts how many ranges a constraint has, and each.
#[tactic(auto, using(crate::proofs::Lists::lists))]
fn put_ranges(out: &mut Out, ranges: &[Range]) -> Result<(), Memory>
    ensures { OnOk result (out.new ≡ out.old ++
        listed one_written range_bytes (map range_of ranges.now)) }
{
    put_count_u8(out, ranges.len())?;
    for range in ranges {
        put_range(out, *range)?;
    }
    Ok(())
}

/// Puts a constraint.
#[tactic(auto, using(crate::proofs::Lists::lists))]
pub fn put_constraint(out: &mut Out, constraint: &Constraint) -> Result<(), Memory>
    ensures { OnOk result (out.new ≡ out.old ++ constraint_bytes (constraint_of constraint.now)) }
{
    match constraint {
        Constraint::Ranges { atoms, star } => {
            out.put_u8(tags::CONSTRAINT_RANGES)?;
            put_ranges(out, atoms.as_slice())?;
            put_truth(out, *star)
        }
        Constraint::Exact(name) => {
            out.put_u8(tags::CONSTRAINT_EXACT)?;
            out.put_bytes(name.0.as_slice())
        }
    }
}

// Puts what a type of a signature is.
#[tactic(auto, using(crate::proofs::Lists::lists))]
fn put_manifest<S: Spelling>(
    out: &mut Out,
    spelling: &S,
    manifest: &Option<Ty>,
) -> Result<(), Memory>
    ensures { OnOk result (out.new ≡ out.old ++
        manifest_bytes (S.spelled_type spelling.now) (option_map typ_of manifest.now)) }
{
    match manifest {
        None => out.put_u8(tags::SIG_ABSTRACT),
        Some(ty) => {
            out.put_u8(tags::SIG_MANIFEST)?;
            spelling.put_type(out, ty)
        }
    }
}

// Puts a type of a signature.
#[tactic(auto, using(crate::proofs::Lists::lists))]
fn put_sig_type<S: Spelling>(out: &mut Out, spelling: &S, x: &SigType) -> Result<(), Memory>
    ensures { OnOk result (out.new ≡ out.old ++
        sig_type_bytes (S.spelled_type spelling.now) (sig_type_of x.now)) }
{
    put_word(out, &x.name)?;
    put_manifest(out, spelling, &x.manifest)
}

// Puts how many types a signature has, and each.
#[tactic(auto, using(crate::proofs::Lists::lists))]
fn put_sig_types<S: Spelling>(out: &mut Out, spelling: &S, types: &[SigType]) -> Result<(), Memory>
    ensures { OnOk result (out.new ≡ out.old ++
        listed two_written (sig_type_bytes (S.spelled_type spelling.now))
        (map sig_type_of types.now)) }
{
    put_count_u16(out, types.len())?;
    for x in types {
        put_sig_type(out, spelling, x)?;
    }
    Ok(())
}

// Puts a name with its type.
#[tactic(auto, using(crate::proofs::Lists::lists))]
fn put_typed_name<S: Spelling>(out: &mut Out, spelling: &S, x: &TyField) -> Result<(), Memory>
    ensures { OnOk result (out.new ≡ out.old ++
        typed_bytes (S.spelled_type spelling.now) (typed_of x.now)) }
{
    put_word(out, &x.name)?;
    spelling.put_type(out, &x.ty)
}

/// Puts how many names with types there are, and each.
#[tactic(auto, using(crate::proofs::Lists::lists))]
pub fn put_typed_names<S: Spelling>(
    out: &mut Out,
    spelling: &S,
    names: &[TyField],
) -> Result<(), Memory>
    ensures { OnOk result (out.new ≡ out.old ++
        listed two_written (typed_bytes (S.spelled_type spelling.now)) (map typed_of names.now)) }
{
    put_count_u16(out, names.len())?;
    for x in names {
        put_typed_name(out, spelling, x)?;
    }
    Ok(())
}

/// Puts a signature.
#[tactic(auto, using(crate::proofs::Lists::lists))]
pub fn put_sig<S: Spelling>(out: &mut Out, spelling: &S, sig: &Sig) -> Result<(), Memory>
    ensures { OnOk result (out.new ≡ out.old ++
        sig_bytes (S.spelled_type spelling.now) (sig_of sig.now)) }
{
    put_sig_types(out, spelling, sig.types.as_slice())?;
    put_typed_names(out, spelling, sig.vals.as_slice())
}

// Which versions meet a constraint.

ghost use Rattle.std.specs.Prelude.{◌≡◌, map};
ghost use Rattle.ac_types.specs.ReadTypes.{atom_of, range_of, constraint_of};
ghost use Rattle.ac_version.specs.Versions.{fits, atoms_fit, meets};

use ac_types::{Atom, Constraint, Name, Range, Version};

/// Whether a version meets a constraint; `own` is the name of the definition that has the version.
/// It takes no memory.
pub fn meets(v: &Version, c: &Constraint, own: &Name) -> bool
    ensures { result ≡ meets (map atom_of v.now.atoms) (constraint_of c.now) own.now.0 }
{
    match c {
        Constraint::Ranges { atoms, star } => fit(atoms.as_slice(), *star, v.atoms.as_slice()),
        Constraint::Exact(name) => own.0 == name.0,
    }
}

/// Whether each range is fitted by the atom at its place; only with a star may atoms be left over.
pub fn fit(ranges: &[Range], star: bool, atoms: &[Atom]) -> bool
    ensures { result ≡ atoms_fit (map range_of ranges.now) star (map atom_of atoms.now) }
{
    if atoms.len() < ranges.len() {
        return false;
    }
    for i in 0..ranges.len() {
        if !fits(&ranges[i], &atoms[i]) {
            return false;
        }
    }
    star || atoms.len() == ranges.len()
}

// Whether an atom lies within both ends of a range; `myname` lies in none.
fn fits(range: &Range, atom: &Atom) -> bool
    ensures { result ≡ fits (range_of range.now) (atom_of atom.now) }
{
    let Atom::Number(k) = atom else {
        return false;
    };
    match range {
        Range::One(n) => *k == *n,
        Range::Between(n, m) => *n <= *k && *k <= *m,
        Range::UpTo(m) => *k <= *m,
        Range::From(n) => *n <= *k,
    }
}

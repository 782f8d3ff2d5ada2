// Types of an import's signature, as the signature of a module has them.

ghost use Rattle.std.specs.Prelude.{◌≡◌, map};
ghost use Rattle.ac_types.specs.Types.{same, same_all, typs, with_mine, all_with_mine};
ghost use Rattle.ac_types.specs.Sigs.{Signature, equal_under, stand_in};
ghost use Rattle.ac_types.specs.ReadTypes.{typ_of, sig_of};

use ac_types::{Sig, Ty, same_types, spec_named};

/// Whether the type `a` of a module's signature equals the type `b` of an import by version: an
/// own abstract type of the import stands for the module's type of that name, for its manifest
/// type where it has one. Of the import's signature nothing else matters. It takes no memory.
pub fn eq_under(target: &Sig, _import: &Sig, a: &Ty, b: &Ty) -> bool
    ensures { result ≡ equal_under (sig_of target.now) (typ_of a.now) (typ_of b.now) }
{
    is_under(target, a, b)
}

#[cycle(under)]
#[tactic(auto, using(ac_types::proofs::SizeLaws::type_laws))]
fn is_under(target: &Sig, a: &Ty, b: &Ty) -> bool
    ensures { result ≡ same (typ_of a.now) (with_mine (stand_in (sig_of target.now))
        (typ_of b.now)) }
{
    match b {
        Ty::Mine(word) => match spec_named(target.types.as_slice(), word) {
            None => same_types(a, b),
            Some(spec) => match &spec.manifest {
                None => same_types(a, b),
                Some(manifest) => same_types(a, manifest),
            },
        },
        Ty::Tuple(parts) => match a {
            Ty::Tuple(others) => are_under(target, others.as_slice(), parts.as_slice()),
            _ => false,
        },
        Ty::List(item) => match a {
            Ty::List(other) => is_under(target, other, item),
            _ => false,
        },
        Ty::Opt(item) => match a {
            Ty::Opt(other) => is_under(target, other, item),
            _ => false,
        },
        Ty::Fun(from, to) => match a {
            Ty::Fun(start, end) => is_under(target, start, from) && is_under(target, end, to),
            _ => false,
        },
        _ => same_types(a, b),
    }
}

#[cycle(under)]
fn are_under(target: &Sig, a: &[Ty], b: &[Ty]) -> bool
    ensures { result ≡ same_all (typs (map typ_of a.now))
        (all_with_mine (stand_in (sig_of target.now)) (typs (map typ_of b.now))) }
{
    if a.len() != b.len() {
        return false;
    }
    for i in 0..a.len() {
        if !is_under(target, &a[i], &b[i]) {
            return false;
        }
    }
    true
}

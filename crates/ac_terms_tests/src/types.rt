// Calls that can answer want of memory, where memory suffices.

use crate::make::{boxed, one, text, two, word};
use ac_rules::eq_under;
use ac_types::{
    Atom, Constraint, Range, Resolve, Sig, SigType, Ty, TyField, Version, same_types, small,
};
use std::alloc::Global;
use std::process::Abort;

// `t -> int list`, with an own type `t`.
fn sample(rt: &impl Abort, alloc: Global) -> Ty {
    let from = boxed(rt, alloc, Ty::Mine(word(rt, alloc, b"t")));
    let to = Ty::List(boxed(rt, alloc, Ty::Int));
    Ty::Fun(from, boxed(rt, alloc, to))
}

fn spec(rt: &impl Abort, alloc: Global, name: &[u8], manifest: Option<Ty>) -> SigType {
    SigType {
        name: word(rt, alloc, name),
        manifest,
    }
}

// In the signature `t` is abstract, and `u` is manifest as bool.
fn sample_sig(rt: &impl Abort, alloc: Global) -> Sig {
    let t = spec(rt, alloc, b"t", None);
    let u = spec(rt, alloc, b"u", Some(Ty::Bool));
    let get = TyField {
        name: word(rt, alloc, b"get"),
        ty: sample(rt, alloc),
    };
    Sig {
        types: two(rt, alloc, t, u),
        vals: one(rt, alloc, get),
    }
}

#[test]
fn copies_a_type(rt: HostRuntime) {
    let ty = sample(&rt, rt.alloc());
    let copy = ty.copy(rt.alloc()).expect(&rt, "memory");
    let equal = (same_types(&ty, &copy), same_types(&copy, &Ty::Int));
    drop(ty);
    let is_small = small(&copy);
    drop(copy);
    assert_eq!(rt; equal, (true, false));
    assert!(rt; is_small);
}

#[test]
fn copies_a_signature(rt: HostRuntime) {
    let sig = sample_sig(&rt, rt.alloc());
    let copy = sig.copy(rt.alloc()).expect(&rt, "memory");
    drop(sig);
    let lengths = (copy.types.len(), copy.vals.len());
    drop(copy);
    assert_eq!(rt; lengths, (2, 1));
}

#[test]
fn copies_a_version(rt: HostRuntime) {
    let atoms = two(&rt, rt.alloc(), Atom::Number(1), Atom::MyName);
    let version = Version { atoms };
    let copy = version.copy(rt.alloc()).expect(&rt, "memory");
    drop(version);
    assert_eq!(rt; copy.atoms.get(1), Some(&Atom::MyName));
}

#[test]
fn copies_a_constraint(rt: HostRuntime) {
    let constraint = Constraint::Ranges {
        atoms: one(&rt, rt.alloc(), Range::Between(2, 4)),
        star: true,
    };
    let copy = constraint.copy(rt.alloc()).expect(&rt, "memory");
    drop(constraint);
    let has_star = matches!(
        &copy,
        Constraint::Ranges {
            atoms: _,
            star: true
        }
    );
    drop(copy);
    assert!(rt; has_star);
}

#[test]
fn copies_a_resolvespec(rt: HostRuntime) {
    let by = Resolve::Uri(text(&rt, rt.alloc(), b"lib:c"));
    let copy = by.copy(rt.alloc()).expect(&rt, "memory");
    drop(by);
    let is_uri = matches!(&copy, Resolve::Uri(_));
    drop(copy);
    assert!(rt; is_uri);
}

// Whether a type is one for which the own type of that name stands.
fn stands_for(rt: &impl Abort, alloc: Global, name: &[u8], ty: &Ty) -> bool {
    let sig = sample_sig(rt, alloc);
    let own = Ty::Mine(word(rt, alloc, name));
    let found = eq_under(&sig, &sig, ty, &own);
    drop(own);
    drop(sig);
    found
}

// An abstract type stands for itself, and a manifest one for what it is.
#[test]
fn own_types_stand_for_types(rt: HostRuntime) {
    let alloc = rt.alloc();
    let t = Ty::Mine(word(&rt, alloc, b"t"));
    assert!(rt; stands_for(&rt, alloc, b"t", &t));
    drop(t);
    assert!(rt; !stands_for(&rt, alloc, b"t", &Ty::Bool));
    assert!(rt; stands_for(&rt, alloc, b"u", &Ty::Bool));
    assert!(rt; !stands_for(&rt, alloc, b"u", &Ty::Int));
}

// Types of 4,096 parts, and of more.

use crate::make::boxed;
use ac_check::{CheckFault, type_of};
use ac_terms::{Env, Home, Term};
use ac_types::{Many, Ty, same_types};
use std::alloc::Global;
use std::process::Abort;

// The type of functions from a type to itself.
fn doubled(rt: &impl Abort, alloc: Global, ty: Ty) -> Ty {
    let from = boxed(rt, alloc, ty.copy(alloc).expect(rt, "memory"));
    Ty::Fun(from, boxed(rt, alloc, ty))
}

// A list of functions: a type of 4,096 parts.
fn wide(rt: &impl Abort, alloc: Global) -> Ty {
    let mut ty = Ty::Int;
    for _ in 0..11u8 {
        ty = doubled(rt, alloc, ty);
    }
    Ty::List(boxed(rt, alloc, ty))
}

// The type of a term without variables, behind no definitions.
fn type_alone(alloc: Global, term: &Term) -> Result<Ty, CheckFault> {
    let env = Env::new(alloc);
    type_of(alloc, &env, Home::Main, 0, 0, &Many::new(alloc), term)
}

fn check_ill_typed(rt: &impl Abort, alloc: Global, term: Term) {
    assert!(rt; matches!(type_alone(alloc, &term), Err(CheckFault::IllTyped)));
}

#[test]
fn as_many_parts_as_a_type_may_have(rt: HostRuntime) {
    let nil = Term::Nil(wide(&rt, rt.alloc()));
    let found = type_alone(rt.alloc(), &nil).expect(&rt, "a type");
    drop(nil);
    let ty = wide(&rt, rt.alloc());
    assert!(rt; same_types(&found, &ty));
}

#[test]
fn more_parts_than_a_type_may_have(rt: HostRuntime) {
    let listed = boxed(&rt, rt.alloc(), wide(&rt, rt.alloc()));
    check_ill_typed(&rt, rt.alloc(), Term::Nil(Ty::List(listed)));
    let nil = Term::Nil(wide(&rt, rt.alloc()));
    let item = boxed(&rt, rt.alloc(), nil);
    check_ill_typed(&rt, rt.alloc(), Term::Present(item));
}

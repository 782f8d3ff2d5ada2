// Calls that can answer want of memory, where memory suffices.

use crate::make::{boxed, entry, named, one, text, word};
use ac_terms::{Arm, Def, Env, Home, Import, PDef, PVal, Packet, Pat, Term};
use ac_types::{Constraint, Exn, Many, Name, Resolve, Sig, TextExn, Ty};
use std::alloc::Global;
use std::process::Abort;

// A mark and then a module, under a name.
fn sample(rt: &impl Abort, alloc: Global) -> Env {
    let mark = entry(Def::Mark(text(rt, alloc, b"MK")), None);
    let mut env = Env::new(alloc);
    env.push(mark).expect(rt, "memory");
    env.push(named(rt, alloc, b"C", 6)).expect(rt, "memory");
    env
}

fn copy(rt: &impl Abort, alloc: Global) -> Env {
    let env = sample(rt, alloc);
    let copy = env.copy(alloc).expect(rt, "memory");
    drop(env);
    copy
}

#[test]
fn copies_an_environment(rt: HostRuntime) {
    let copy = copy(&rt, rt.alloc());
    assert!(rt; copy.len() == 2);
    assert!(rt; copy.find(&Name([7; 32])) == Some(1));
    assert!(rt; copy.find(&Name([8; 32])).is_none());
    assert!(rt; copy.entry(1).is_some());
    assert!(rt; copy.entry(2).is_none());
    drop(copy);
}

// `import C : sig end version * by Here_Already`.
fn any_c(rt: &impl Abort, alloc: Global) -> Import {
    Import {
        name: word(rt, alloc, b"C"),
        sig: Sig {
            types: Many::new(alloc),
            vals: Many::new(alloc),
        },
        constraint: Constraint::Ranges {
            atoms: Many::new(alloc),
            star: true,
        },
        like: Many::new(alloc),
        by: one(rt, alloc, Resolve::HereAlready),
    }
}

fn packet(rt: &impl Abort, alloc: Global) -> Packet {
    Packet {
        defs: one(rt, alloc, PDef::Import(any_c(rt, alloc))),
        ty: Ty::Exn,
        value: PVal::Exn(Exn::Text(TextExn::Failure, text(rt, alloc, b"s"))),
    }
}

#[test]
fn copies_a_packet(rt: HostRuntime) {
    let packet = packet(&rt, rt.alloc());
    let copy = packet.copy(rt.alloc()).expect(&rt, "memory");
    drop(packet);
    assert_eq!(rt; copy.defs.len(), 1);
    assert!(rt; matches!(&copy.value, PVal::Exn(_)));
    drop(copy);
}

fn arm() -> Arm {
    Arm {
        pat: Pat::Wild,
        body: Term::Var(0),
    }
}

// `fun (x : int) -> match x with _ -> x`, of the main program.
fn arms(rt: &impl Abort, alloc: Global) -> PVal {
    let of = boxed(rt, alloc, Term::Var(0));
    let body = Term::Match(of, one(rt, alloc, arm()));
    let lambda = Term::Lam(Ty::Int, boxed(rt, alloc, body));
    PVal::Fun(Home::Main, boxed(rt, alloc, lambda))
}

#[test]
fn copies_a_function(rt: HostRuntime) {
    let value = arms(&rt, rt.alloc());
    let copy = value.copy(rt.alloc()).expect(&rt, "memory");
    drop(value);
    assert!(rt; matches!(&copy, PVal::Fun(Home::Main, _)));
    drop(copy);
}

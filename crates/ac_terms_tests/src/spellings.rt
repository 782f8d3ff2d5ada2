// Canonical spellings, where memory suffices.

use crate::make::{alone, word};
use ac_canon::{def_text, has_text, term_bytes, type_bytes};
use ac_terms::Term;
use ac_types::Ty;

const MODULE: [u8; 28] = [
    0x01, 0x01, 0x43, 0x01, 0x02, 0x00, 0x00, 0x00, 0x01, 0x01, 0x79, 0x01, 0x00, 0x00, 0x00, 0x01,
    0x01, 0x79, 0x01, 0x01, 0x00, 0x00, 0x00, 0x00, 0x00, 0x00, 0x00, 0x06,
];

#[test]
fn spells_a_module(rt: HostRuntime) {
    let env = alone(&rt, rt.alloc(), b"C", 6);
    assert!(rt; has_text(&env, 0));
    assert!(rt; !has_text(&env, 1));
    let text = def_text(rt.alloc(), &env, 0).expect(&rt, "memory");
    assert_eq!(rt; text.as_slice(), MODULE.as_slice());
}

#[test]
fn spells_a_type(rt: HostRuntime) {
    let ty = Ty::Mine(word(&rt, rt.alloc(), b"t"));
    let text = type_bytes(rt.alloc(), &ty).expect(&rt, "memory");
    assert_eq!(rt; text.as_slice(), b"\x0B\x01t".as_slice());
}

const REFERENCE: [u8; 35] = [
    0x0D, 7, 7, 7, 7, 7, 7, 7, 7, 7, 7, 7, 7, 7, 7, 7, 7, 7, 7, 7, 7, 7, 7, 7, 7, 7, 7, 7, 7, 7, 7,
    7, 7, 0x01, 0x79,
];

#[test]
fn spells_a_reference_by_the_name_of_its_entry(rt: HostRuntime) {
    let env = alone(&rt, rt.alloc(), b"C", 6);
    let y = Term::Ref(0, word(&rt, rt.alloc(), b"y"));
    let text = term_bytes(rt.alloc(), &env, &y).expect(&rt, "memory");
    assert_eq!(rt; text.as_slice(), REFERENCE.as_slice());
}

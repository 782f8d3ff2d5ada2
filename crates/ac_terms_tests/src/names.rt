// Names, and their digits.

use crate::make::alone;
use ac_names::{has_name, name_hex, name_of};
use ac_types::Name;
use sha2::{Digest, Sha256};
use std::alloc::Global;
use std::process::Abort;

fn check_digits(rt: &impl Abort, alloc: Global, name: Name, digits: &[u8]) {
    let text = name_hex(alloc, &name).expect(rt, "memory");
    assert_eq!(rt; text.as_slice(), digits);
}

// Texts, and the digits of their digests.
const DIGESTS: [(&[u8], &[u8]); 2] = [
    (
        b"",
        b"e3b0c44298fc1c149afbf4c8996fb92427ae41e4649b934ca495991b7852b855",
    ),
    (
        b"abc",
        b"ba7816bf8f01cfea414140de5dae2223b00361a396177a9cb410ff61f20015ad",
    ),
];

#[test]
fn digests_are_those_of_the_standard(rt: HostRuntime) {
    for (text, digits) in &DIGESTS {
        check_digits(&rt, rt.alloc(), Name(Sha256::digest(*text)), digits);
    }
}

// The name of the module of that external name and number.
fn name(rt: &impl Abort, alloc: Global, external: &[u8], n: i64) -> Name {
    let env = alone(rt, alloc, external, n);
    assert!(rt; has_name(&env, 0));
    name_of(alloc, &env, 0).expect(rt, "memory")
}

#[test]
fn a_module_is_named_by_its_text(rt: HostRuntime) {
    let six = name(&rt, rt.alloc(), b"C", 6);
    check_digits(
        &rt,
        rt.alloc(),
        six,
        b"f74fb43c40d9370a91f9a548e759d75656eeec269473a3ebf5b9562b8243232d",
    );
}

#[test]
fn another_number_or_external_name_has_another_name(rt: HostRuntime) {
    let six = name(&rt, rt.alloc(), b"C", 6);
    let seven = name(&rt, rt.alloc(), b"C", 7);
    let other = name(&rt, rt.alloc(), b"D", 6);
    assert!(rt; six != seven && six != other);
}

// Packets that are refused, which leave the environment as it was. Of a clash there is no row: it
// takes two texts of one digest.

use crate::packets::{Asked, NOTHING, OWN_M1, PAIR, Row, Want, check, check_all, own};
use crate::spelled::imports_by_name;
use ac_admit::AdmitFault;
use ac_types::Name;

// The packet of `true` as a bool, and as an int.
const TRUE: &[u8] = b"ACUP\x01\x00\x00\x02\x02\x01";

const TRUE_AS_INT: &[u8] = b"ACUP\x01\x00\x00\x01\x02\x01";

// A packet that brings a module, with `true` as an int.
const BRINGS_FALSELY: &[u8] =
    b"ACUP\x01\x00\x01\x01\x02M2\x01\x02\x00\x00\x00\x01\x01z\x01\x00\x00\x00\x01\x01z\x01\x01\x00\x00\x00\x00\x00\x00\x00\x03\x01\x02\x01";

// A module with a field of the wrong type, and one that refers to itself; each with unit.
const ILL_TYPED: &[u8] =
    b"ACUP\x01\x00\x01\x01\x02M2\x01\x02\x00\x00\x00\x01\x01z\x01\x00\x00\x00\x01\x01z\x01\x02\x01\x04\x04";

const REFERS_ON: &[u8] =
    b"ACUP\x01\x00\x01\x01\x02M2\x01\x02\x00\x00\x00\x01\x01z\x01\x00\x00\x00\x01\x01z\x01\x0D\x00\x00\x01z\x04\x04";

// A module whose signature has two values of one name.
const TWICE: &[u8] =
    b"ACUP\x01\x00\x01\x01\x02M2\x01\x02\x00\x00\x00\x02\x01z\x01\x01z\x01\x00\x00\x00\x01\x01z\x01\x01\x00\x00\x00\x00\x00\x00\x00\x03\x04\x04";

// An import of `M1` by version, and behind it the module with a field of the wrong type.
const ILL_TYPED_LATER: &[u8] =
    b"ACUP\x01\x00\x02\x02\x02M1\x00\x00\x00\x01\x01y\x01\x01\x00\x01\x00\x00\x01\x02\x01\x02M2\x01\x02\x00\x00\x00\x01\x01z\x01\x00\x00\x00\x01\x01z\x01\x02\x01\x04\x04";

// A module, and behind it an import of `M1` by `Static_Link`, which gives nothing in a packet; with
// unit.
const LINKS_TO_NOTHING: &[u8] =
    b"ACUP\x01\x00\x02\x01\x02M2\x01\x02\x00\x00\x00\x01\x01z\x01\x00\x00\x00\x01\x01z\x01\x01\x00\x00\x00\x00\x00\x00\x00\x03\x02\x02M1\x00\x00\x00\x01\x01y\x01\x01\x00\x01\x00\x00\x01\x01\x04\x04";

// A function at home in a definition that isn't there, and one at home in an import by version.
const NO_HOME: &[u8] = b"ACUP\x01\x00\x00\x09\x04\x04\x0A\x00\x01\x0E\x04\x04";

const IMPORT_HOME: &[u8] =
    b"ACUP\x01\x00\x01\x02\x02M1\x00\x00\x00\x01\x01y\x01\x01\x00\x01\x00\x00\x01\x02\x09\x04\x04\x0A\x00\x01\x0E\x04\x04";

const WRONG: Want = Want::Refused(AdmitFault::WrongType);

const VALUE: Want = Want::Refused(AdmitFault::Value);

// The definition of that number isn't well formed.
const ILL_0: Want = Want::Refused(AdmitFault::Definition { i: 0 });

const ILL_1: Want = Want::Refused(AdmitFault::Definition { i: 1 });

// The import of that number has no link.
const OPEN_0: Want = Want::Refused(AdmitFault::Unresolved { i: 0 });

const OPEN_1: Want = Want::Refused(AdmitFault::Unresolved { i: 1 });

const TYPES_AND_VALUES: [Row; 5] = [
    (TRUE, Asked::Int, WRONG, 0),
    (TRUE_AS_INT, Asked::Bool, WRONG, 0),
    (TRUE_AS_INT, Asked::Int, VALUE, 0),
    (BRINGS_FALSELY, Asked::Int, VALUE, 0),
    (TRUE, Asked::Bool, Want::Accepted, 0),
];

#[test]
fn types_and_values(rt: HostRuntime) {
    check_all(&rt, rt.alloc(), NOTHING, &TYPES_AND_VALUES);
}

// A definition that isn't well formed comes before an import without a link.
const DEFINITIONS: [Row; 4] = [
    (ILL_TYPED, Asked::Unit, ILL_0, 0),
    (REFERS_ON, Asked::Unit, ILL_0, 0),
    (TWICE, Asked::Unit, ILL_0, 0),
    (ILL_TYPED_LATER, Asked::Unit, ILL_1, 0),
];

#[test]
fn definitions(rt: HostRuntime) {
    check_all(&rt, rt.alloc(), NOTHING, &DEFINITIONS);
}

const HOMES: [Row; 2] = [
    (NO_HOME, Asked::Own, VALUE, 1),
    (IMPORT_HOME, Asked::Own, VALUE, 1),
];

#[test]
fn homes(rt: HostRuntime) {
    check_all(&rt, rt.alloc(), OWN_M1, &HOMES);
}

// An import without a link comes before the type.
#[test]
fn imports_without_a_link(rt: HostRuntime) {
    let alloc = rt.alloc();
    let mut env = own(&rt, alloc, NOTHING);
    check(&rt, alloc, &mut env, PAIR, Asked::Int, OPEN_0, 0);
    let named = imports_by_name(&rt, alloc, Name([7; 32]));
    check(
        &rt,
        alloc,
        &mut env,
        named.as_slice(),
        Asked::Unit,
        OPEN_0,
        0,
    );
}

// The type comes after a link.
const WITH_A_LINK: [Row; 2] = [
    (LINKS_TO_NOTHING, Asked::Unit, OPEN_1, 1),
    (PAIR, Asked::Int, WRONG, 1),
];

#[test]
fn imports_with_a_link(rt: HostRuntime) {
    check_all(&rt, rt.alloc(), OWN_M1, &WITH_A_LINK);
}

// Packets that are accepted.

use crate::packets::{
    Asked, BRINGS_M1, FIVE, NOTHING, OWN_M1, PAIR, Row, Want, check, check_all, own,
};
use crate::spelled::{imports_by_name, name_of_first};
use ac_admit::AdmitFault;

const AN_INT: [Row; 1] = [(FIVE, Asked::Int, Want::Entries(&[]), 0)];

#[test]
fn an_int_brings_nothing(rt: HostRuntime) {
    check_all(&rt, rt.alloc(), NOTHING, &AN_INT);
}

const ITS_ENTRIES: Want = Want::Entries(&[(1, Some(0)), (2, None)]);

// The module is new, the import links to the program's own module; the second time both are there.
const TWICE: [Row; 2] = [
    (PAIR, Asked::Own, ITS_ENTRIES, 3),
    (PAIR, Asked::Own, ITS_ENTRIES, 3),
];

#[test]
fn the_same_packet_twice(rt: HostRuntime) {
    check_all(&rt, rt.alloc(), OWN_M1, &TWICE);
}

// Not to one that has arrived.
const LINKS_TO_OWN: [Row; 2] = [
    (BRINGS_M1, Asked::Int, Want::Entries(&[(1, None)]), 2),
    (
        PAIR,
        Asked::Own,
        Want::Entries(&[(2, Some(0)), (3, None)]),
        4,
    ),
];

#[test]
fn an_import_links_to_own_modules(rt: HostRuntime) {
    check_all(&rt, rt.alloc(), OWN_M1, &LINKS_TO_OWN);
}

const NONE_OWN: [Row; 2] = [
    (BRINGS_M1, Asked::Int, Want::Entries(&[(0, None)]), 1),
    (
        PAIR,
        Asked::Own,
        Want::Refused(AdmitFault::Unresolved { i: 0 }),
        1,
    ),
];

#[test]
fn a_module_that_has_arrived_serves_no_import_by_version(rt: HostRuntime) {
    check_all(&rt, rt.alloc(), NOTHING, &NONE_OWN);
}

// An import by exact name becomes its module, also one that has arrived, and adds no entry.
#[test]
fn an_import_by_exact_name(rt: HostRuntime) {
    let alloc = rt.alloc();
    let mut env = own(&rt, alloc, NOTHING);
    let module = Want::Entries(&[(0, None)]);
    check(&rt, alloc, &mut env, BRINGS_M1, Asked::Int, module, 1);
    let bytes = imports_by_name(&rt, alloc, name_of_first(&env));
    check(
        &rt,
        alloc,
        &mut env,
        bytes.as_slice(),
        Asked::Unit,
        module,
        1,
    );
}

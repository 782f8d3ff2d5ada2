// An environment has 65,535 entries at most.

use crate::packets::{Asked, BRINGS_M1, FIVE, OWN_M1, PAIR, Want, check, own};
use crate::spelled::modules;
use ac_admit::AdmitFault;

// A program with a module that the packet of many modules brings too.
const OWN_AAA: &[u8] = b"module AAA : sig end = struct end ()";

const ONE_TOO_MANY: Want = Want::Refused(AdmitFault::Full { count: 65_536 });

const TWO_TOO_MANY: Want = Want::Refused(AdmitFault::Full { count: 65_537 });

// Want of room comes before an import without a link, and before another type.
#[test]
fn entries_beyond_the_most(rt: HostRuntime) {
    let alloc = rt.alloc();
    let many = modules(&rt, alloc, 65_535);
    let mut env = own(&rt, alloc, OWN_AAA);
    check(
        &rt,
        alloc,
        &mut env,
        many.as_slice(),
        Asked::Unit,
        Want::Accepted,
        65_535,
    );
    check(
        &rt,
        alloc,
        &mut env,
        BRINGS_M1,
        Asked::Int,
        ONE_TOO_MANY,
        65_535,
    );
    check(&rt, alloc, &mut env, PAIR, Asked::Int, TWO_TOO_MANY, 65_535);
    check(
        &rt,
        alloc,
        &mut env,
        FIVE,
        Asked::Int,
        Want::Accepted,
        65_535,
    );
    drop(env);
    let mut env = own(&rt, alloc, OWN_M1);
    check(
        &rt,
        alloc,
        &mut env,
        many.as_slice(),
        Asked::Int,
        ONE_TOO_MANY,
        1,
    );
}

// The fault between an import and an entry, the first where there are several.

use crate::make::{ANY, Asked, EMPTY, Shape, entry, import, module, text};
use ac_link::{LinkFault, link_ok};
use ac_terms::{Def, Env, Seen};
use ac_types::{Atom, Range};
use std::alloc::Global;
use std::process::Abort;

type Fault = Option<LinkFault>;

// An own entry of a letter, whose module has that shape.
type Own = (u8, Shape);

// The shape of an import, and what it asks.
type Wanted = (Shape, Asked);

// The name that the entry keeps, and its module's version.
const NAME: u8 = b'7';

const VERSION: &[Atom] = &[Atom::Number(1), Atom::Number(4)];

const HAS_X: Shape = b":xi";

const TWO: Asked = Asked::Ranges(&[Range::One(2)], false);

const FROM_0: Asked = Asked::Ranges(&[Range::From(0)], true);

const ITS_NAME: Asked = Asked::Exact(NAME);

const OTHER_NAME: Asked = Asked::Exact(b'8');

const KIND: Fault = Some(LinkFault::Kind);

const EXTERNAL: Fault = Some(LinkFault::External);

const UNMET: Fault = Some(LinkFault::Version);

const MISNAMED: Fault = Some(LinkFault::Name);

// The spec of that number isn't there.
const LACKS_0: Fault = Some(LinkFault::Signature { spec: 0 });

const LACKS_1: Fault = Some(LinkFault::Signature { spec: 1 });

const LACKS_2: Fault = Some(LinkFault::Signature { spec: 2 });

const LACKS_3: Fault = Some(LinkFault::Signature { spec: 3 });

// The abstract type of that number has another representation than the likespec says.
const UNLIKE_0: Fault = Some(LinkFault::Like { spec: 0 });

const UNLIKE_1: Fault = Some(LinkFault::Like { spec: 1 });

// Of the letter `!` a mark and of `>` an import; else a module of that external name, of `m` the
// module `M` of version `myname`.
fn def(rt: &impl Abort, alloc: Global, (letter, shape): Own) -> Def {
    match letter {
        b'!' => Def::Mark(text(rt, alloc, b'M')),
        b'>' => Def::Import(import(rt, alloc, EMPTY, ITS_NAME, b"H")),
        b'm' => Def::Module(module(rt, alloc, b'M', &[Atom::MyName], shape)),
        _ => Def::Module(module(rt, alloc, letter, VERSION, shape)),
    }
}

// The definition alone.
fn alone(rt: &impl Abort, alloc: Global, own: Own) -> Env {
    let entry = entry(def(rt, alloc, own), NAME, Seen::Own);
    let mut env = Env::new(alloc);
    env.push(entry).expect(rt, "memory");
    env
}

// Checks the fault between an import and entry `j` where the entry stands alone.
fn check(rt: &impl Abort, alloc: Global, own: Own, j: u32, (shape, asked): Wanted, want: Fault) {
    let env = alone(rt, alloc, own);
    let import = import(rt, alloc, shape, asked, b"H");
    assert!(rt; import.sig.types.len() < 10 && import.sig.vals.len() < 10);
    let found = link_ok(&env, &import, j).err();
    drop(import);
    drop(env);
    assert!(rt; found == want);
}

// An entry without specs, the number to link to, the import, and the fault.
const FIRST: [(u8, u32, Wanted, Fault); 17] = [
    (b'!', 0, (EMPTY, ANY), KIND),
    (b'!', 0, (EMPTY, ITS_NAME), KIND),
    (b'>', 0, (EMPTY, ANY), KIND),
    (b'>', 0, (EMPTY, ITS_NAME), KIND),
    (b'M', 0, (EMPTY, ANY), None),
    (b'M', 0, (EMPTY, ITS_NAME), None),
    (b'M', 1, (EMPTY, ANY), KIND),
    (b'M', 1, (EMPTY, ITS_NAME), KIND),
    (b'N', 0, (EMPTY, ANY), EXTERNAL),
    (b'N', 0, (EMPTY, ITS_NAME), EXTERNAL),
    (b'N', 0, (HAS_X, TWO), EXTERNAL),
    (b'N', 0, (HAS_X, OTHER_NAME), EXTERNAL),
    (b'M', 0, (EMPTY, ITS_NAME), None),
    (b'M', 0, (EMPTY, OTHER_NAME), MISNAMED),
    (b'M', 0, (HAS_X, OTHER_NAME), LACKS_0),
    (b'm', 0, (EMPTY, ANY), None),
    (b'm', 0, (EMPTY, FROM_0), UNMET),
];

// Only modules are linked to. The external name comes before the version, the signature and the
// name, and by exact name the signature before the name; no range holds `myname`.
#[test]
fn kinds_and_names(rt: HostRuntime) {
    for (letter, j, wanted, want) in &FIRST {
        check(&rt, rt.alloc(), (*letter, EMPTY), *j, *wanted, *want);
    }
}

// What is asked of version 1.4, and the faults of an import without specs and of one with a spec
// that isn't there.
const MEETINGS: [(&[Range], bool, Fault, Fault); 9] = [
    (&[Range::One(1), Range::One(4)], false, None, LACKS_0),
    (&[Range::One(1), Range::From(2)], false, None, LACKS_0),
    (&[Range::One(1), Range::UpTo(3)], false, UNMET, UNMET),
    (
        &[Range::UpTo(1), Range::Between(3, 4)],
        false,
        None,
        LACKS_0,
    ),
    (&[Range::One(1)], false, UNMET, UNMET),
    (&[Range::One(1)], true, None, LACKS_0),
    (&[Range::One(1), Range::One(4)], true, None, LACKS_0),
    (
        &[Range::One(1), Range::One(4), Range::From(0)],
        true,
        UNMET,
        UNMET,
    ),
    (&[Range::One(2)], true, UNMET, UNMET),
];

// The version comes before the signature.
#[test]
fn versions(rt: HostRuntime) {
    for (ranges, star, at_best, behind) in &MEETINGS {
        let asked = Asked::Ranges(ranges, *star);
        check(&rt, rt.alloc(), (b'M', EMPTY), 0, (EMPTY, asked), *at_best);
        check(&rt, rt.alloc(), (b'M', EMPTY), 0, (HAS_X, asked), *behind);
    }
}

// A module's shape and an import's, and the faults between them by version and by exact name.
type Pair = (Shape, Shape, Fault, Fault);

fn check_all(rt: &impl Abort, alloc: Global, pairs: &[Pair]) {
    for (module, import, by_version, by_name) in pairs {
        let own = (b'M', *module);
        check(rt, alloc, own, 0, (*import, ANY), *by_version);
        check(rt, alloc, own, 0, (*import, ITS_NAME), *by_name);
    }
}

const VALUES: [Pair; 9] = [
    (b":xi :yb", b":yb :xi", None, None),
    (b":xi :yb", b":xi", None, None),
    (b":xi", b":xi :zi", LACKS_1, LACKS_1),
    (b":xi", b":xb", LACKS_0, LACKS_0),
    (b":xi", b":xi :yb :zb", LACKS_1, LACKS_1),
    (b"=ui :xi", b"=ui :xi :yb", LACKS_2, LACKS_2),
    (b"=t. =ui :xi ~tb", b"=t. =ui :xb ~tb", LACKS_2, LACKS_2),
    (b":x8", b":x8", None, None),
    (b":x8", b":x9", LACKS_0, LACKS_0),
];

#[test]
fn values(rt: HostRuntime) {
    check_all(&rt, rt.alloc(), &VALUES);
}

const TYPES: [Pair; 9] = [
    (b"", b"=t. ~tb", LACKS_0, LACKS_0),
    (b"", b"=ui", LACKS_0, LACKS_0),
    (b"=ui", b"=ui =t. ~tb", LACKS_1, LACKS_1),
    (b"", b"=ui :xi", LACKS_0, LACKS_0),
    (b"=t. ~tb", b"=t. ~tb", None, None),
    (b"=tb ~tb", b"=t. ~tb", None, LACKS_0),
    (b"=t. ~tb", b"=tb", LACKS_0, LACKS_0),
    (b"=t. =ui ~tb", b"=ui", None, None),
    (b"=ui", b"=ub", LACKS_0, LACKS_0),
];

#[test]
fn types(rt: HostRuntime) {
    check_all(&rt, rt.alloc(), &TYPES);
}

// An own type of the import stands for the module's own type, by version also for its manifest
// type, and never for the type of the module's name.
const OWN_TYPES: [Pair; 7] = [
    (b"=t. :xt :yL :zG ~tb", b"=t. :xt :yL :zG ~tb", None, None),
    (
        b"=tb :xb :yl :zf ~tb",
        b"=t. :xt :yL :zG ~tb",
        None,
        LACKS_0,
    ),
    (
        b"=tb :xb :yl :zi ~tb",
        b"=t. :xt :yL :zG ~tb",
        LACKS_3,
        LACKS_0,
    ),
    (b"=t. :xt :yl ~tb", b"=t. :xt :yL ~tb", LACKS_2, LACKS_2),
    (b"=t. :xt ~tb", b"=t. :xb ~tb", LACKS_1, LACKS_1),
    (
        b"=t. =u. :xt ~tb ~ub",
        b"=t. =u. :xu ~tb ~ub",
        LACKS_2,
        LACKS_2,
    ),
    (b"=t. :xt ~tb", b"=t. :x7 ~tb", LACKS_1, LACKS_1),
];

#[test]
fn own_types(rt: HostRuntime) {
    check_all(&rt, rt.alloc(), &OWN_TYPES);
}

// Manifest types in which own types stand.
const MANIFEST_TYPES: [Pair; 5] = [
    (b"=t. =uL ~tb", b"=t. =uL ~tb", None, None),
    (b"=tb =ul ~tb", b"=t. =uL ~tb", None, LACKS_0),
    (b"=tb =ul ~tb", b"=tb =ul", None, None),
    (b"=t. =ul ~tb", b"=t. =uL ~tb", LACKS_1, LACKS_1),
    (b"=t. =ut ~tb", b"=t. =u7 ~tb", LACKS_1, LACKS_1),
];

#[test]
fn manifest_types(rt: HostRuntime) {
    check_all(&rt, rt.alloc(), &MANIFEST_TYPES);
}

// The signature comes before the likespec, of which an import by exact name has none.
const LIKESPECS: [Pair; 8] = [
    (b"=t. ~tb", b"=t. ~ui ~tb", None, None),
    (b"=t. ~tb", b"=t. ~ti", UNLIKE_0, None),
    (b"=tb ~tb", b"=t. ~ti", UNLIKE_0, LACKS_0),
    (b"=ui =t. ~tb", b"=ui =t. ~ti", UNLIKE_1, None),
    (b"=t. =u. ~tb ~ub", b"=t. =u. ~tb ~ui", UNLIKE_1, None),
    (b"=t. =u. ~tb ~ub", b"=t. =u. ~ti ~ui", UNLIKE_0, None),
    (b"=t. ~t8", b"=t. ~t9", UNLIKE_0, None),
    (b"=t. ~tb", b"=t. :xi ~ti", LACKS_1, LACKS_1),
];

#[test]
fn likespecs(rt: HostRuntime) {
    check_all(&rt, rt.alloc(), &LIKESPECS);
}

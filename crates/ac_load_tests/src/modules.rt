// Which signatures are covered, and which likespecs are missing.

use crate::make::{ANY, Shape, import, module};
use ac_modules::{covers, like_missing};
use std::alloc::Global;
use std::process::Abort;

// A module's shape and the first spec that isn't covered, or an import's shape and the first type
// without a likespec.
type Row = (Shape, Option<u32>);

const MODULES: [Row; 14] = [
    (b"=t. =ui :xt :yF ~ui ~tb #yf #xb", None),
    (b"=t. =ui :xt :yF ~ui #yf #xb", Some(0)),
    (b"=t. =ui :xt :yF ~tb #yf #xb", Some(1)),
    (b"=t. =ui :xt :yF ~tb ~ub #yf #xb", Some(1)),
    (b"=t. =ui :xt :yF ~tb ~ui #xb", Some(3)),
    (b"=t. =ui :xt :yF ~tb ~ui #xi #yf", Some(2)),
    (b"=t. =ui :xt :yF ~tb ~ui #xt #yf", Some(2)),
    (b"=t. =ui :xt :yF ~tb", Some(1)),
    (b"=t. =uL ~tb ~ul", None),
    (b"=t. =uL ~tb ~uL", Some(1)),
    (b"=t. =ui :xL :yO :zP ~tb ~ui #xl #yo #zp", None),
    (b"=t. =ui :xL :yO :zP ~tb ~ui #xl #yo #zf", Some(4)),
    (b":x7 :yt :zL #x7 #yt #zL", None),
    (b":x7 :yt #xt #yt", Some(0)),
];

fn check_module(rt: &impl Abort, alloc: Global, (shape, want): Row) {
    let module = module(rt, alloc, b'M', &[], shape);
    assert!(rt; module.sig.types.len() < 10 && module.sig.vals.len() < 10);
    let found = covers(&module).err();
    drop(module);
    assert!(rt; found == want);
}

#[test]
fn signatures(rt: HostRuntime) {
    for row in &MODULES {
        check_module(&rt, rt.alloc(), *row);
    }
}

const IMPORTS: [Row; 5] = [
    (b"=t. =u. :xt ~ui ~tb", None),
    (b"=t. =u. :xt ~ti", Some(1)),
    (b"=t. :xt ~ui", Some(0)),
    (b"=ui =t. :xt", Some(1)),
    (b"=ui :xt", None),
];

fn check_import(rt: &impl Abort, alloc: Global, (shape, want): Row) {
    let import = import(rt, alloc, shape, ANY, b"");
    assert!(rt; import.sig.types.len() < 10);
    let found = like_missing(&import);
    drop(import);
    assert!(rt; found == want);
}

#[test]
fn likespecs(rt: HostRuntime) {
    for row in &IMPORTS {
        check_import(&rt, rt.alloc(), *row);
    }
}

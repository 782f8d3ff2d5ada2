// A table of blocks and a context, where memory suffices.

use crate::make::{one, two};
use ac_code::{Block, CodeId, CodeTable, Context, Variables};
use ac_terms::Home;
use ac_types::{Many, Ty};
use std::alloc::Global;
use std::process::Abort;

// A table with one block, which is the first field of entry 2.
fn table(rt: &impl Abort, alloc: Global) -> CodeTable {
    let mut table = CodeTable::new(alloc);
    let block = Block {
        home: Home::Main,
        lambda: None,
        context: Context::Empty,
        instrs: Many::new(alloc),
    };
    let id = table.push(block).expect(rt, "memory");
    assert_eq!(rt; id, CodeId(0));
    table.set_fields(2, one(rt, alloc, id)).expect(rt, "memory");
    table
}

#[test]
fn blocks_and_fields_are_found(rt: HostRuntime) {
    let table = table(&rt, rt.alloc());
    let fields = [table.field(2, 0), table.field(1, 0), table.field(2, 1)];
    assert_eq!(rt; table.len(), 1);
    assert_eq!(rt; fields, [Some(CodeId(0)), None, None]);
}

#[test]
fn types_of_a_context_are_read(rt: HostRuntime) {
    let alloc = rt.alloc();
    let outside = Context::Empty;
    let outer = outside
        .with(alloc, one(&rt, alloc, Ty::Int))
        .expect(&rt, "memory");
    let inner = outer
        .with(alloc, two(&rt, alloc, Ty::Bool, Ty::Str))
        .expect(&rt, "memory");
    drop(outer);
    let (first, left) = Variables::new(&inner).next().expect(&rt, "a type");
    let (second, left) = left.next().expect(&rt, "a type");
    let (third, left) = left.next().expect(&rt, "a type");
    assert!(rt; matches!(first, Ty::Bool));
    assert!(rt; matches!(second, Ty::Str));
    assert!(rt; matches!(third, Ty::Int));
    assert!(rt; left.next().is_none());
}

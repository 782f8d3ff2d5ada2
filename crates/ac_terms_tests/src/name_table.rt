// The table of names.

ghost use Rattle.std.specs.Prelude.{◌≡◌, ◌<◌, ◌≤◌, ◌+◌, ◌^◌, length};

use crate::make::text;
use ac_names::{AddFault, NameTable};
use ac_types::Name;
use std::alloc::Global;
use std::process::Abort;

// Checks what adding a name of one byte throughout gives.
fn check_added(
    rt: &impl Abort,
    alloc: Global,
    table: &mut NameTable,
    name: u8,
    bytes: &[u8],
    want: Result<u32, AddFault>,
)
    requires { length table.old + 1 < 2 ^ 32 }
    ensures { length table.new ≤ length table.old + 1 }
{
    let added = table.add(Name([name; 32]), text(rt, alloc, bytes));
    assert!(rt; added == want);
}

#[test]
fn a_name_keeps_its_number_and_its_text(rt: HostRuntime) {
    let alloc = rt.alloc();
    let clash = Err(AddFault::Clash { entry: 0 });
    let mut table = NameTable::new(alloc);
    check_added(&rt, alloc, &mut table, 1, b"a", Ok(0));
    check_added(&rt, alloc, &mut table, 1, b"a", Ok(0));
    check_added(&rt, alloc, &mut table, 1, b"b", clash);
    check_added(&rt, alloc, &mut table, 2, b"b", Ok(1));
    assert!(rt; table.find(&Name([1; 32])) == Some(0));
    assert!(rt; table.find(&Name([2; 32])) == Some(1));
    assert!(rt; table.find(&Name([3; 32])).is_none());
    drop(table);
}

// A store and its lists, where memory suffices.

use ac_values::read::{entry, int_in};
use ac_values::{Node, SharedLists, Store};

#[test]
fn nodes_are_found(rt: HostRuntime) {
    let mut store = Store::new(rt.alloc());
    let end = store.push(Node::EnvEnd).expect(&rt, "memory");
    let seven = store.push(Node::Int(7)).expect(&rt, "memory");
    let list = store.push(Node::EnvCons(seven, end)).expect(&rt, "memory");
    let entries = (entry(&store, list, 0), entry(&store, list, 1));
    assert_eq!(rt; entries, (Some(seven), None));
    assert_eq!(rt; int_in(&store, seven), Some(7));
}

#[test]
fn lists_are_found(rt: HostRuntime) {
    let mut lists = SharedLists::new(rt.alloc());
    let number = lists.push(5u8, 0).expect(&rt, "memory");
    assert_eq!(rt; lists.top(number), Some((5u8, 0)));
}

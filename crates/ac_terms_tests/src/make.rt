// Parts of trees, and a module of one field. Want of memory ends the test.

use ac_terms::{Def, Entry, Env, Field, Module, Seen, Term};
use ac_types::{Atom, Boxed, Many, Name, Sig, Text, Ty, TyField, Version, Word};
use std::alloc::Global;
use std::process::Abort;

/// The text of these bytes.
pub fn text(rt: &impl Abort, alloc: Global, bytes: &[u8]) -> Text {
    Text::from_slice(alloc, bytes).expect(rt, "memory")
}

/// The word of these bytes.
pub fn word(rt: &impl Abort, alloc: Global, bytes: &[u8]) -> Word {
    Word::new(text(rt, alloc, bytes)).expect(rt, "a word")
}

/// The item in a box.
pub fn boxed<T: Drop>(rt: &impl Abort, alloc: Global, item: T) -> Boxed<T> {
    Boxed::new(alloc, item).expect(rt, "memory")
}

/// A list of one item.
pub fn one<T: Drop>(rt: &impl Abort, alloc: Global, item: T) -> Many<T> {
    let mut items = Many::new(alloc);
    items.push(item).expect(rt, "memory");
    items
}

/// A list of two items.
pub fn two<T: Drop>(rt: &impl Abort, alloc: Global, first: T, second: T) -> Many<T> {
    let mut items = one(rt, alloc, first);
    items.push(second).expect(rt, "memory");
    items
}

fn int_y(rt: &impl Abort, alloc: Global) -> TyField {
    TyField {
        name: word(rt, alloc, b"y"),
        ty: Ty::Int,
    }
}

fn is_y(rt: &impl Abort, alloc: Global, n: i64) -> Field {
    Field {
        name: word(rt, alloc, b"y"),
        ty: Ty::Int,
        term: Term::Int(n),
    }
}

// `module NAME : sig val y : int end = struct val y : int = N end`.
fn module(rt: &impl Abort, alloc: Global, name: &[u8], n: i64) -> Module {
    Module {
        name: word(rt, alloc, name),
        version: Version {
            atoms: one(rt, alloc, Atom::MyName),
        },
        sig: Sig {
            types: Many::new(alloc),
            vals: one(rt, alloc, int_y(rt, alloc)),
        },
        types: Many::new(alloc),
        fields: one(rt, alloc, is_y(rt, alloc, n)),
    }
}

/// The entry of a definition of the program's own.
pub fn entry(def: Def, name: Option<Name>) -> Entry {
    Entry {
        def,
        name,
        seen: Seen::Own,
        link: None,
    }
}

/// The entry of that module, under a name.
pub fn named(rt: &impl Abort, alloc: Global, name: &[u8], n: i64) -> Entry {
    entry(Def::Module(module(rt, alloc, name, n)), Some(Name([7; 32])))
}

/// That module alone.
pub fn alone(rt: &impl Abort, alloc: Global, name: &[u8], n: i64) -> Env {
    let mut env = Env::new(alloc);
    env.push(named(rt, alloc, name, n)).expect(rt, "memory");
    env
}

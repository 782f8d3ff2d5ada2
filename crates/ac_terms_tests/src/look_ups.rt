// What is noted first under a key, and the look-ups of an environment, where memory suffices.

use crate::make::{alone, entry, named, one, text, word};
use ac_index::{Firsts, NamedWord};
use ac_terms::{Def, Entry, Env, Import};
use ac_types::{Constraint, Many, Name, Sig, SigType};
use std::alloc::Global;
use std::process::Abort;

const NAME: Name = Name([7; 32]);

#[test]
fn notes_names(rt: HostRuntime) {
    let mut names = Firsts::<[u8; 32]>::new(rt.alloc());
    names.note(NAME.0, 3).expect(&rt, "memory");
    names.note(NAME.0, 4).expect(&rt, "memory");
    assert!(rt; names.first(&NAME.0) == Some(3));
    names.forget(&NAME.0, 4);
    assert!(rt; names.first(&NAME.0) == Some(3));
    names.forget(&NAME.0, 3);
    assert!(rt; names.first(&NAME.0).is_none());
    drop(names);
}

#[test]
fn notes_a_name_with_a_word(rt: HostRuntime) {
    let word = word(&rt, rt.alloc(), b"t");
    let key = NamedWord::new(&NAME, &word);
    drop(word);
    assert!(rt; key.as_slice().len() == 33 && key.as_slice()[32] == b't');
    let mut keys = Firsts::<Vec<u8>>::new(rt.alloc());
    let bytes = key.to_vec(rt.alloc()).expect(&rt, "memory");
    keys.note(bytes, 5).expect(&rt, "memory");
    assert!(rt; keys.first(key.as_slice()) == Some(5));
    assert!(rt; keys.first(b"t").is_none());
    drop(keys);
}

// `import C : sig type t end` by its exact name.
fn import_of_t(rt: &impl Abort, alloc: Global) -> Entry {
    let shown = SigType {
        name: word(rt, alloc, b"t"),
        manifest: None,
    };
    let import = Import {
        name: word(rt, alloc, b"C"),
        sig: Sig {
            types: one(rt, alloc, shown),
            vals: Many::new(alloc),
        },
        constraint: Constraint::Exact(NAME),
        like: Many::new(alloc),
        by: Many::new(alloc),
    };
    entry(Def::Import(import), Some(NAME))
}

// A module under the name, and the import of its type.
fn sample(rt: &impl Abort, alloc: Global) -> Env {
    let mut env = alone(rt, alloc, b"C", 6);
    env.push(import_of_t(rt, alloc)).expect(rt, "memory");
    env
}

#[test]
fn finds_what_declares_a_type(rt: HostRuntime) {
    let env = sample(&rt, rt.alloc());
    let t = word(&rt, rt.alloc(), b"t");
    let u = word(&rt, rt.alloc(), b"u");
    assert!(rt; env.declaring(&NAME, &t) == Some(1));
    assert!(rt; env.declaring(&NAME, &u).is_none());
    assert!(rt; env.declaring(&Name([8; 32]), &t).is_none());
    drop(u);
    drop(t);
    drop(env);
}

#[test]
fn cuts_entries_off(rt: HostRuntime) {
    let mut env = sample(&rt, rt.alloc());
    let t = word(&rt, rt.alloc(), b"t");
    env.cut(1);
    assert!(rt; env.len() == 1 && env.declaring(&NAME, &t).is_none());
    assert!(rt; env.find(&NAME) == Some(0));
    assert!(rt; env.pop().is_some());
    assert!(rt; env.find(&NAME).is_none());
    let mark = entry(Def::Mark(text(&rt, rt.alloc(), b"MK")), None);
    env.push(mark).expect(&rt, "memory");
    env.push(named(&rt, rt.alloc(), b"C", 6))
        .expect(&rt, "memory");
    assert!(rt; env.find(&NAME) == Some(1));
    drop(t);
    drop(env);
}

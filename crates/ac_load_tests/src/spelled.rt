// Packets that are put together.

use ac_bytes::Out;
use ac_terms::Env;
use ac_types::{Name, Text};
use std::alloc::Global;
use std::process::Abort;

// Of what names are made behind their first letter.
const LETTERS: &[u8; 64] = b"ABCDEFGHIJKLMNOPQRSTUVWXYZabcdefghijklmnopqrstuvwxyz0123456789_'";

/// The packet of unit with so many modules without fields, under the names `AAA`, `AAB` and so on.
pub fn modules(rt: &impl Abort, alloc: Global, many: u16) -> Text {
    let mut out = Out::new(alloc);
    out.put_bytes(b"ACUP\x01").expect(rt, "memory");
    out.put_u16(many).expect(rt, "memory");
    for i in 0..many {
        let name = [
            LETTERS[usize::from(i / 4096)],
            LETTERS[usize::from(i / 64 % 64)],
            LETTERS[usize::from(i % 64)],
        ];
        out.put_bytes(b"\x01\x03").expect(rt, "memory");
        out.put_bytes(&name).expect(rt, "memory");
        out.put_bytes(b"\x01\x02\x00\x00\x00\x00\x00\x00\x00\x00")
            .expect(rt, "memory");
    }
    out.put_bytes(b"\x04\x04").expect(rt, "memory");
    out.into_text()
}

/// The packet of unit with an import of `M1` by exact name.
pub fn imports_by_name(rt: &impl Abort, alloc: Global, name: Name) -> Text {
    let mut out = Out::new(alloc);
    out.put_bytes(b"ACUP\x01\x00\x01\x02\x02M1\x00\x00\x00\x01\x01y\x01\x02")
        .expect(rt, "memory");
    out.put_bytes(name.0.as_slice()).expect(rt, "memory");
    out.put_bytes(b"\x00\x00\x01\x02\x04\x04")
        .expect(rt, "memory");
    out.into_text()
}

/// The name that the first entry keeps, or zeros.
pub fn name_of_first(env: &Env) -> Name {
    match env.entry(0) {
        Some(entry) => entry.name.unwrap_or(Name([0; 32])),
        None => Name([0; 32]),
    }
}

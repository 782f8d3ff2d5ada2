// Structs that don't cover their signatures.

use crate::trees::{ExplainedPart, place_of, spec_at};
use ac_terms::{Def, Field, Module};
use ac_types::{Ty, Word, type_named};
use lens_say::{Message, Owners, write_name, write_two};
use std::alloc::Global;

fn field_named<'a>(fields: &'a [Field], name: &Word) -> Option<&'a Field> {
    for field in fields {
        if field.name.is(name) {
            return Some(field);
        }
    }
    None
}

// A spec of a signature: its name, its type if it has one, and what the struct has under the name.
#[derive(Drop)]
struct Lack<'a> {
    what: &'static [u8],
    name: &'a Word,
    wanted: Option<&'a Ty>,
    found: Option<&'a Ty>,
}

// Spec `k`, of which the types are counted first.
fn lack_of(module: &Module, k: u32) -> Option<Lack<'_>> {
    let k = k as usize;
    let types = &module.sig.types;
    if let Some(spec) = types.get(k) {
        return Some(Lack {
            what: b"type",
            name: &spec.name,
            wanted: spec.manifest.as_ref(),
            found: type_named(module.types.as_slice(), &spec.name),
        });
    }
    let spec = module.sig.vals.get(k.saturating_sub(types.len()))?;
    let found = match field_named(module.fields.as_slice(), &spec.name) {
        Some(field) => Some(&field.ty),
        None => None,
    };
    Some(Lack {
        what: b"value",
        name: &spec.name,
        wanted: Some(&spec.ty),
        found,
    })
}

// Adds what the struct lacks, or has at another type.
fn write_uncovered(message: &mut Message, owners: &Owners<'_>, name: &Word, found: &Lack<'_>) {
    message.why.put(b"the struct of ");
    write_name(&mut message.why, name.text().as_slice());
    match (found.wanted, found.found) {
        (Some(wanted), Some(ty)) => {
            message.why.put(b" has the ");
            message.why.put(found.what);
            message.why.put(b" ");
            write_name(&mut message.why, found.name.text().as_slice());
            message.why.put(b" at another type than its signature");
            write_two(&mut message.more, owners, wanted, ty);
        }
        _ => {
            message.why.put(b" has no ");
            message.why.put(found.what);
            message.why.put(b" ");
            write_name(&mut message.why, found.name.text().as_slice());
        }
    }
}

/// What is said of definition `def`, whose struct doesn't cover spec `k` of its signature.
pub fn why_uncovered(alloc: Global, part: &ExplainedPart<'_>, def: u32, k: u32) -> Option<Message> {
    let tree = part.tree(def)?;
    let Def::Module(module) = &part.entry(def)?.def else {
        return None;
    };
    let found = lack_of(module, k)?;
    let at = match spec_at(tree, k) {
        Some(name) => name.at,
        None => place_of(tree),
    };
    let mut message = Message::new(alloc, at);
    let owners = Owners::new(alloc, part.env);
    write_uncovered(&mut message, &owners, &module.name, &found);
    Some(message)
}

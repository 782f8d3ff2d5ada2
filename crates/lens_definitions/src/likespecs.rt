// Imports that don't say what their abstract types stand for.

use crate::trees::{ExplainedPart, place_of, spec_at};
use ac_terms::Def;
use lens_say::{Message, write_name};
use std::alloc::Global;

/// What is said of definition `def`, an import whose abstract type `k` has no likespec.
pub fn why_like_missing(
    alloc: Global,
    part: &ExplainedPart<'_>,
    def: u32,
    k: u32,
) -> Option<Message> {
    let tree = part.tree(def)?;
    let Def::Import(import) = &part.entry(def)?.def else {
        return None;
    };
    let spec = import.sig.types.get(k as usize)?;
    let at = match spec_at(tree, k) {
        Some(name) => name.at,
        None => place_of(tree),
    };
    let name = spec.name.text().as_slice();
    let mut message = Message::saying(alloc, at, b"the import of ");
    write_name(&mut message.why, import.name.text().as_slice());
    message.why.put(b" doesn't say what its abstract type ");
    write_name(&mut message.why, name);
    message.why.put(b" stands for: write `like struct type ");
    message.why.put(name);
    message.why.put(b" = .. end` behind its constraint");
    Some(message)
}

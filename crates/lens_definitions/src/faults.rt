// Why an import isn't linked to a module.

ghost use Rattle.std.specs.Prelude.{◌+◌, ◌<◌, ◌^◌, length};

use crate::trees::ExplainedPart;
use ac_link::{LinkFault, link_ok};
use ac_terms::{Env, Import, Module};
use ac_text::Page;
use ac_types::limits::MOST_ITEMS;
use ac_types::{Resolve, Text, Ty, Word, spec_named, type_named};
use ac_version::constraint_text;
use lens_say::{Owners, write_fact, write_name};
use std::alloc::Global;

/// Why an import isn't linked to a module.
#[derive(Clone, Copy)]
pub enum Passed {
    /// None of the import's atoms looks at the place of the module.
    Elsewhere,
    /// It can't be linked to it.
    Fault(LinkFault),
    /// It can be linked to it.
    Linked,
}

// Whether an atom looks at a module of the text, or at one of the shelf with this URI.
fn is_looked_at(by: &[Resolve], uri: Option<&Text>) -> bool {
    for atom in by {
        let found = match (atom, uri) {
            (Resolve::StaticLink | Resolve::HereAlready, None) => true,
            (Resolve::Uri(uri), Some(other)) => uri.as_slice() == other.as_slice(),
            _ => false,
        };
        if found {
            return true;
        }
    }
    false
}

// The first condition that fails, of an import with few specs.
fn fault(env: &Env, import: &Import, j: u32) -> Option<LinkFault> {
    let most = MOST_ITEMS as usize;
    if import.sig.types.len() > most || import.sig.vals.len() > most {
        return None;
    }
    match link_ok(env, import, j) {
        Ok(()) => None,
        Err(fault) => Some(fault),
    }
}

/// Why an import isn't linked to entry `j`.
pub fn why_passed(part: &ExplainedPart<'_>, import: &Import, j: u32) -> Passed {
    if let Some(fault) = fault(part.env, import, j) {
        return Passed::Fault(fault);
    }
    if is_looked_at(import.by.as_slice(), part.uri(j)) {
        Passed::Linked
    } else {
        Passed::Elsewhere
    }
}

// A spec of an import's signature: its name, its type if it has one, and whether it is a value.
fn spec(import: &Import, k: u32) -> Option<(&Word, Option<&Ty>, bool)> {
    let k = k as usize;
    if let Some(spec) = import.sig.types.get(k) {
        return Some((&spec.name, spec.manifest.as_ref(), false));
    }
    let spec = import
        .sig
        .vals
        .get(k.saturating_sub(import.sig.types.len()))?;
    Some((&spec.name, Some(&spec.ty), true))
}

// The type of a spec of a module's signature.
fn shown<'a>(module: &'a Module, name: &Word, is_value: bool) -> Option<Option<&'a Ty>> {
    if is_value {
        let ty = type_named(module.sig.vals.as_slice(), name)?;
        return Some(Some(ty));
    }
    let spec = spec_named(module.sig.types.as_slice(), name)?;
    Some(spec.manifest.as_ref())
}

// Adds the type that is wanted of a module, and below it the one that it has.
fn write_both(page: &mut Page, owners: &Owners<'_>, wanted: &Ty, found: &Ty) {
    page.put(b"  ");
    write_fact(page, owners, b"wanted:", wanted);
    page.put(b"  ");
    write_fact(page, owners, b"found: ", found);
}

// Adds what a module's signature lacks.
fn write_spec(page: &mut Page, owners: &Owners<'_>, module: &Module, import: &Import, k: u32) {
    let Some((name, wanted, is_value)) = spec(import, k) else {
        return;
    };
    let what: &[u8] = if is_value { b"value " } else { b"type " };
    match (shown(module, name, is_value), wanted) {
        (Some(Some(found)), Some(wanted)) => {
            page.put(b"its signature has the ");
            page.put(what);
            write_name(page, name.text().as_slice());
            page.put(b" at another type\n");
            write_both(page, owners, wanted, found);
        }
        (Some(None), Some(_)) => {
            page.put(b"its signature has the ");
            page.put(what);
            write_name(page, name.text().as_slice());
            page.put(b" as an abstract one\n");
        }
        (Some(_), None) => {
            page.put(b"its signature has the ");
            page.put(what);
            write_name(page, name.text().as_slice());
            page.put(b" as a manifest one\n");
        }
        (None, _) => {
            page.put(b"its signature has no ");
            page.put(what);
            write_name(page, name.text().as_slice());
            page.put(b"\n");
        }
    }
}

// Adds what a likespec says, and what the module has.
fn write_like(page: &mut Page, owners: &Owners<'_>, module: &Module, import: &Import, k: u32) {
    let Some(spec) = import.sig.types.get(k as usize) else {
        return;
    };
    page.put(b"the likespec of ");
    write_name(page, spec.name.text().as_slice());
    page.put(b" isn't the type in its struct\n");
    let wanted = type_named(import.like.as_slice(), &spec.name);
    let found = type_named(module.types.as_slice(), &spec.name);
    if let (Some(wanted), Some(found)) = (wanted, found) {
        write_both(page, owners, wanted, found);
    }
}

fn write_constraint(alloc: Global, page: &mut Page, import: &Import) {
    match constraint_text(alloc, &import.constraint) {
        Ok(text) => page.put(text.as_slice()),
        Err(_) => page.lose(),
    }
}

/// Adds why an import isn't linked to a module, and ends the line.
pub fn write_passed(
    alloc: Global,
    page: &mut Page,
    owners: &Owners<'_>,
    module: &Module,
    import: &Import,
    passed: Passed,
) {
    match passed {
        Passed::Elsewhere => page.put(b"the import doesn't look there\n"),
        Passed::Linked => page.put(b"it serves\n"),
        Passed::Fault(LinkFault::Kind) => page.put(b"it is no module\n"),
        Passed::Fault(LinkFault::External) => page.put(b"it is called otherwise\n"),
        Passed::Fault(LinkFault::Version) => {
            page.put(b"its version doesn't meet ");
            write_constraint(alloc, page, import);
            page.put(b"\n");
        }
        Passed::Fault(LinkFault::Signature { spec }) => {
            write_spec(page, owners, module, import, spec);
        }
        Passed::Fault(LinkFault::Like { spec }) => write_like(page, owners, module, import, spec),
        Passed::Fault(LinkFault::Name) => page.put(b"it hasn't the name that is asked for\n"),
    }
}

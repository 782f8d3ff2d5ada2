// The names that are spelled nearly as another one.

use ac_types::{Many, Memory};
use std::alloc::Global;
use strsim::generic_levenshtein;

// So many names are looked at, so many are told, and so many edits lead to one at the most.
const LOOKED_AT: usize = 400;

const TOLD: usize = 3;

const MOST_EDITS: usize = 3;

// How many edits may lead to another name from one of this length.
fn most_edits(len: usize) -> usize {
    (len / 2).min(MOST_EDITS)
}

// How many edits lead from one name to another, where the lengths allow it to be so few.
fn edits(alloc: Global, a: &[u8], b: &[u8], most: usize) -> Result<Option<usize>, Memory> {
    if a.len().abs_diff(b.len()) > most {
        return Ok(None);
    }
    Ok(Some(generic_levenshtein(alloc, a, b)?))
}

fn has(names: &Many<&[u8]>, name: &[u8]) -> bool {
    for other in names.as_slice() {
        if *other == name {
            return true;
        }
    }
    false
}

// Adds the names to which exactly so many edits lead, each once.
fn add_at<'a>(
    alloc: Global,
    found: &mut Many<&'a [u8]>,
    names: &[&'a [u8]],
    name: &[u8],
    count: usize,
) -> Result<(), Memory> {
    for other in names {
        if found.len() >= TOLD {
            return Ok(());
        }
        if edits(alloc, other, name, count)? == Some(count) && !has(found, other) {
            found.push(*other)?;
        }
    }
    Ok(())
}

/// The names that are nearest to one, a few at the most, the nearest first, and of equals the first
/// of the list. A name that differs much isn't told.
pub fn nearest<'a>(
    alloc: Global,
    names: &[&'a [u8]],
    name: &[u8],
) -> Result<Many<&'a [u8]>, Memory> {
    let looked_at = &names[..names.len().min(LOOKED_AT)];
    let mut found = Many::new(alloc);
    for count in 1..=most_edits(name.len()) {
        add_at(alloc, &mut found, looked_at, name, count)?;
    }
    Ok(found)
}

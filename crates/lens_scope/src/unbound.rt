// What is said of a name that isn't in scope.

use crate::aliases::alias_at;
use crate::ground::Ground;
use crate::habits::habit;
use crate::members::Members;
use crate::near::nearest;
use ac_text::Page;
use ac_types::{Many, Memory};
use lens_say::{Message, name_at, write_name};
use std::alloc::Global;

// So many names are listed.
const LISTED: usize = 12;

fn is_blank(byte: u8) -> bool {
    matches!(byte, b' ' | b'\t' | b'\r' | b'\n')
}

fn is_part(byte: u8) -> bool {
    matches!(byte, b'a'..=b'z' | b'A'..=b'Z' | b'0'..=b'9' | b'_' | b'\'')
}

// The bytes without the blanks at their end.
fn trimmed(bytes: &[u8]) -> &[u8] {
    let mut front = bytes;
    for _ in 0..bytes.len() {
        match front {
            [rest @ .., last] if is_blank(*last) => front = rest,
            _ => return front,
        }
    }
    front
}

// The letters and digits at the end of some bytes.
fn last_word(bytes: &[u8]) -> &[u8] {
    for i in 0..bytes.len() {
        if !is_part(bytes[bytes.len() - 1 - i]) {
            return &bytes[bytes.len() - i..];
        }
    }
    bytes
}

// The name of a module that stands in front of a dot at the end of some bytes.
fn owner_in_front(front: &[u8]) -> Option<&[u8]> {
    match trimmed(front) {
        [rest @ .., b'.'] => {
            let owner = last_word(trimmed(rest));
            if owner.is_empty() { None } else { Some(owner) }
        }
        _ => None,
    }
}

fn is_upper(name: &[u8]) -> bool {
    matches!(name, [b'A'..=b'Z', ..])
}

// Adds a name, behind its owner and a dot where it has one.
fn write_owned(page: &mut Page, owner: Option<&[u8]>, name: &[u8]) {
    page.put(b"`");
    if let Some(owner) = owner {
        page.put(owner);
        page.put(b".");
    }
    page.put(name);
    page.put(b"`");
}

// Adds a question for the names that are near.
fn write_near(page: &mut Page, owner: Option<&[u8]>, names: &[&[u8]]) {
    let mut between: &[u8] = b": did you mean ";
    for name in names {
        page.put(between);
        write_owned(page, owner, name);
        between = b" or ";
    }
    if !names.is_empty() {
        page.put(b"?");
    }
}

fn has(names: &[&[u8]], name: &[u8]) -> bool {
    for other in names {
        if *other == name {
            return true;
        }
    }
    false
}

// Adds a line with the names behind an owner's dot.
fn write_list(page: &mut Page, what: &[u8], owner: &[u8], names: &[&[u8]]) {
    let mut between: &[u8] = what;
    for name in &names[..names.len().min(LISTED)] {
        page.put(between);
        write_owned(page, Some(owner), name);
        between = b", ";
    }
    if names.len() > LISTED {
        page.put(b", ..");
    }
    if !names.is_empty() {
        page.put(b"\n");
    }
}

fn joined<'a>(
    alloc: Global,
    first: &Many<&'a [u8]>,
    second: &Many<&'a [u8]>,
) -> Result<Many<&'a [u8]>, Memory> {
    let mut all = Many::from_slice(alloc, first.as_slice())?;
    for name in second.as_slice() {
        all.push(*name)?;
    }
    Ok(all)
}

// What is said of a name behind an owner's dot that the owner doesn't show.
fn why_not_shown(
    alloc: Global,
    at: u32,
    owner: &[u8],
    name: &[u8],
    members: &Members<'_>,
) -> Result<Message, Memory> {
    let mut message = Message::new(alloc, at);
    write_owned(&mut message.why, Some(owner), name);
    message.why.put(b" isn't in scope");
    let is_inner = has(members.inner_values.as_slice(), name)
        || has(members.inner_types.as_slice(), name);
    if is_inner {
        message
            .why
            .put(b": its struct has it, its signature doesn't show it");
        return Ok(message);
    }
    let all = joined(alloc, &members.values, &members.types)?;
    let near = nearest(alloc, all.as_slice(), name)?;
    write_near(&mut message.why, Some(owner), near.as_slice());
    let what = b"  values: ";
    write_list(&mut message.more, what, owner, members.values.as_slice());
    let what = b"  types: ";
    write_list(&mut message.more, what, owner, members.types.as_slice());
    Ok(message)
}

// The name behind a module's name at a place and its dot.
fn name_behind<'t>(text: &'t [u8], at: u32, owner: &[u8]) -> &'t [u8] {
    let behind = (at as usize).saturating_add(owner.len()).saturating_add(1);
    match text.get(behind..) {
        None => b"",
        Some(rest) => name_at(rest, 0),
    }
}

// What is said of the name of a module that isn't in scope.
fn why_no_module(
    alloc: Global,
    text: &[u8],
    ground: &Ground<'_>,
    at: u32,
    name: &[u8],
) -> Result<Message, Memory> {
    let mut message = Message::new(alloc, at);
    write_name(&mut message.why, name);
    message.why.put(b" isn't in scope");
    if ground.is_in(at, name) {
        message
            .why
            .put(b" in its own struct: write the plain name ");
        write_name(&mut message.why, name_behind(text, at, name));
        return Ok(message);
    }
    if let Some(said) = habit(name) {
        message.why.put(b": ");
        message.why.put(said);
        return Ok(message);
    }
    let modules = ground.modules(alloc, at)?;
    let near = nearest(alloc, modules.as_slice(), name)?;
    write_near(&mut message.why, None, near.as_slice());
    Ok(message)
}

// What is said of a name that stands directly behind the digits of a number.
fn why_behind_digits(alloc: Global, at: u32, digits: &[u8], name: &[u8]) -> Message {
    let mut message = Message::saying(alloc, at, b"`");
    message.why.put(digits);
    message.why.put(name);
    message
        .why
        .put(b"` is no number: an int has decimal digits alone");
    message
}

// What is said of a type that is defined by itself.
fn why_recursive(alloc: Global, at: u32, name: &[u8]) -> Message {
    let mut message = Message::new(alloc, at);
    write_name(&mut message.why, name);
    message.why.put(b" isn't in scope in its own definition: there are no recursive types");
    message
}

fn is_recursive(ground: &Ground<'_>, at: u32, name: &[u8]) -> bool {
    match ground.def_at(at) {
        None => false,
        Some(def) => match alias_at(def, at) {
            None => false,
            Some(alias) => alias.ty.at <= at && alias.name.word.text().as_slice() == name,
        },
    }
}

// What is said of another plain name.
fn why_plain(alloc: Global, ground: &Ground<'_>, at: u32, name: &[u8]) -> Result<Message, Memory> {
    let mut message = Message::new(alloc, at);
    write_name(&mut message.why, name);
    message.why.put(b" isn't in scope");
    if let Some(said) = habit(name) {
        message.why.put(b": ");
        message.why.put(said);
        return Ok(message);
    }
    let owners = ground.owners(alloc, at, name)?;
    if let Some(owner) = owners.get(0) {
        write_near(&mut message.why, Some(owner), &[name]);
        return Ok(message);
    }
    let values = ground.values(alloc, at)?;
    let types = ground.types(alloc, at)?;
    let all = joined(alloc, &values, &types)?;
    let near = nearest(alloc, all.as_slice(), name)?;
    write_near(&mut message.why, None, near.as_slice());
    Ok(message)
}

/// What is said of the name at a place, which isn't in scope there: whose it is, and which names are
/// nearest.
pub fn why_unbound(
    alloc: Global,
    text: &[u8],
    ground: &Ground<'_>,
    at: u32,
) -> Result<Message, Memory> {
    let name = name_at(text, at);
    let front = &text[..(at as usize).min(text.len())];
    if is_upper(name) {
        return why_no_module(alloc, text, ground, at, name);
    }
    if let Some(owner) = owner_in_front(front) {
        return match ground.members(alloc, at, owner)? {
            None => why_no_module(alloc, text, ground, at, owner),
            Some(members) => why_not_shown(alloc, at, owner, name, &members),
        };
    }
    let before = last_word(front);
    if matches!(before, [b'0'..=b'9', ..]) {
        return Ok(why_behind_digits(alloc, at, before, name));
    }
    if is_recursive(ground, at, name) {
        return Ok(why_recursive(alloc, at, name));
    }
    why_plain(alloc, ground, at, name)
}

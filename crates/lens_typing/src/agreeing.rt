// Types of parts, beside those that are wanted.

use crate::untyped::Typed;
use ac_types::{Ty, same_types};
use lens_say::{Message, Owners, write_two};
use std::alloc::Global;

/// What is said of a part that has another type than is wanted, `None` where it has that one.
pub fn another(
    alloc: Global,
    owners: &Owners<'_>,
    part: &Typed,
    asked: &[u8],
    ty: &Ty,
) -> Option<Message> {
    if same_types(&part.ty, ty) {
        return None;
    }
    let mut message = Message::saying(alloc, part.at, asked);
    write_two(&mut message.more, owners, ty, &part.ty);
    Some(message)
}

/// The first part that has another type.
pub fn first_other<'t>(parts: &'t [Typed], ty: &Ty) -> Option<&'t Typed> {
    for part in parts {
        if !same_types(&part.ty, ty) {
            return Some(part);
        }
    }
    None
}

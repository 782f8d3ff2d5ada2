// Why a text is refused.

ghost use Rattle.std.specs.Prelude.{◌<◌, ◌^◌, length};

use crate::ahead::{Elaborated, EntriesAhead};
use ac_load::{Kind, ShelfEntry};
use ac_syntax::{ParseFault, Surface};
use ac_types::Memory;
use ac_types::limits::{LONGEST_TEXT, MOST_ENTRIES, MOST_OPENERS};
use lens_definitions::{
    ExplainedPart, name_of_tree, why_like_missing, why_not_valuable, why_too_many, why_uncovered,
    why_unresolved,
};
use lens_hints::{Grammar, why_lexical, why_syntax};
use lens_say::{Message, name_at, write_name};
use lens_scope::{Ground, why_unbound};
use lens_typing::why_ill_typed;
use std::alloc::Global;

// So many entries are spoken of at the most.
const MOST_SPOKEN_OF: usize = 2 * MOST_ENTRIES;

/// A text that is refused: by what it was to be, and the texts of the shelf in front of it.
#[derive(Clone, Copy)]
pub struct Subject<'a> {
    /// What it was to be.
    pub grammar: Grammar,
    /// The text.
    pub text: &'a [u8],
    /// The texts in front of it.
    pub shelf: &'a [ShelfEntry],
}

fn why_too_long(alloc: Global) -> Message {
    let at = u32::try_from(LONGEST_TEXT).unwrap_or(0);
    let mut message = Message::saying(alloc, at, b"a text has at most ");
    message.why.number(LONGEST_TEXT as u64);
    message
        .why
        .put(b" bytes: modules that don't change can stand on a shelf");
    message
}

fn why_too_deep(alloc: Global, at: u32) -> Message {
    let mut message = Message::saying(alloc, at, b"more than ");
    message.why.number(u64::from(MOST_OPENERS));
    message
        .why
        .put(b" parts are open here: name one by a `let`");
    message
}

fn why_repeated(alloc: Global, text: &[u8], at: u32) -> Message {
    let mut message = Message::new(alloc, at);
    let name = name_at(text, at);
    match name {
        b"" => message.why.put(b"two marks have this name"),
        b"IO" | b"Str" => {
            write_name(&mut message.why, name);
            message
                .why
                .put(b" is the name of a standard module: give another one");
        }
        _ => {
            write_name(&mut message.why, name);
            message.why.put(b" stands twice where it may once");
        }
    }
    message
}

// What is said of a definition with the name of another one, and another text.
fn why_clash(alloc: Global, part: &ExplainedPart<'_>, second: u32) -> Message {
    let at = match part.tree_of_entry(second).and_then(name_of_tree) {
        Some(name) => name.at,
        None => 0,
    };
    Message::saying(
        alloc,
        at,
        b"this definition has the name of another one, and another text",
    )
}

// What is said of entries that are refused.
fn why_entries(
    alloc: Global,
    part: &ExplainedPart<'_>,
    elaborated: &Elaborated,
    kind: Kind,
) -> Result<Option<Message>, Memory>
    requires { length part.now.env.now.entries < 2 ^ 32 }
{
    match kind {
        Kind::IllTyped { def } => why_ill_typed(
            alloc,
            part.env,
            part.front,
            part.surface,
            &elaborated.main,
            def,
        ),
        Kind::Signature { def, spec } => Ok(why_uncovered(alloc, part, def, spec)),
        Kind::NotValuable { def, field } => Ok(why_not_valuable(alloc, part, def, field)),
        Kind::LikeMissing { def, spec } => Ok(why_like_missing(alloc, part, def, spec)),
        Kind::Unresolved { def } => Ok(why_unresolved(alloc, part, def)),
        Kind::Clash { first: _, second } => Ok(Some(why_clash(alloc, part, second))),
        _ => Ok(None),
    }
}

// What is said of a text whose names are in scope.
fn why_elaborated(
    alloc: Global,
    subject: &Subject<'_>,
    surface: &Surface,
    ahead: EntriesAhead,
    kind: Kind,
) -> Result<Option<Message>, Memory> {
    let front = ahead.env.len();
    let Some(elaborated) = ahead.with(alloc, surface)? else {
        return Ok(None);
    };
    let env = &elaborated.ahead.env;
    if front > MOST_ENTRIES || env.len() > MOST_SPOKEN_OF {
        return Ok(None);
    }
    let part = ExplainedPart {
        text: subject.text,
        surface,
        env,
        shelf: subject.shelf,
        front: front as u32,
    };
    why_entries(alloc, &part, &elaborated, kind)
}

// What is said of a text that has a tree.
fn why_with_tree(
    alloc: Global,
    subject: &Subject<'_>,
    surface: &Surface,
    kind: Kind,
) -> Result<Option<Message>, Memory> {
    let Some(ahead) = EntriesAhead::of_shelf(alloc, subject.shelf)? else {
        return Ok(None);
    };
    match kind {
        Kind::Unbound { at } => {
            let ground = Ground::new(surface, ahead.env.entries());
            why_unbound(alloc, subject.text, &ground, at).map(Some)
        }
        Kind::TooMany { count } => {
            why_too_many(alloc, surface, ahead.env.entries(), count).map(Some)
        }
        _ => why_elaborated(alloc, subject, surface, ahead, kind),
    }
}

// What is said of a text whose tokens have a tree.
fn why_beyond_syntax(
    alloc: Global,
    subject: &Subject<'_>,
    kind: Kind,
) -> Result<Option<Message>, Memory> {
    let surface = match subject.grammar.parse(alloc, subject.text) {
        Ok(surface) => surface,
        Err(ParseFault::Memory) => return Err(Memory),
        Err(_) => return Ok(None),
    };
    let message = why_with_tree(alloc, subject, &surface, kind);
    drop(surface);
    message
}

/// What is said of a text that is refused as this kind.
pub fn why(alloc: Global, subject: &Subject<'_>, kind: Kind) -> Result<Message, Memory> {
    match kind {
        Kind::Memory => Err(Memory),
        Kind::TooLong { len: _ } => Ok(why_too_long(alloc)),
        Kind::TooDeep { at } => Ok(why_too_deep(alloc, at)),
        Kind::Lexical { at } => Ok(why_lexical(alloc, subject.text, at)),
        Kind::Syntax { at } => why_syntax(alloc, subject.grammar, subject.text, at),
        Kind::Repeated { at } => Ok(why_repeated(alloc, subject.text, at)),
        _ => match why_beyond_syntax(alloc, subject, kind)? {
            Some(message) => Ok(message),
            None => Ok(Message::saying(alloc, 0, b"this text is refused")),
        },
    }
}

// A line as a term.

use crate::site::{text, word};
use crate::types::{NAME, OTHER};
use ac_table_pile::Pile;
use ac_terms::{Home, PVal, Term};
use ac_types::{ExnKind, Name, Primitive};
use std::alloc::Global;

/// The term that a line writes: its forms are taken from the end on, each with its parts on the
/// pile.
pub fn read(alloc: Global, line: &str) -> Option<Term> {
    let mut pile = Pile::new(alloc);
    for piece in line.rsplit(' ') {
        take(&mut pile, piece)?;
    }
    pile.terms.pop()
}

fn take(pile: &mut Pile, piece: &str) -> Option<()> {
    if let Some(number) = number_of(piece) {
        return pile.numbers.push(number).ok();
    }
    let form = whole(pile, piece)?;
    pile.take(form)
}

// The form that a piece stands for, whose parts that no line writes go onto the pile.
fn whole<'a>(pile: &mut Pile, piece: &'a str) -> Option<&'a str> {
    match piece {
        "Str" | "pstr" => {
            let text = text(pile.alloc).ok()?;
            pile.texts.push(text).ok()?;
            Some(piece)
        }
        "Ref" => {
            let word = word(pile.alloc).ok()?;
            pile.words.push(word).ok()?;
            Some(piece)
        }
        "abstract" => named(pile, NAME),
        "imported" => named(pile, OTHER),
        "Val" => {
            let number = pile.numbers.pop()?;
            pile.values.push(PVal::Int(number)).ok()?;
            Some(piece)
        }
        "Carried" => function(pile, 0),
        "Foreign" => function(pile, 1),
        _ => Some(piece),
    }
}

// An abstract type of that name.
fn named(pile: &mut Pile, name: Name) -> Option<&'static str> {
    let word = word(pile.alloc).ok()?;
    pile.names.push(name).ok()?;
    pile.words.push(word).ok()?;
    Some("abs")
}

// A captured function of that definition.
fn function(pile: &mut Pile, home: u32) -> Option<&'static str> {
    let lambda = pile.boxed_term()?;
    pile.values.push(PVal::Fun(Home::In(home), lambda)).ok()?;
    Some("Val")
}

// A number, or that of the primitive or exception of this name.
fn number_of(piece: &str) -> Option<i64> {
    if let Ok(number) = piece.parse::<i64>() {
        return Some(number);
    }
    let name = piece.as_bytes();
    if let Some(primitive) = Primitive::from_name(name) {
        return Some(i64::from(primitive.number()));
    }
    let kind = ExnKind::from_name(name)?;
    Some(i64::from(kind.number()))
}

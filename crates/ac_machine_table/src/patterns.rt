// Patterns by their names in the table.

use ac_terms::Pat;
use ac_types::{BareExn, Boxed, Many, Memory, Text, TextExn, Ty, both};
use std::alloc::Global;

fn pair(alloc: Global, a: Pat, b: Pat) -> Result<Pat, Memory> {
    let mut parts = Many::new(alloc);
    parts.push(a)?;
    parts.push(b)?;
    Ok(Pat::Tuple(parts))
}

fn larger(alloc: Global, name: &str) -> Result<Pat, Memory> {
    match name {
        "Some:1" => Boxed::new(alloc, Pat::Int(1)).map(Pat::Present),
        "1::[]" => both(Boxed::new(alloc, Pat::Int(1)), Boxed::new(alloc, Pat::Nil)).map(|(
            head,
            tail,
        )| Pat::Cons(head, tail)),
        "1;false" => pair(alloc, Pat::Int(1), Pat::Bool(false)),
        "x;y" => pair(alloc, Pat::Var(Ty::Int), Pat::Var(Ty::Int)),
        "Failure:s" => {
            Boxed::new(alloc, Pat::Var(Ty::Str)).map(|text| Pat::ExnOf(TextExn::Failure, text))
        }
        "\"s\"" => Text::from_slice(alloc, b"s").map(Pat::Str),
        _ => Ok(Pat::Wild),
    }
}

/// The pattern of that name.
pub fn pattern(alloc: Global, name: &str) -> Result<Pat, Memory> {
    match name {
        "()" => Ok(Pat::Unit),
        "[]" => Ok(Pat::Nil),
        "None" => Ok(Pat::Absent),
        "true" => Ok(Pat::Bool(true)),
        "1" => Ok(Pat::Int(1)),
        "Not_found" => Ok(Pat::Exn(BareExn::NotFound)),
        "Match_failure" => Ok(Pat::Exn(BareExn::MatchFailure)),
        _ => larger(alloc, name),
    }
}

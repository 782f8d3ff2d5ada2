// Terms and packed values: the form, the numbers and types that stand in front, the parts.

use crate::patterns::write_pattern;
use crate::sheet::Sheet;
use crate::types::write_type;
use ac_terms::{Arm, Home, PVal, Term};
use ac_types::Exn;

fn form(term: &Term) -> &'static [u8] {
    match term {
        Term::ExnOf(exn, _) => exn.name(),
        Term::Prim(primitive, _) => primitive.name(),
        Term::Tuple(_) => b"tuple",
        Term::Nil(_) => b"[]",
        Term::Empty(_) => b"None",
        Term::Present(_) => b"Some",
        Term::Cons(_, _) => b"::",
        Term::Var(_) => b"var",
        Term::Own(_) => b"own",
        Term::Ref(_, _) => b"ref",
        term => word(term),
    }
}

fn word(term: &Term) -> &'static [u8] {
    match term {
        Term::Lam(_, _) => b"fun",
        Term::Rec(_, _, _) => b"rec",
        Term::App(_, _) => b"app",
        Term::Let(_, _, _) => b"let",
        Term::If(_, _, _) => b"if",
        Term::Seq(_) => b";",
        Term::Match(_, _) => b"match",
        Term::Try(_, _) => b"try",
        Term::Raise(_, _) => b"raise",
        Term::Marshal(_, _, _) => b"marshal",
        Term::Unmarshal(_, _) => b"unmarshal",
        Term::Val(_, _) => b"captured",
        _ => b"?",
    }
}

// What stands in front of the parts.
fn front(sheet: &mut Sheet, term: &Term) {
    match term {
        Term::Var(number) | Term::Own(number) => sheet.number(i64::from(*number)),
        Term::Ref(number, word) => {
            sheet.number(i64::from(*number));
            sheet.word(word);
        }
        Term::Nil(ty)
        | Term::Empty(ty)
        | Term::Lam(ty, _)
        | Term::Let(ty, _, _)
        | Term::Raise(ty, _)
        | Term::Marshal(ty, _, _)
        | Term::Unmarshal(ty, _)
        | Term::Val(ty, _) => write_type(sheet, ty),
        Term::Rec(from, to, _) => {
            write_type(sheet, from);
            write_type(sheet, to);
        }
        _ => {}
    }
}

/// Adds a term.
#[cycle(terms)]
pub fn write_term(sheet: &mut Sheet, term: &Term) {
    match term {
        Term::Int(number) => sheet.number(*number),
        Term::Bool(true) => sheet.leaf(b"true"),
        Term::Bool(false) => sheet.leaf(b"false"),
        Term::Str(text) => sheet.string(text),
        Term::Unit => sheet.leaf(b"()"),
        Term::ExnVal(exn) => sheet.leaf(exn.name()),
        term => {
            sheet.open(form(term));
            front(sheet, term);
            write_parts(sheet, term);
            sheet.close();
        }
    }
}

#[cycle(terms)]
fn write_parts(sheet: &mut Sheet, term: &Term) {
    match term {
        Term::ExnOf(_, part)
        | Term::Present(part)
        | Term::Lam(_, part)
        | Term::Rec(_, _, part)
        | Term::Raise(_, part)
        | Term::Unmarshal(_, part) => write_term(sheet, part),
        Term::Cons(first, second)
        | Term::App(first, second)
        | Term::Let(_, first, second)
        | Term::Marshal(_, first, second) => {
            write_term(sheet, first);
            write_term(sheet, second);
        }
        Term::If(test, so, otherwise) => {
            write_term(sheet, test);
            write_term(sheet, so);
            write_term(sheet, otherwise);
        }
        Term::Tuple(parts) | Term::Seq(parts) | Term::Prim(_, parts) => {
            write_terms(sheet, parts.as_slice());
        }
        Term::Match(of, arms) | Term::Try(of, arms) => {
            write_term(sheet, of);
            write_arms(sheet, arms.as_slice());
        }
        Term::Val(_, value) => write_value(sheet, value),
        _ => {}
    }
}

#[cycle(terms)]
fn write_terms(sheet: &mut Sheet, terms: &[Term]) {
    for term in terms {
        write_term(sheet, term);
    }
}

#[cycle(terms)]
fn write_arms(sheet: &mut Sheet, arms: &[Arm]) {
    for arm in arms {
        write_pattern(sheet, &arm.pat);
        write_term(sheet, &arm.body);
    }
}

fn write_exn(sheet: &mut Sheet, exn: &Exn) {
    match exn {
        Exn::Bare(exn) => sheet.leaf(exn.name()),
        Exn::Text(exn, text) => {
            sheet.open(exn.name());
            sheet.string(text);
            sheet.close();
        }
    }
}

fn write_home(sheet: &mut Sheet, home: Home) {
    match home {
        Home::Main => sheet.leaf(b"main"),
        Home::In(number) => sheet.number(i64::from(number)),
    }
}

/// Adds a packed value.
#[cycle(terms)]
pub fn write_value(sheet: &mut Sheet, value: &PVal) {
    match value {
        PVal::Int(number) => sheet.number(*number),
        PVal::Bool(true) => sheet.leaf(b"true"),
        PVal::Bool(false) => sheet.leaf(b"false"),
        PVal::Str(text) => sheet.string(text),
        PVal::Unit => sheet.leaf(b"()"),
        PVal::Exn(exn) => write_exn(sheet, exn),
        PVal::Absent => sheet.leaf(b"None"),
        value => write_whole(sheet, value),
    }
}

// A value with parts.
#[cycle(terms)]
fn write_whole(sheet: &mut Sheet, value: &PVal) {
    match value {
        PVal::Tuple(parts) => write_values(sheet, b"tuple", parts.as_slice()),
        PVal::List(items) => write_values(sheet, b"list", items.as_slice()),
        PVal::Present(item) => {
            sheet.open(b"Some");
            write_value(sheet, item);
            sheet.close();
        }
        PVal::Fun(home, term) => {
            sheet.open(b"function");
            write_home(sheet, *home);
            write_term(sheet, term);
            sheet.close();
        }
        _ => {}
    }
}

#[cycle(terms)]
fn write_values(sheet: &mut Sheet, form: &[u8], values: &[PVal]) {
    sheet.open(form);
    for value in values {
        write_value(sheet, value);
    }
    sheet.close();
}

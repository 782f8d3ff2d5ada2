// Texts, and behind `~` the form of their pattern and how many signs are left behind it; `!` with
// the signs left where there is none.

use crate::rows::{Reader, check_rows};
use ac_lexer::{Token, lex};
use ac_parser_patterns::pattern;
use ac_syntax::{ParseError, SPatKind, Sign, signs};
use ac_text::Page;
use ac_types::{BareExn, TextExn};
use std::alloc::Global;
use std::process::Abort;

const PATTERNS: &str = r#"_~wild 0
(x : int)~var 0
12 13~int 1
-12~int 0
- x~!1
"abc"~str 0
true~bool 0
()~unit 0
[]~nil 0
[ 1~!1
None~none 0
Not_found~exn2 0
Failure _~exn0 of 0
Some (_)~some 0
Some Some _~!2
_ :: _ :: []~cons 0
Some _ :: []~cons 0
(_)~wild 0
(_, 1, "a")~tuple 0
(_, )~!1
(_ _)~!2
x~!1"#;

fn form(kind: &SPatKind) -> &'static str {
    match kind {
        SPatKind::Wild => "wild",
        SPatKind::Var(_, _) => "var",
        SPatKind::Int(_) => "int",
        SPatKind::Bool(_) => "bool",
        SPatKind::Str(_) => "str",
        SPatKind::Unit => "unit",
        SPatKind::Tuple(_) => "tuple",
        SPatKind::Nil => "nil",
        SPatKind::Cons(_, _) => "cons",
        SPatKind::Absent => "none",
        SPatKind::Present(_) => "some",
        SPatKind::Exn(BareExn::NotFound) => "exn2",
        SPatKind::ExnOf(TextExn::Failure, _) => "exn0 of",
        SPatKind::Exn(_) | SPatKind::ExnOf(_, _) => "exn",
    }
}

fn write_pattern(alloc: Global, page: &mut Page, signs: &[Sign<'_>]) {
    match pattern(alloc, signs) {
        Ok((p, rest)) => {
            page.put(form(&p.kind).as_bytes());
            page.put(b" ");
            page.number(rest.len() as u64);
        }
        Err(ParseError::Memory) => page.lose(),
        Err(ParseError::Syntax(left)) => {
            page.put(b"!");
            page.number(left as u64);
        }
    }
}

fn write_tokens(alloc: Global, page: &mut Page, tokens: &[Token]) {
    match signs(alloc, tokens) {
        Ok(signs) => write_pattern(alloc, page, signs.as_slice()),
        Err(_) => page.lose(),
    }
}

struct PatternReader;

impl Reader for PatternReader {
    fn read(rt: &impl Abort, alloc: Global, text: &str) -> Page {
        let mut page = Page::new(alloc);
        let tokens = lex(alloc, text.as_bytes()).expect(rt, "tokens");
        write_tokens(alloc, &mut page, tokens.as_slice());
        page
    }
}

#[test]
fn texts_and_their_patterns(rt: HostRuntime) {
    check_rows::<PatternReader>(&rt, rt.alloc(), PATTERNS);
}

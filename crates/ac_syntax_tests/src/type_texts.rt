// Types and signatures as texts: each node in parentheses with its place behind `@`, then the
// number of the token after it; `!` with a place where the text begins with none.

use crate::rows::{Reader, check_rows};
use ac_lexer::{Token, lex};
use ac_syntax::{ParseFault, SName, SSig, SSpec, SType, STypeKind, deep, parse_sig, parse_type};
use ac_text::Page;
use ac_types::{Many, Text};
use std::alloc::Global;
use std::process::Abort;

// Texts, and behind `~` what stands there.
const TYPES: &str = "\
int * t list -> M.u~(->@0 (*@0 int@0 (list@6 t@6)) (.@16 M@16 u@18)) 8
int~int@0 1
bool~bool@0 1
string~string@0 1
unit~unit@0 1
exn~exn@0 1
  t'~t'@2 1
M . t~(.@0 M@0 t@4) 3
int list~(list@0 int@0) 2
int option~(option@0 int@0) 2
t list option list~(list@0 (option@0 (list@0 t@0))) 4
M.t list~(list@0 (.@0 M@0 t@2)) 4
int * int~(*@0 int@0 int@6) 3
a * b * c~(*@0 a@0 b@4 c@8) 5
(a * b) * c~(*@0 (*@1 a@1 b@5) c@10) 7
a * (b * c)~(*@0 a@0 (*@5 b@5 c@9)) 7
a list * b option~(*@0 (list@0 a@0) (option@9 b@9)) 5
a * b list~(*@0 a@0 (list@4 b@4)) 4
(a * b) list~(list@0 (*@1 a@1 b@5)) 6
a -> b~(->@0 a@0 b@5) 3
a -> b -> c~(->@0 a@0 (->@5 b@5 c@10)) 5
(a -> b) -> c~(->@0 (->@1 a@1 b@6) c@12) 7
a -> (b -> c)~(->@0 a@0 (->@6 b@6 c@11)) 7
a * b -> c~(->@0 (*@0 a@0 b@4) c@9) 5
a -> b * c~(->@0 a@0 (*@5 b@5 c@9)) 5
a * (b -> c)~(*@0 a@0 (->@5 b@5 c@10)) 7
a -> b list~(->@0 a@0 (list@5 b@5)) 4
(a -> b) list~(list@0 (->@1 a@1 b@6)) 6
(int)~int@1 3
((int)) list~(list@0 int@2) 6
int, int~int@0 1
int -> t)~(->@0 int@0 t@7) 3
int t~int@0 1
t.u~t@0 1
~!0
int *~!4
* int~!0
int * * int~!6
int ->~!4
-> int~!0
int -> -> int~!7
int -> * int~!7
int * -> int~!6
list~!0
list int~!0
int * list~!6
()~!1
(int~!1
(int]~!4
(int, int)~!4
)~!0
[int]~!0
M~!0
M.~!0
M.N.t~!0
M.int~!0";

// Texts, the token at which to begin, and what stands there.
const TYPES_BEHIND: [(&[u8], u32, &[u8]); 4] = [
    (b"x : int * t = 5", 2, b"(*@4 int@4 t@10) 5"),
    (b"int", 1, b"!0"),
    (b"int", 4294967295, b"!0"),
    (b"5 \"a\" _ rec", 3, b"!8"),
];

const SIGNATURES: &str = "\
sig end~(sig@0) 2
sig type t end~(sig@0 type t@9) 4
sig type t = int list end~(sig@0 type t@9 = (list@13 int@13)) 7
sig val x : int end~(sig@0 val x@8 : int@12) 6
sig val f : t -> M.u type t type u = t * t val y : u end~(sig@0 val f@8 : (->@12 t@12 (.@17 M@17 u@19)) type t@26 type u@33 = (*@37 t@37 t@41) val y@47 : u@51) 22
sig val x : int val x : bool end~(sig@0 val x@8 : int@12 val x@20 : bool@24) 10
sig end end~(sig@0) 2
~!0
sig~!0
end~!0
struct end~!0
sig type end~!9
sig type T end~!9
sig type t = end~!13
sig type t : int end~!11
sig type t~!9
sig x : int end~!4
sig val x int end~!10
sig val x = int end~!10
sig val : int end~!8
sig val x : end~!12
sig val x : int, val y : int end~!15
sig sig end end~!4";

const SIGNATURES_BEHIND: [(&[u8], u32, &[u8]); 3] = [
    (b"module M : sig end = struct end", 3, b"(sig@11) 5"),
    (b"sig end", 1, b"!4"),
    (b"sig end", 2, b"!4"),
];

// Texts of pieces, each behind how many times it stands there, and behind `~` the number of the
// token after the type, or nothing.
const HEIGHTS: &str = "\
99%int -> |1%int~199
100%int -> |1%int~
1%int|99% list~100
1%int|100% option~
99%(|1%int|99% * int)~397
100%(|1%int|100% * int)~
99%(int * |1%int|99%)~397
100%(int * |1%int|100%)~
99%(|1%int|99% -> int)~397
100%(|1%int|100% -> int)~
200%(|1%int|200%)~401
1%int|15% * int~31
1%int|16% * int~33
1%int|200% * int~401";

const SIGNATURE_HEIGHTS: &str = "\
1%sig type t = |99%int -> |1%int end~204
1%sig type t = |100%int -> |1%int end~
1%sig val x : int|99% list|1% end~105
1%sig val x : int|100% list|1% end~";

// Texts of pieces, and behind `~` the place at which too many are unclosed, or nothing.
const OPENERS: &str = r#"0%~
200%(~
201%(~200
300%(~200
201%[~200
200%sig ~
201%sig ~800
201%struct ~1400
201%match ~1200
201%try ~800
201%let fun if type list ~
3%)|200%(~
3%)]|1% end |201%(~211
200%(|1%)|1%(~
200%(|1%)|2%(~202
300%(]~
300%match end ~
199%(|1%x "((("|1%(~"#;

fn write_leaf(page: &mut Page, text: &[u8], at: u32) {
    page.put(text);
    page.put(b"@");
    page.number(u64::from(at));
}

fn write_name(page: &mut Page, name: &SName) {
    write_leaf(page, name.word.text().as_slice(), name.at);
}

#[cycle(types)]
fn write_item(page: &mut Page, item: &SType) {
    page.put(b" ");
    write_type(page, item);
}

#[cycle(types)]
fn write_type(page: &mut Page, ty: &SType) {
    let at = ty.at;
    match &ty.kind {
        STypeKind::Int => write_leaf(page, b"int", at),
        STypeKind::Bool => write_leaf(page, b"bool", at),
        STypeKind::Str => write_leaf(page, b"string", at),
        STypeKind::Unit => write_leaf(page, b"unit", at),
        STypeKind::Exn => write_leaf(page, b"exn", at),
        STypeKind::Local(name) => write_leaf(page, name.text().as_slice(), at),
        STypeKind::Of(module, name) => {
            write_leaf(page, b"(.", at);
            page.put(b" ");
            write_name(page, module);
            page.put(b" ");
            write_name(page, name);
            page.put(b")");
        }
        STypeKind::Tuple(parts) => {
            write_leaf(page, b"(*", at);
            write_types(page, parts.as_slice());
            page.put(b")");
        }
        STypeKind::List(item) => {
            write_leaf(page, b"(list", at);
            write_item(page, item);
            page.put(b")");
        }
        STypeKind::Opt(item) => {
            write_leaf(page, b"(option", at);
            write_item(page, item);
            page.put(b")");
        }
        STypeKind::Fun(from, to) => {
            write_leaf(page, b"(->", at);
            write_item(page, from);
            write_item(page, to);
            page.put(b")");
        }
    }
}

#[cycle(types)]
fn write_types(page: &mut Page, types: &[SType]) {
    for ty in types {
        write_item(page, ty);
    }
}

fn write_spec(page: &mut Page, spec: &SSpec) {
    match spec {
        SSpec::Abstract(name) => {
            page.put(b" type ");
            write_name(page, name);
        }
        SSpec::Manifest(abbreviation) => {
            page.put(b" type ");
            write_name(page, &abbreviation.name);
            page.put(b" = ");
            write_type(page, &abbreviation.ty);
        }
        SSpec::Val(name, ty) => {
            page.put(b" val ");
            write_name(page, name);
            page.put(b" : ");
            write_type(page, ty);
        }
    }
}

fn write_sig(page: &mut Page, sig: &SSig) {
    write_leaf(page, b"(sig", sig.at);
    for spec in sig.specs.as_slice() {
        write_spec(page, spec);
    }
    page.put(b")");
}

fn write_fault(page: &mut Page, fault: ParseFault) {
    match fault {
        ParseFault::Syntax { at } => {
            page.put(b"!");
            page.number(u64::from(at));
        }
        ParseFault::TooLong { .. }
        | ParseFault::Lexical { .. }
        | ParseFault::TooDeep { .. }
        | ParseFault::Memory => page.lose(),
    }
}

// What is parsed at this token: `Memory` where openers are too deep, which no row has.
fn type_at(alloc: Global, tokens: &[Token], from: u32) -> Result<(SType, u32), ParseFault> {
    match deep(tokens) {
        Some(_) => Err(ParseFault::Memory),
        None => parse_type(alloc, tokens, from),
    }
}

fn sig_at(alloc: Global, tokens: &[Token], from: u32) -> Result<(SSig, u32), ParseFault> {
    match deep(tokens) {
        Some(_) => Err(ParseFault::Memory),
        None => parse_sig(alloc, tokens, from),
    }
}

fn write_behind(page: &mut Page, number: u32) {
    page.put(b" ");
    page.number(u64::from(number));
}

fn type_page(alloc: Global, tokens: &[Token], from: u32) -> Page {
    let mut page = Page::new(alloc);
    match type_at(alloc, tokens, from) {
        Ok((ty, number)) => {
            write_type(&mut page, &ty);
            write_behind(&mut page, number);
        }
        Err(fault) => write_fault(&mut page, fault),
    }
    page
}

fn sig_page(alloc: Global, tokens: &[Token], from: u32) -> Page {
    let mut page = Page::new(alloc);
    match sig_at(alloc, tokens, from) {
        Ok((sig, number)) => {
            write_sig(&mut page, &sig);
            write_behind(&mut page, number);
        }
        Err(fault) => write_fault(&mut page, fault),
    }
    page
}

fn lexed(rt: &impl Abort, alloc: Global, text: &[u8]) -> Many<Token> {
    lex(alloc, text).expect(rt, "tokens")
}

struct TypeReader;

impl Reader for TypeReader {
    fn read(rt: &impl Abort, alloc: Global, text: &str) -> Page {
        type_page(alloc, lexed(rt, alloc, text.as_bytes()).as_slice(), 0)
    }
}

#[test]
fn types(rt: HostRuntime) {
    check_rows::<TypeReader>(&rt, rt.alloc(), TYPES);
}

#[test]
fn types_behind_other_tokens(rt: HostRuntime) {
    for (text, from, want) in &TYPES_BEHIND {
        let tokens = lexed(&rt, rt.alloc(), text);
        let page = type_page(rt.alloc(), tokens.as_slice(), *from);
        assert_eq!(rt; page.bytes(), Some(*want));
    }
}

struct SignatureReader;

impl Reader for SignatureReader {
    fn read(rt: &impl Abort, alloc: Global, text: &str) -> Page {
        sig_page(alloc, lexed(rt, alloc, text.as_bytes()).as_slice(), 0)
    }
}

#[test]
fn signatures(rt: HostRuntime) {
    check_rows::<SignatureReader>(&rt, rt.alloc(), SIGNATURES);
}

#[test]
fn signatures_behind_other_tokens(rt: HostRuntime) {
    for (text, from, want) in &SIGNATURES_BEHIND {
        let tokens = lexed(&rt, rt.alloc(), text);
        let page = sig_page(rt.alloc(), tokens.as_slice(), *from);
        assert_eq!(rt; page.bytes(), Some(*want));
    }
}

// Adds as often as it stands in front of `%` what stands behind it.
fn put_piece(rt: &impl Abort, text: &mut Text, piece: &str) {
    let (times, piece) = piece.split_once('%').expect(rt, "a piece");
    for _ in 0..times.parse::<u32>().expect(rt, "a number") {
        text.extend(piece.as_bytes()).expect(rt, "memory");
    }
}

// The tokens of a text of pieces.
fn built(rt: &impl Abort, alloc: Global, pieces: &str) -> Many<Token> {
    let mut text = Text::new(alloc);
    for piece in pieces.split('|') {
        put_piece(rt, &mut text, piece);
    }
    lexed(rt, alloc, text.as_slice())
}

// A number, or nothing.
fn number(alloc: Global, number: Option<u32>) -> Page {
    let mut page = Page::new(alloc);
    if let Some(number) = number {
        page.number(u64::from(number));
    }
    page
}

struct HeightReader;

impl Reader for HeightReader {
    fn read(rt: &impl Abort, alloc: Global, pieces: &str) -> Page {
        let tokens = built(rt, alloc, pieces);
        let end = type_at(alloc, tokens.as_slice(), 0).ok();
        number(alloc, end.map(|(_, number)| number))
    }
}

#[test]
fn heights(rt: HostRuntime) {
    check_rows::<HeightReader>(&rt, rt.alloc(), HEIGHTS);
}

struct SignatureHeightReader;

impl Reader for SignatureHeightReader {
    fn read(rt: &impl Abort, alloc: Global, pieces: &str) -> Page {
        let tokens = built(rt, alloc, pieces);
        let end = sig_at(alloc, tokens.as_slice(), 0).ok();
        number(alloc, end.map(|(_, number)| number))
    }
}

#[test]
fn heights_in_signatures(rt: HostRuntime) {
    check_rows::<SignatureHeightReader>(&rt, rt.alloc(), SIGNATURE_HEIGHTS);
}

struct OpenerReader;

impl Reader for OpenerReader {
    fn read(rt: &impl Abort, alloc: Global, pieces: &str) -> Page {
        let tokens = built(rt, alloc, pieces);
        number(alloc, deep(tokens.as_slice()))
    }
}

#[test]
fn openers(rt: HostRuntime) {
    check_rows::<OpenerReader>(&rt, rt.alloc(), OPENERS);
}

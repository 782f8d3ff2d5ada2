// Texts, and behind `~` their tokens: a letter for the kind, the bytes and `@` with the place; `!`
// with the place where a text has none.

use crate::rows::{Reader, check_rows};
use ac_lexer::{LexFault, Token, TokenKind, lex};
use ac_text::Page;
use std::alloc::Global;
use std::process::Abort;

const PLAIN: &str = r#"~
let x = 12 in M.y'~ f:let@0 l:x@4 f:=@6 i:12@8 f:in@11 U:M@14 f:.@15 l:y'@16
( ) [ ]~ f:(@0 f:)@2 f:[@4 f:]@6
()[],;~ f:(@0 f:)@1 f:[@2 f:]@3 f:,@4 f:;@5
:.=<+-*/^|~ f::@0 f:.@1 f:=@2 f:<@3 f:+@4 f:-@5 f:*@6 f:/@7 f:^@8 f:|@9
::->&&||~ f:::@0 f:->@2 f:&&@4 f:||@6
:::~ f:::@0 f::@2
-->~ f:-@0 f:->@1
|||~ f:||@0 f:|@2
- >~ !2
-5~ f:-@0 i:5@1
&~ !0
a & b~ !2
&&&~ !2
#~ !0
a #~ !2
as bool by else end exn false fun~ f:as@0 f:bool@3 f:by@8 f:else@11 f:end@16 f:exn@20 f:false@24 f:fun@30
if import in int let like list~ f:if@0 f:import@3 f:in@10 f:int@13 f:let@17 f:like@21 f:list@26
mark marshal match mod module~ f:mark@0 f:marshal@5 f:match@13 f:mod@19 f:module@23
myname name not option raise rec~ f:myname@0 f:name@7 f:not@12 f:option@16 f:raise@23 f:rec@29
sig string struct then true try~ f:sig@0 f:string@4 f:struct@11 f:then@18 f:true@23 f:try@28
type unit unmarshal val version with~ f:type@0 f:unit@5 f:unmarshal@10 f:val@20 f:version@24 f:with@32
Some None Static_Link Here_Already~ f:Some@0 f:None@5 f:Static_Link@10 f:Here_Already@22
Failure Invalid_argument Not_found~ f:Failure@0 f:Invalid_argument@8 f:Not_found@25
Division_by_zero Match_failure~ f:Division_by_zero@0 f:Match_failure@17
End_of_file Sys_error~ f:End_of_file@0 f:Sys_error@12
Marshal_failure Unmarshal_failure Resolve_failure~ f:Marshal_failure@0 f:Unmarshal_failure@16 f:Resolve_failure@34
lets Lets~ l:lets@0 U:Lets@5
x'~ l:x'@0
_x~ l:_x@0
_~ f:_@0
__~ l:__@0
_'~ l:_'@0
_A~ l:_A@0
Ab_1'~ U:Ab_1'@0
'~ !0
12ab~ i:12@0 l:ab@2
1_~ i:1@0 f:_@1
0~ i:0@0
007~ i:7@0
9223372036854775807~ i:9223372036854775807@0
0009223372036854775807~ i:9223372036854775807@0
9223372036854775808~ !0
x 99999999999999999999999~ !2
""~ s:@0
"ab" "c"~ s:ab@0 s:c@5
"a~ !0
x "a\"~ !2
"\q"~ !0
"\x4"~ !0
"\x4g"~ !0
"\X41"~ !0
"\~ !0
(**)~
a(* b *)c~ l:a@0 l:c@8
(* (* *) *) a~ l:a@12
(* " *) " (* "~ s: (* @8
(*)~ !0
(*) *)a~ l:a@6
a (* (* *)~ !2
(*(*)*)~ !0
*)~ f:*@0 f:)@1
( *~ f:(@0 f:*@2
("(*")~ f:(@0 s:(*@1 f:)@5"#;

// Texts and tokens beyond those of one printed line.
const ODD: [(&[u8], &[u8]); 7] = [
    (b" \t\r\n", b""),
    (b"\x80", b" !0"),
    (b"a \xff", b" !2"),
    (
        b"\"\\\\ \\\" \\n \\t \\r \\x41 \\xaF\"",
        b" s:\\ \" \n \t \r A \xaf@0",
    ),
    (b"\"\xff\x00'(*\"", b" s:\xff\x00'(*@0"),
    (b" \"a\nb\"", b" !1"),
    (b"(* # \n *) #", b" !10"),
];

// Adds the bytes that a token holds.
fn write_kind(page: &mut Page, kind: &TokenKind) {
    match kind {
        TokenKind::Lower(word) => {
            page.put(b"l:");
            page.put(word.text().as_slice());
        }
        TokenKind::Upper(word) => {
            page.put(b"U:");
            page.put(word.text().as_slice());
        }
        TokenKind::Int(n) => {
            page.put(b"i:");
            page.number(*n);
        }
        TokenKind::Str(text) => {
            page.put(b"s:");
            page.put(text.as_slice());
        }
        TokenKind::Fixed(text) => {
            page.put(b"f:");
            page.put(text.as_slice());
        }
    }
}

fn write_token(page: &mut Page, token: &Token) {
    page.put(b" ");
    write_kind(page, &token.kind);
    page.put(b"@");
    page.number(u64::from(token.at));
}

fn write_fault(page: &mut Page, fault: LexFault) {
    match fault {
        LexFault::Lexical { at } => {
            page.put(b" !");
            page.number(u64::from(at));
        }
        LexFault::TooLong { .. } | LexFault::Memory => page.lose(),
    }
}

fn page(alloc: Global, text: &[u8]) -> Page {
    let mut page = Page::new(alloc);
    match lex(alloc, text) {
        Ok(tokens) => {
            for token in tokens.as_slice() {
                write_token(&mut page, token);
            }
        }
        Err(fault) => write_fault(&mut page, fault),
    }
    page
}

struct TokenReader;

impl Reader for TokenReader {
    fn read(_rt: &impl Abort, alloc: Global, text: &str) -> Page {
        page(alloc, text.as_bytes())
    }
}

#[test]
fn texts_and_their_tokens(rt: HostRuntime) {
    check_rows::<TokenReader>(&rt, rt.alloc(), PLAIN);
}

#[test]
fn odd_texts_and_their_tokens(rt: HostRuntime) {
    for (text, want) in &ODD {
        let page = page(rt.alloc(), text);
        assert_eq!(rt; page.bytes(), Some(*want));
    }
}

fn is_lexed(alloc: Global, text: &[u8]) -> bool {
    lex(alloc, text).is_ok()
}

fn fault(alloc: Global, text: &[u8]) -> Option<LexFault> {
    lex(alloc, text).err()
}

#[test]
fn lengths_of_names(rt: HostRuntime) {
    let letters = [b'a'; 256];
    assert!(rt; is_lexed(rt.alloc(), &letters[..255]));
    let longer = fault(rt.alloc(), letters.as_slice());
    assert_eq!(rt; longer, Some(LexFault::Lexical { at: 0 }));
}

#[test]
fn lengths_of_texts(rt: HostRuntime) {
    let alloc = rt.alloc();
    let long = vec![in alloc; b' '; 1_048_576].expect(&rt, "memory");
    assert!(rt; is_lexed(alloc, long.as_slice()));
    drop(long);
    let longer = vec![in alloc; b'#'; 1_048_577].expect(&rt, "memory");
    let fault = fault(alloc, longer.as_slice());
    assert_eq!(rt; fault, Some(LexFault::TooLong { len: 1_048_577 }));
}

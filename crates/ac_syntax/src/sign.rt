// The symbols and the reserved words, and the signs that the grammar reads.

ghost use Rattle.std.specs.Prelude.{◌≡◌, ℕ, map, IfOk};
ghost use Rattle.ac_syntax.specs.Signs.{symbol_of, sign_spelled, sign_at, sign_of, signs};
ghost use Rattle.ac_syntax.specs.ReadSigns.{read_kind, read_sign, read_signs, spelling_of};

use ac_lexer::{Token, TokenKind};
use ac_types::{Memory, Text, Word};
use std::alloc::Global;

/// A token that is always spelled the same: a symbol, a reserved word or `_`.
#[derive(Clone, Copy, PartialEq, Eq)]
pub enum Symbol {
    /// `(`
    Open,
    /// `)`
    Close,
    /// `[`
    OpenSquare,
    /// `]`
    CloseSquare,
    Comma,
    Semicolon,
    Colon,
    Dot,
    Equals,
    Less,
    Plus,
    Minus,
    Star,
    Slash,
    /// `^`
    Caret,
    /// `::`
    Cons,
    /// `->`
    Arrow,
    /// `&&`
    And,
    /// `||`
    Or,
    /// `|`
    Bar,
    /// `_`
    Wild,
    As,
    By,
    Else,
    End,
    False,
    Fun,
    If,
    Import,
    In,
    Let,
    Like,
    Mark,
    Marshal,
    Match,
    Mod,
    Module,
    MyName,
    /// `name`
    NameWord,
    /// `None`
    NoneWord,
    Not,
    Raise,
    Rec,
    Sig,
    /// `Some`
    SomeWord,
    Struct,
    Then,
    True,
    Try,
    /// `type`
    TypeWord,
    Unmarshal,
    Val,
    Version,
    With,
    /// `int`
    IntType,
    /// `bool`
    BoolType,
    /// `string`
    StringType,
    /// `unit`
    UnitType,
    /// `exn`
    ExnType,
    /// `list`
    ListType,
    /// `option`
    OptionType,
    /// `Static_Link`
    StaticLink,
    /// `Here_Already`
    HereAlready,
    Failure,
    InvalidArgument,
    NotFound,
    DivisionByZero,
    MatchFailure,
    EndOfFile,
    SysError,
    MarshalFailure,
    UnmarshalFailure,
    ResolveFailure,
}

/// What a sign is; `Other` is a token whose bytes are neither a symbol nor a reserved word.
#[derive(Clone, Copy)]
pub enum SignKind<'t> {
    Int(u64),
    Str(&'t Text),
    Lower(&'t Word),
    Upper(&'t Word),
    Fixed(Symbol),
    Other,
}

/// A token with its symbol or reserved word in place of the bytes, and the place of its first byte.
#[derive(Clone, Copy)]
pub struct Sign<'t> {
    pub at: u32,
    pub kind: SignKind<'t>,
}

const SPELLINGS: &[(&[u8], Symbol)] = &[
    (b"(", Symbol::Open),
    (b")", Symbol::Close),
    (b"[", Symbol::OpenSquare),
    (b"]", Symbol::CloseSquare),
    (b",", Symbol::Comma),
    (b";", Symbol::Semicolon),
    (b":", Symbol::Colon),
    (b".", Symbol::Dot),
    (b"=", Symbol::Equals),
    (b"<", Symbol::Less),
    (b"+", Symbol::Plus),
    (b"-", Symbol::Minus),
    (b"*", Symbol::Star),
    (b"/", Symbol::Slash),
    (b"^", Symbol::Caret),
    (b"::", Symbol::Cons),
    (b"->", Symbol::Arrow),
    (b"&&", Symbol::And),
    (b"||", Symbol::Or),
    (b"|", Symbol::Bar),
    (b"_", Symbol::Wild),
    (b"as", Symbol::As),
    (b"bool", Symbol::BoolType),
    (b"by", Symbol::By),
    (b"else", Symbol::Else),
    (b"end", Symbol::End),
    (b"exn", Symbol::ExnType),
    (b"false", Symbol::False),
    (b"fun", Symbol::Fun),
    (b"if", Symbol::If),
    (b"import", Symbol::Import),
    (b"in", Symbol::In),
    (b"int", Symbol::IntType),
    (b"let", Symbol::Let),
    (b"like", Symbol::Like),
    (b"list", Symbol::ListType),
    (b"mark", Symbol::Mark),
    (b"marshal", Symbol::Marshal),
    (b"match", Symbol::Match),
    (b"mod", Symbol::Mod),
    (b"module", Symbol::Module),
    (b"myname", Symbol::MyName),
    (b"name", Symbol::NameWord),
    (b"not", Symbol::Not),
    (b"option", Symbol::OptionType),
    (b"raise", Symbol::Raise),
    (b"rec", Symbol::Rec),
    (b"sig", Symbol::Sig),
    (b"string", Symbol::StringType),
    (b"struct", Symbol::Struct),
    (b"then", Symbol::Then),
    (b"true", Symbol::True),
    (b"try", Symbol::Try),
    (b"type", Symbol::TypeWord),
    (b"unit", Symbol::UnitType),
    (b"unmarshal", Symbol::Unmarshal),
    (b"val", Symbol::Val),
    (b"version", Symbol::Version),
    (b"with", Symbol::With),
    (b"Some", Symbol::SomeWord),
    (b"None", Symbol::NoneWord),
    (b"Static_Link", Symbol::StaticLink),
    (b"Here_Already", Symbol::HereAlready),
    (b"Failure", Symbol::Failure),
    (b"Invalid_argument", Symbol::InvalidArgument),
    (b"Not_found", Symbol::NotFound),
    (b"Division_by_zero", Symbol::DivisionByZero),
    (b"Match_failure", Symbol::MatchFailure),
    (b"End_of_file", Symbol::EndOfFile),
    (b"Sys_error", Symbol::SysError),
    (b"Marshal_failure", Symbol::MarshalFailure),
    (b"Unmarshal_failure", Symbol::UnmarshalFailure),
    (b"Resolve_failure", Symbol::ResolveFailure),
];

/// The symbol or reserved word that is spelled so.
#[tactic(auto, unfolding(crate::specs::Signs::symbol_of))]
pub fn symbol_of(bytes: &[u8]) -> Option<Symbol>
    ensures { result ≡ symbol_of bytes.now }
{
    find(SPELLINGS, bytes)
}

fn find(spellings: &[(&[u8], Symbol)], bytes: &[u8]) -> Option<Symbol>
    ensures { result ≡ sign_spelled bytes.now (map spelling_of spellings.now) }
{
    for entry in spellings {
        if entry.0 == bytes {
            return Some(entry.1);
        }
    }
    None
}

fn sign_kind(kind: &TokenKind) -> SignKind<'_>
    ensures { (at : ℕ) → read_kind at result ≡ sign_at at kind.now }
{
    match kind {
        TokenKind::Int(n) => SignKind::Int(*n),
        TokenKind::Str(text) => SignKind::Str(text),
        TokenKind::Lower(word) => SignKind::Lower(word),
        TokenKind::Upper(word) => SignKind::Upper(word),
        TokenKind::Fixed(text) => match symbol_of(text.as_slice()) {
            Some(symbol) => SignKind::Fixed(symbol),
            None => SignKind::Other,
        },
    }
}

/// The sign that a token is.
pub fn sign_of(token: &Token) -> Sign<'_>
    ensures { read_sign result ≡ sign_of token.now }
{
    Sign {
        at: token.at,
        kind: sign_kind(&token.kind),
    }
}

/// The signs of tokens.
pub fn signs(alloc: Global, tokens: &[Token]) -> Result<Vec<Sign<'_>>, Memory>
    ensures { IfOk result (λ found. read_signs found.items ≡ signs tokens.now) }
{
    let mut found = Vec::new(alloc);
    for token in tokens {
        found.push(sign_of(token))?;
    }
    Ok(found)
}

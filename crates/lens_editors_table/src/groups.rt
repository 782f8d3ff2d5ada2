// The tokens that are always spelled the same, by what they are to an editor.

use ac_syntax::{Symbol, symbol_of};

/// What a token is to an editor.
#[derive(Clone, Copy, PartialEq, Eq)]
pub enum Group {
    /// A word that is neither of the others.
    Keyword,
    /// The name of a type.
    Type,
    /// A word for a value, or in front of one.
    Value,
    /// An exception.
    Exception,
    /// A place at which an import looks.
    Place,
    /// A symbol that computes or builds something.
    Operator,
    /// A symbol that parts things, which has no colour.
    Plain,
}

/// What a token is.
pub fn group_of(symbol: Symbol) -> Group {
    match symbol {
        Symbol::Open
        | Symbol::Close
        | Symbol::OpenSquare
        | Symbol::CloseSquare
        | Symbol::Comma
        | Symbol::Semicolon
        | Symbol::Colon
        | Symbol::Dot
        | Symbol::Wild => Group::Plain,
        Symbol::Equals
        | Symbol::Less
        | Symbol::Plus
        | Symbol::Minus
        | Symbol::Star
        | Symbol::Slash
        | Symbol::Caret
        | Symbol::Cons
        | Symbol::Arrow
        | Symbol::And
        | Symbol::Or
        | Symbol::Bar => Group::Operator,
        Symbol::IntType
        | Symbol::BoolType
        | Symbol::StringType
        | Symbol::UnitType
        | Symbol::ExnType
        | Symbol::ListType
        | Symbol::OptionType => Group::Type,
        Symbol::True | Symbol::False | Symbol::SomeWord | Symbol::NoneWord => Group::Value,
        Symbol::Failure
        | Symbol::InvalidArgument
        | Symbol::NotFound
        | Symbol::DivisionByZero
        | Symbol::MatchFailure
        | Symbol::EndOfFile
        | Symbol::SysError
        | Symbol::MarshalFailure
        | Symbol::UnmarshalFailure
        | Symbol::ResolveFailure => Group::Exception,
        Symbol::StaticLink | Symbol::HereAlready => Group::Place,
        Symbol::As
        | Symbol::By
        | Symbol::Else
        | Symbol::End
        | Symbol::Fun
        | Symbol::If
        | Symbol::Import
        | Symbol::In
        | Symbol::Let
        | Symbol::Like
        | Symbol::Mark
        | Symbol::Marshal
        | Symbol::Match
        | Symbol::Mod
        | Symbol::Module
        | Symbol::MyName
        | Symbol::NameWord
        | Symbol::Not
        | Symbol::Raise
        | Symbol::Rec
        | Symbol::Sig
        | Symbol::Struct
        | Symbol::Then
        | Symbol::Try
        | Symbol::TypeWord
        | Symbol::Unmarshal
        | Symbol::Val
        | Symbol::Version
        | Symbol::With => Group::Keyword,
    }
}

/// The tokens that are always spelled the same, in the order in which an editor looks for symbols.
pub const SPELLINGS: &[&[u8]] = &[
    b"as",
    b"bool",
    b"by",
    b"else",
    b"end",
    b"exn",
    b"false",
    b"fun",
    b"if",
    b"import",
    b"in",
    b"int",
    b"let",
    b"like",
    b"list",
    b"mark",
    b"marshal",
    b"match",
    b"mod",
    b"module",
    b"myname",
    b"name",
    b"not",
    b"option",
    b"raise",
    b"rec",
    b"sig",
    b"string",
    b"struct",
    b"then",
    b"true",
    b"try",
    b"type",
    b"unit",
    b"unmarshal",
    b"val",
    b"version",
    b"with",
    b"Some",
    b"None",
    b"Static_Link",
    b"Here_Already",
    b"Failure",
    b"Invalid_argument",
    b"Not_found",
    b"Division_by_zero",
    b"Match_failure",
    b"End_of_file",
    b"Sys_error",
    b"Marshal_failure",
    b"Unmarshal_failure",
    b"Resolve_failure",
    b"::",
    b"->",
    b"&&",
    b"||",
    b"=",
    b"<",
    b"+",
    b"-",
    b"*",
    b"/",
    b"^",
    b"|",
];

/// Whether a spelling belongs to a group.
pub fn is_of(spelling: &[u8], group: Group) -> bool {
    match symbol_of(spelling) {
        Some(symbol) => group_of(symbol) == group,
        None => false,
    }
}

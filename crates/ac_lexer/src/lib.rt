//! From the bytes of a text to its tokens.
#![tactic(auto)]

mod gaps;
mod laws;
mod lexer;
mod quoted;
mod tokens;
mod words;

pub use laws::{one_place, same_tokens, tokens_or_fault};
pub use lexer::lex;
pub use tokens::{LexFault, Token, TokenKind};

//! The grammar of the language and its trees, and the parsers of types and signatures.
#![tactic(auto)]

mod fault;
mod front;
pub mod laws;
mod openers;
mod parse;
mod sign;
mod sigs;
mod stop;
mod surface;
mod types;

pub use fault::ParseFault;
pub use front::{after, here, next, next_name};
pub use openers::deep;
pub use parse::{parse_sig, parse_type};
pub use sign::{Sign, SignKind, Symbol, sign_of, signs, symbol_of};
pub use sigs::sig;
pub use stop::{ParseError, refused_at};
pub use surface::{
    SAbbrev, SArm, SDef, SDefKind, SExpr, SExprKind, SField, SFun, SName, SPat, SPatKind, SSig,
    SSpec, SType, STypeKind, SWants, Surface,
};
pub use types::{ParsedType, whole_type};

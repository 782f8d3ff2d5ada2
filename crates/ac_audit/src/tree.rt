// From the bytes of a text to the tree of the type that it is.

ghost use Rattle.std.specs.Prelude.{◌≤◌, [], IfErr, IfOk, length};
ghost use Rattle.ac_types.specs.Limits.{longest_text};
ghost use Rattle.ac_syntax.specs.PartParsing.{OnSyntax};
ghost use Rattle.ac_syntax.specs.ReadTrees.{type_tree_of};
ghost use Rattle.ac_syntax.specs.Signs.{signs};
ghost use Rattle.ac_syntax.specs.Texts.{FaultAt, IsPlace, IsRead, IsUnread};
ghost use Rattle.ac_syntax.specs.Trees.{TypeTree};
ghost use Rattle.ac_syntax.specs.TypeForms.{IsType};
ghost use Rattle.ac_audit.specs.TypeTexts.{HasTypeTree};
ghost use Rattle.ac_audit.specs.inner.Faults.{IsTreeFault};

use ac_lexer::{LexFault, Token, lex};
use ac_syntax::{ParseError, ParseFault, SType, deep, refused_at, signs, whole_type};
use ac_types::Many;
use ac_types::limits::HIGHEST_WRITTEN_TYPE;
use std::alloc::Global;

/// The tree of the type that a text is. The faults are as those of a program: `TooLong`, `Lexical`,
/// `TooDeep`, or `Syntax`, where its signs are no type, or more than that, at the place of the token
/// at which no type can go on, or the text's length.
pub fn type_tree(alloc: Global, text: &[u8]) -> Result<SType, ParseFault>
    ensures tree { IfOk result (λ tree. HasTypeTree text.now (type_tree_of tree)) }
    ensures fault { IfErr result (λ e. IsTreeFault text.now e) }
{
    let found = tokens(alloc, text)?;
    match whole(alloc, found.as_slice()) {
        Ok(tree) => Ok(tree),
        Err(stop) => Err(fault(found.as_slice(), text.len(), stop)),
    }
}

// The type that tokens are, with none behind it.
fn whole(alloc: Global, tokens: &[Token]) -> Result<SType, ParseError>
    ensures tree { IfOk result (λ tree. IsType (signs tokens.now) (type_tree_of tree) []) }
    ensures none { IfErr result (λ e. OnSyntax e
        ((tree : TypeTree) → IsType (signs tokens.now) tree [] → ⊥)) }
{
    let all = signs(alloc, tokens)?;
    let (ty, rest) = whole_type(alloc, HIGHEST_WRITTEN_TYPE, all.as_slice())?;
    if rest.is_empty() {
        Ok(ty.tree)
    } else {
        Err(refused_at(rest))
    }
}

// The tokens of a text, where it is not too long, has tokens and is shallow.
fn tokens(alloc: Global, text: &[u8]) -> Result<Many<Token>, ParseFault>
    ensures read { IfOk result (λ tokens. IsRead text.now tokens) }
    ensures fault { IfErr result (λ e. IsUnread text.now e) }
{
    let found = match lex(alloc, text) {
        Ok(found) => found,
        Err(LexFault::TooLong { len }) => return Err(ParseFault::TooLong { len }),
        Err(LexFault::Lexical { at }) => return Err(ParseFault::Lexical { at }),
        Err(LexFault::Memory) => return Err(ParseFault::Memory),
    };
    match deep(found.as_slice()) {
        Some(at) => Err(ParseFault::TooDeep { at }),
        None => Ok(found),
    }
}

// The place of the token before which so many are left, the end of the text where none is left.
fn place(tokens: &[Token], left: usize, end: u32) -> u32
    ensures { IsPlace tokens.now end result }
{
    match tokens.get(tokens.len().saturating_sub(left)) {
        Some(token) => token.at,
        None => end,
    }
}

// Why the tokens of a text of this length are no type.
fn fault(tokens: &[Token], len: usize, stop: ParseError) -> ParseFault
    requires { len ≤ longest_text }
    ensures { FaultAt tokens.now len stop result }
{
    match stop {
        ParseError::Memory => ParseFault::Memory,
        ParseError::Syntax(left) => ParseFault::Syntax {
            at: place(tokens, left, len as u32),
        },
    }
}

// The bytes of patterns.

ghost use Rattle.std.specs.Prelude.{◌≡◌, ◌++◌, map, OnOk};
ghost use Rattle.ac_terms.specs.Terms.{patterns};
ghost use Rattle.ac_terms.specs.Read.{pattern_of};
ghost use Rattle.ac_terms.specs.SpelledBy.{pattern_bytes, all_pattern_bytes};

use crate::counts::{put_bool, put_count_u8, put_int, put_string, put_tagged_byte};
use crate::spelling::Spelling;
use ac_bytes::Out;
use ac_terms::{Pat, tags};
use ac_types::Memory;

/// Puts a pattern.
#[cycle(pat)]
pub fn put_pattern<S: Spelling>(out: &mut Out, spelling: &S, pat: &Pat) -> Result<(), Memory>
    ensures { OnOk result (out.new ≡ out.old ++
        pattern_bytes (S.spelled_type spelling.now) (pattern_of pat.now)) }
{
    match pat {
        Pat::Wild => out.put_u8(tags::PATTERN_WILD),
        Pat::Var(ty) => {
            out.put_u8(tags::PATTERN_VAR)?;
            spelling.put_type(out, ty)
        }
        Pat::Int(n) => put_int(out, tags::PATTERN_INT, *n),
        Pat::Bool(b) => put_bool(out, tags::PATTERN_BOOL, *b),
        Pat::Str(text) => put_string(out, tags::PATTERN_STR, text),
        Pat::Unit => out.put_u8(tags::PATTERN_UNIT),
        Pat::Tuple(parts) => {
            out.put_u8(tags::PATTERN_TUPLE)?;
            put_count_u8(out, parts.len())?;
            put_patterns(out, spelling, parts.as_slice())
        }
        Pat::Nil => out.put_u8(tags::PATTERN_NIL),
        Pat::Cons(head, tail) => {
            out.put_u8(tags::PATTERN_CONS)?;
            put_pattern(out, spelling, head)?;
            put_pattern(out, spelling, tail)
        }
        Pat::Absent => out.put_u8(tags::PATTERN_ABSENT),
        Pat::Present(inner) => {
            out.put_u8(tags::PATTERN_PRESENT)?;
            put_pattern(out, spelling, inner)
        }
        Pat::Exn(exn) => put_tagged_byte(out, tags::PATTERN_EXN, exn.number()),
        Pat::ExnOf(exn, text) => {
            put_tagged_byte(out, tags::PATTERN_EXN, exn.number())?;
            put_pattern(out, spelling, text)
        }
    }
}

// Puts each pattern.
#[cycle(pat)]
#[tactic(auto, using(crate::proofs::Joins::joins))]
fn put_patterns<S: Spelling>(out: &mut Out, spelling: &S, pats: &[Pat]) -> Result<(), Memory>
    ensures { OnOk result (out.new ≡ out.old ++
        all_pattern_bytes (S.spelled_type spelling.now) (patterns (map pattern_of pats.now))) }
{
    for pat in pats {
        put_pattern(out, spelling, pat)?;
    }
    Ok(())
}

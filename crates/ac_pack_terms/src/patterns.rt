// The visit of patterns.

ghost use Rattle.std.specs.Prelude.{suc, map};
ghost use Rattle.ac_terms.specs.Terms.{patterns};
ghost use Rattle.ac_terms.specs.Read.{pattern_of};
ghost use Rattle.ac_terms.specs.Heads.{pattern_heads, all_pattern_heads};
ghost use Rattle.ac_terms.specs.Parts.{OfType, pattern_types, all_pattern_types};
ghost use Rattle.ac_pack_terms.specs.Pieces.{spoken_at};
ghost use Rattle.ac_pack_terms.specs.inner.Goes.{Visits};

use crate::piece::Piece;
use crate::walk::Walk;
use ac_pack_heads::{Stop, deeper};
use ac_terms::{Pat, tags};

impl<'a> Walk<'a> {
    /// Visits a pattern inside a part that nests so deep.
    #[tactic(auto, using(crate::proofs::FormLaws::pattern_laws))]
    pub fn pattern(&mut self, pat: &'a Pat, outer: u32) -> Result<(), Stop>
        ensures { Visits result (pattern_heads (suc outer) (pattern_of pat.now))
            (spoken_at self.old.site (map OfType (pattern_types (pattern_of pat.now)))) self.old
            self.new }
    {
        let d = deeper(outer)?;
        match pat {
            Pat::Wild => self.head(d, &[tags::PATTERN_WILD]),
            Pat::Var(ty) => self.one(d, &[tags::PATTERN_VAR], Piece::Type(ty)),
            Pat::Int(n) => self.int(d, tags::PATTERN_INT, *n),
            Pat::Bool(b) => self.truth(d, tags::PATTERN_BOOL, *b),
            Pat::Str(text) => self.string(d, &[tags::PATTERN_STR], text.as_slice()),
            Pat::Unit => self.head(d, &[tags::PATTERN_UNIT]),
            Pat::Tuple(parts) => {
                self.few(
                    d,
                    tags::PATTERN_TUPLE,
                    parts.len(),
                    Piece::Patterns(parts.as_slice(), d),
                )
            }
            Pat::Nil => self.head(d, &[tags::PATTERN_NIL]),
            Pat::Cons(head, tail) => {
                self.two(
                    d,
                    &[tags::PATTERN_CONS],
                    Piece::Pattern(head, d),
                    Piece::Pattern(tail, d),
                )
            }
            Pat::Absent => self.head(d, &[tags::PATTERN_ABSENT]),
            Pat::Present(inner) => self.one(d, &[tags::PATTERN_PRESENT], Piece::Pattern(inner, d)),
            Pat::Exn(exn) => self.head(d, &[tags::PATTERN_EXN, exn.number()]),
            Pat::ExnOf(exn, inner) => self.one(
                d,
                &[tags::PATTERN_EXN, exn.number()],
                Piece::Pattern(inner, d),
            ),
        }
    }

    /// Visits patterns side by side.
    #[tactic(auto, using(crate::proofs::FormLaws::pattern_laws))]
    pub fn patterns(&mut self, pats: &'a [Pat], outer: u32) -> Result<(), Stop>
        ensures { Visits result
            (all_pattern_heads (suc outer) (patterns (map pattern_of pats.now)))
            (spoken_at self.old.site (map OfType
            (all_pattern_types (patterns (map pattern_of pats.now))))) self.old self.new }
    {
        match pats.split_first() {
            None => self.nothing(),
            Some((first, rest)) => {
                let first = Piece::Pattern(first, outer);
                self.both(first, Piece::Patterns(rest, outer))
            }
        }
    }
}

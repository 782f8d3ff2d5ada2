// One step of a walk, and the whole.

ghost use Rattle.std.specs.Prelude.{◌≡◌, ◌<◌, ◌^◌, [], MatchResult, length};
ghost use Rattle.ac_types.specs.Types.{TInt};
ghost use Rattle.ac_types.specs.ReadTypes.{typ_of};
ghost use Rattle.ac_rules.specs.Faults.{Fault};
ghost use Rattle.ac_pack_heads.specs.Outcomes.{On, Stopped, fault_in};
ghost use Rattle.ac_pack_terms.specs.Pieces.{heads_at, roots_at};
ghost use Rattle.ac_pack_terms.specs.inner.Goes.{comes, Visits};

use crate::held::{held, held_items, held_parts};
use crate::packed::{packed, packed_items, packed_parts};
use ac_pack_heads::Stop;
use ac_pack_terms::{Piece, Walk};
use std::alloc::Global;

/// Visits a piece.
pub fn visit<'a>(walk: &mut Walk<'a>, alloc: Global, piece: Piece<'a>) -> Result<(), Stop>
    requires entries { length walk.old.site.env.now.entries < 2 ^ 32 }
    requires int { typ_of walk.old.site.int.now ≡ TInt }
    ensures { Visits result (heads_at walk.old.site piece.entry)
        (roots_at walk.old.site piece.entry) walk.old walk.new }
{
    match piece {
        Piece::Type(ty) => walk.ty(alloc, ty),
        Piece::Pattern(pat, d) => walk.pattern(pat, d),
        Piece::Patterns(pats, d) => walk.patterns(pats, d),
        Piece::Term(t, around, d) => walk.term(t, around, d),
        Piece::Terms(terms, around, d) => walk.terms(terms, around, d),
        Piece::Cases(cases, around, d) => walk.cases(cases, around, d),
        Piece::Arms(cases, around, d) => walk.arms(cases, around, d),
        Piece::Packed(value, ty, d) => packed(walk, alloc, value, ty, d),
        Piece::PackedParts(parts, types, d) => packed_parts(walk, parts, types, d),
        Piece::PackedItems(items, ty, d) => packed_items(walk, items, ty, d),
        Piece::Held(v, ty, d) => held(walk, alloc, v, ty, d),
        Piece::HeldParts(parts, types, d) => held_parts(walk, parts, types, d),
        Piece::HeldItems(list, ty, d) => held_items(walk, list, ty, d),
    }
}

/// Visits all that is pending, and what that has in it.
pub fn visit_pending<'a>(walk: &mut Walk<'a>, alloc: Global) -> Result<(), Stop>
    requires entries { length walk.old.site.env.now.entries < 2 ^ 32 }
    requires int { typ_of walk.old.site.int.now ≡ TInt }
    ensures { MatchResult result
        (λ _. comes [] [] walk.old ≡ (On walk.new.text.0, walk.new.roots))
        (λ e. (f : Fault) → fault_in e ≡ Some f → (comes [] [] walk.old).0 ≡ Stopped f) }
{
    for _ in 0..u64::MAX {
        let Some(piece) = walk.next() else {
            return Ok(());
        };
        visit(walk, alloc, piece)?;
    }
    Err(Stop::Memory)
}

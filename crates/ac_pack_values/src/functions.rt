// The visit of functions that are marshalled.

ghost use Rattle.std.specs.Prelude.{◌≡◌, ◌<◌, ◌^◌, true, length};
ghost use Rattle.ac_types.specs.Types.{TInt};
ghost use Rattle.ac_types.specs.ReadTypes.{typ_of};
ghost use Rattle.ac_terms.specs.Bounds.{is_lambda};
ghost use Rattle.ac_terms.specs.Read.{home_of, expr_of};
ghost use Rattle.ac_rules.specs.Plain.{travelling};
ghost use Rattle.ac_pack_terms.specs.Pieces.{entries_at, term_at};
ghost use Rattle.ac_pack_terms.specs.inner.Goes.{VisitsValue};

use crate::travels::closure_may_travel;
use ac_pack_heads::Stop;
use ac_pack_terms::{Around, Piece, Walk};
use ac_terms::Term;
use ac_types::Ty;
use std::alloc::Global;

/// Visits a function at a type, with the values around it.
#[tactic(auto, using(crate::proofs::FunctionLaws::function_laws))]
pub fn function<'a>(
    walk: &mut Walk<'a>,
    alloc: Global,
    lambda: &'a Term,
    around: Around<'a>,
    ty: &'a Ty,
    d: u32,
) -> Result<(), Stop>
    requires entries { length walk.old.site.env.now.entries < 2 ^ 32 }
    requires int { typ_of walk.old.site.int.now ≡ TInt }
    requires is_lambda { is_lambda (expr_of lambda.now) ≡ true }
    requires outside { around.binders ≡ 0 }
    ensures { VisitsValue result d (travelling (entries_at walk.old.site)
        (home_of around.entry.home) (term_at walk.old.site around.entry (expr_of lambda.now))
        (typ_of ty.now)) walk.old walk.new }
{
    let site = walk.site;
    if !closure_may_travel(alloc, &site, lambda, around, ty)? {
        return walk.stay(d);
    }
    walk.function_head(d, around.home, Piece::Term(lambda, around, d))
}

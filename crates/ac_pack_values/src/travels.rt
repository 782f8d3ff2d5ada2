// Which functions travel.

ghost use Rattle.std.specs.Prelude.{◌≡◌, ◌<◌, ◌^◌, true, false, IfOk, Some, map, length};
ghost use Rattle.ac_types.specs.Types.{TInt, is_small};
ghost use Rattle.ac_types.specs.ReadTypes.{typ_of};
ghost use Rattle.ac_terms.specs.Read.{environment_of, home_of, expr_of};
ghost use Rattle.ac_rules.specs.Views.{Coloured};
ghost use Rattle.ac_rules.specs.Typing.{kept_in, type_seen};
ghost use Rattle.ac_rules.specs.Plain.{may_travel};
ghost use Rattle.ac_pack_terms.specs.Pieces.{entries_at, term_at, captured_at};
ghost use Rattle.ac_pack_terms.specs.inner.Slots.{AreTypes};

use ac_check::travels_with;
use ac_check_views::{Site, seen_type};
use ac_pack_terms::{Around, PackContext, later, newest_type};
use ac_terms::{Env, Home, Term};
use ac_types::{Boxed, Many, Memory, Ty};
use ac_values::read::newest_and_rest;
use std::alloc::Global;

/// Whether a function travels at a type, where each value around it counts as of its type.
#[tactic(auto, using(crate::proofs::TravelLaws::travel_laws))]
pub fn closure_may_travel<'a>(
    alloc: Global,
    site: &PackContext<'a>,
    function: &'a Term,
    around: Around<'a>,
    ty: &'a Ty,
) -> Result<bool, Memory>
    requires entries { length site.now.env.now.entries < 2 ^ 32 }
    requires int { typ_of site.now.int.now ≡ TInt }
    requires outside { around.binders ≡ 0 }
    ensures { IfOk result (λ b. b ≡ may_travel (entries_at site.now) (home_of around.entry.home)
        (term_at site.now around.entry (expr_of function.now)) (typ_of ty.now)) }
{
    let vars = captured_types(alloc, site, around)?;
    let travels = travels_with(alloc, site.env, around.home, &vars, function, ty);
    drop(vars);
    travels
}

// The types of the values around a function, as its home sees them.
#[tactic(auto, using(crate::proofs::TravelLaws::type_laws))]
fn captured_types<'a>(
    alloc: Global,
    site: &PackContext<'a>,
    around: Around<'a>,
) -> Result<Many<Ty>, Memory>
    requires entries { length site.now.env.now.entries < 2 ^ 32 }
    requires int { typ_of site.now.int.now ≡ TInt }
    ensures { IfOk result (λ vars. AreTypes (entries_at site.now) (home_of around.entry.home)
        (captured_at site.now around.entry) (map typ_of vars)) }
{
    let mut found = Many::new(alloc);
    let Some(list) = around.held else {
        return Ok(found);
    };
    let mut rest = list;
    let mut types = around.context;
    while let Some((_, older)) = newest_and_rest(site.store, rest) {
        let ty = type_here(alloc, site.env, around.home, newest_type(site, &types))?;
        found.push(ty)?;
        rest = older;
        types = later(&types);
    }
    Ok(found)
}

// A type as a home sees it; one that isn't known or isn't small there is none that a term has.
fn type_here(alloc: Global, env: &Env, home: Home, ty: &Ty) -> Result<Ty, Memory>
    requires { length env.now.entries < 2 ^ 32 }
    ensures { IfOk result (λ t. kept_in Coloured (Some (typ_of t)) ≡ kept_in Coloured
        (type_seen Coloured true (environment_of env.now) (home_of home) (typ_of ty.now))) }
{
    let place = Site {
        env,
        home,
        own: 0,
        refs: 0,
    };
    match seen_type(alloc, ty, &place)? {
        Some(seen) => Ok(seen),
        None => too_large(alloc),
    }
}

// A type that isn't small.
fn too_large(alloc: Global) -> Result<Ty, Memory>
    ensures { IfOk result (λ t. is_small (typ_of t) ≡ false) }
{
    let mut ty = Ty::Unit;
    for _ in 0u32..101 {
        ty = Ty::Opt(Boxed::new(alloc, ty)?);
    }
    Ok(ty)
}

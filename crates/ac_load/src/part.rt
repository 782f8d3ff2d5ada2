// What one tree adds to the entries in front of it.

ghost use Rattle.std.specs.Prelude.{◌≡◌, ◌<◌, ◌≤◌, ◌^◌, length, Some, None, IfOk, IfErr, IsTrue};
ghost use Rattle.std.specs.List.{list_all};
ghost use Rattle.ac_types.specs.Limits.{most_shelf_entries};
ghost use Rattle.ac_types.specs.ReadTypes.{typ_of};
ghost use Rattle.ac_terms.specs.Read.{environment_of, seen_of, expr_of};
ghost use Rattle.ac_resolve_names.specs.Entries.{keeps_name};
ghost use Rattle.ac_load_rules.specs.Counted.{has_counted};
ghost use Rattle.ac_load_causes.specs.PartCauses.{term_type, part_cause, Tells};
ghost use Rattle.ac_syntax.specs.ReadTrees.{surface_of};
ghost use Rattle.ac_load.specs.Kinds.{Says};
ghost use Rattle.ac_load.specs.inner.Parts.{linked_part, IsTaken, IsTreeRefused};

use crate::kind::Kind;
use ac_load_causes::{PartFault, linked, part_type};
use ac_resolve::elaborate;
use ac_resolve_terms::RawProgram;
use ac_rules::Loaded;
use ac_syntax::Surface;
use ac_terms::{Env, Seen, Term};
use std::alloc::Global;

/// The entries, the term and its type of a tree from `seen`, behind these entries; or the first
/// cause why it has none.
pub fn part(alloc: Global, env: Env, surface: &Surface, seen: &Seen) -> Result<Loaded, Kind>
    requires few { length env.entries ≤ most_shelf_entries }
    requires names { IsTrue (list_all keeps_name (environment_of env)) }
    requires counted { IsTrue (list_all has_counted (environment_of env)) }
    ensures taken { IfOk result (λ l. IsTaken (environment_of env) (seen_of seen.now)
        (surface_of surface.now) (environment_of l.env) (expr_of l.main) (typ_of l.ty)) }
    ensures refused { IfErr result (λ kind. Says kind (IsTreeRefused (environment_of env)
        (seen_of seen.now) (surface_of surface.now) kind)) }
{
    let front = env.len();
    match elaborate(alloc, surface, env) {
        Ok(RawProgram { env, main }) => match linked_part(alloc, env, front, main, seen) {
            Ok(loaded) => Ok(loaded),
            Err(fault) => Err(Kind::from(fault)),
        },
        Err(fault) => Err(Kind::from(fault)),
    }
}

// The entries of a part, behind the first `front`, linked, with its term and the term's type.
fn linked_part(
    alloc: Global,
    env: Env,
    front: usize,
    main: Term,
    seen: &Seen,
) -> Result<Loaded, PartFault>
    requires few { length env.entries < 2 ^ 32 }
    requires within { front ≤ length env.entries }
    requires counted { IsTrue (list_all has_counted (environment_of env)) }
    ensures entries { IfOk result (λ l. environment_of l.env
        ≡ linked_part (seen_of seen.now) front (environment_of env)) }
    ensures main { IfOk result (λ l. l.main ≡ main) }
    ensures typed { IfOk result (λ l. term_type (environment_of l.env) (expr_of l.main)
        ≡ Some (typ_of l.ty)) }
    ensures sound { IfOk result (λ l. part_cause (environment_of l.env) front (expr_of l.main)
        ≡ None) }
    ensures refused { IfErr result (λ f. Tells f (part_cause
        (linked_part (seen_of seen.now) front (environment_of env)) front (expr_of main))) }
{
    match linked(alloc, env, front, seen) {
        Ok(env) => typed_part(alloc, env, front, main),
        Err(memory) => {
            drop(main);
            Err(PartFault::from(memory))
        }
    }
}

// The same of entries that are linked.
fn typed_part(alloc: Global, env: Env, front: usize, main: Term) -> Result<Loaded, PartFault>
    requires few { length env.entries < 2 ^ 32 }
    requires within { front ≤ length env.entries }
    requires counted { IsTrue (list_all has_counted (environment_of env)) }
    ensures entries { IfOk result (λ l. l.env ≡ env) }
    ensures main { IfOk result (λ l. l.main ≡ main) }
    ensures typed { IfOk result (λ l. term_type (environment_of env) (expr_of main)
        ≡ Some (typ_of l.ty)) }
    ensures sound { IfOk result (λ l. part_cause (environment_of env) front (expr_of main)
        ≡ None) }
    ensures refused { IfErr result (λ f. Tells f (part_cause (environment_of env) front
        (expr_of main))) }
{
    match part_type(alloc, &env, front, &main) {
        Ok(ty) => Ok(Loaded { env, main, ty }),
        Err(fault) => {
            drop(main);
            drop(env);
            Err(fault)
        }
    }
}

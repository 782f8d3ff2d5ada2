// Programs and modules by themselves.

ghost use Rattle.std.specs.Prelude.{◌≡◌, ◌<◌, ◌≤◌, ◌+◌, ◌^◌, length, map, None, option_map, option_and_then, IfOk, IsTrue};
ghost use Rattle.std.specs.Option.{option_map_or};
ghost use Rattle.std.specs.List.{list_all};
ghost use Rattle.sha2.specs.Sha256.{sha256};
ghost use Rattle.ac_types.specs.Limits.{most_definitions};
ghost use Rattle.ac_terms.specs.Terms.{Unit'};
ghost use Rattle.ac_terms.specs.Read.{environment_of, expr_of};
ghost use Rattle.ac_syntax.specs.ReadTrees.{tree_of, def_tree_of, surface_of};
ghost use Rattle.ac_resolve_scopes.specs.Scopes.{after_all};
ghost use Rattle.ac_resolve_scopes.specs.Written.{term_in};
ghost use Rattle.ac_resolve_scopes.specs.Definitions.{after_def};
ghost use Rattle.ac_resolve_scopes.specs.Searches.{least_in, found};
ghost use Rattle.ac_resolve_scopes.specs.Unbound.{unbound_in_def};
ghost use Rattle.ac_resolve_scopes.specs.Counts.{large, large_in_def};
ghost use Rattle.ac_resolve_scopes.specs.Surfaces.{Elaborates, first_scope, surface_fault};
ghost use Rattle.ac_resolve_names.specs.Entries.{keeps_name};
ghost use Rattle.ac_resolve_names.specs.Fronts.{front_of};

use crate::defs::def;
use crate::structs::outer_term;
use ac_resolve_names::Front;
use ac_syntax::{SDef, SExpr, Surface};
use ac_terms::{Env, Term};
use ac_types::Memory;
use std::alloc::Global;

/// A program whose names are resolved and whose types are not yet looked at.
#[derive(Drop)]
pub struct RawProgram {
    /// The entries that were there before, then the program's own: named, not yet linked.
    pub env: Env,
    /// The program's expression, `()` where it has none.
    pub main: Term,
}

/// What a surface without a fault of its names and counts elaborates to, behind the entries in
/// front of it.
pub fn build(alloc: Global, surface: &Surface, env: Env) -> Result<RawProgram, Memory>
    requires names { IsTrue (list_all keeps_name (environment_of env)) }
    requires few { length (environment_of env) + most_definitions < 2 ^ 32 }
    requires sound { surface_fault sha256 (environment_of env) (surface_of surface.now) ≡ None }
    ensures elaborated { IfOk result (λ r. Elaborates sha256 (environment_of env)
        (surface_of surface.now)
        (environment_of r.env) (expr_of r.main)) }
    ensures names { IfOk result (λ r. IsTrue (list_all keeps_name (environment_of r.env))) }
    ensures counted { IfOk result (λ r. length (environment_of r.env)
        ≤ length (environment_of env) + most_definitions) }
{
    let ahead = first(alloc, env, &surface.expr)?;
    let trees = surface.defs.as_slice();
    let behind = defs(alloc, ahead, trees)?;
    let main = main_term(alloc, &behind, &surface.expr)?;
    let env = behind.into_env();
    Ok(RawProgram { env, main })
}

// The scope at the front: a module by itself sees the entries by their names, a program doesn't.
fn first(alloc: Global, env: Env, expr: &Option<SExpr>) -> Result<Front, Memory>
    requires names { IsTrue (list_all keeps_name (environment_of env)) }
    requires few { length (environment_of env) < 2 ^ 32 }
    ensures { IfOk result (λ f. front_of f ≡
        first_scope (environment_of env) (option_map tree_of expr.now)) }
{
    match expr {
        None => Front::seeing(alloc, env),
        Some(_) => Ok(Front::behind(alloc, env)),
    }
}

// The scope behind some definitions.
fn defs(alloc: Global, front: Front, trees: &[SDef]) -> Result<Front, Memory>
    requires bound { least_in (after_def sha256) unbound_in_def (front_of front) (map
        def_tree_of trees.now)
        ≡ None }
    requires within { least_in (after_def sha256) large_in_def (front_of front) (map def_tree_of
        trees.now)
        ≡ None }
    requires few { length (front_of front).entries + length trees.now < 2 ^ 32 }
    ensures { IfOk result (λ f. front_of f ≡ after_all (after_def sha256) (front_of front)
        (map def_tree_of trees.now)) }
{
    let mut front = front;
    for tree in trees {
        let def = def(alloc, &front, tree)?;
        let more = front.with(alloc, def)?;
        front = more;
    }
    Ok(front)
}

// The term of the expression, `()` where there is none.
#[tactic(auto, using(crate::proofs::TermLaws::made_laws))]
fn main_term(alloc: Global, front: &Front, tree: &Option<SExpr>) -> Result<Term, Memory>
    requires { option_and_then (found large (front_of front.now)) (option_map tree_of tree.now)
        ≡ None }
    ensures { IfOk result (λ t. expr_of t ≡
        option_map_or (term_in (front_of front.now)) (option_map tree_of tree.now) Unit') }
{
    match tree {
        None => Ok(Term::Unit),
        Some(tree) => {
            let outer = front.outer(alloc);
            outer_term(alloc, tree, &outer)
        }
    }
}

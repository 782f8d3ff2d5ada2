// Surfaces.

ghost use Rattle.std.specs.Prelude.{◌≡◌, map, option_map, IfOk};
ghost use Rattle.ac_types.specs.Types.{Bytes};
ghost use Rattle.ac_terms.specs.Read.{entry_of, environment_of};
ghost use Rattle.ac_syntax.specs.ReadTrees.{tree_of, def_tree_of, surface_of};
ghost use Rattle.ac_resolve_scopes.specs.Surfaces.{surface_fault};
ghost use Rattle.ac_resolve_faults.specs.Answers.{surface_fault_of};
ghost use Rattle.ac_resolve_faults.specs.inner.SurfaceFlaws.{first_outer, main_flaws, rest_flaws, defs_flaws, surface_flaws};
ghost use Rattle.ac_resolve_signatures.specs.Reads.{externals_of};

use crate::defs::def_flaws;
use crate::exprs::flaws;
use crate::fault::{FirstFault, first};
use crate::lists::Marks;
use crate::scope::VariableScope;
use ac_resolve_signatures::{
    Externals, Flaws, Scan, entries_in_front, picked_names, repeated_name,
};
use ac_syntax::{SDef, SExpr, Surface};
use ac_terms::{Entry, Env};
use ac_types::Memory;
use ac_types::limits::MOST_DEFINITIONS;
use std::alloc::Global;
use std::collections::BTreeMap;

/// Why a program, or a module by itself, is refused behind the entries in front of it, for a name
/// that isn't in scope, a repetition, or a count that passes its limit: the first of these that
/// applies, each at its least. `None` exactly where none applies.
pub fn scope_fault(
    alloc: Global,
    surface: &Surface,
    env: &Env,
) -> Result<Option<FirstFault>, Memory>
    ensures { IfOk result (λ fault. (digest : Bytes → Bytes) → option_map surface_fault_of fault
        ≡ surface_fault digest (environment_of env.now) (surface_of surface.now)) }
{
    let found = surface_flaws(alloc, surface, env)?;
    Ok(first(found))
}

fn surface_flaws(alloc: Global, surface: &Surface, env: &Env) -> Result<Flaws, Memory>
    ensures { IfOk result (λ f. f
        ≡ surface_flaws (environment_of env.now) (surface_of surface.now)) }
{
    let defs = surface.defs.as_slice();
    let lists = defs_flaws(alloc, defs)?;
    let externals = first_externals(alloc, &surface.expr, env.entries())?;
    let rest = rest_flaws(alloc, externals, defs, &surface.expr)?;
    Ok(lists.join(rest))
}

// The definitions in front: a program sees none, a module by itself the entries.
fn first_externals<'a>(
    alloc: Global,
    expr: &Option<SExpr>,
    entries: &'a [Entry],
) -> Result<Externals<'a>, Memory>
    ensures { IfOk result (λ x. externals_of x
        ≡ first_outer (map entry_of entries.now) (option_map tree_of expr.now)) }
{
    match expr {
        None => entries_in_front(alloc, entries),
        Some(_) => Ok(BTreeMap::new(alloc)),
    }
}

// The marks' names, and how many definitions there are.
fn defs_flaws(alloc: Global, defs: &[SDef]) -> Result<Flaws, Memory>
    ensures { IfOk result (λ f. f ≡ defs_flaws (map def_tree_of defs.now)) }
{
    let names = picked_names(alloc, defs, &Marks)?;
    let repeated = repeated_name(alloc, names.as_slice())?;
    let counted = Flaws::counted(MOST_DEFINITIONS, defs.len());
    Ok(Flaws {
        unbound: None,
        repeated,
        count: counted.count,
    })
}

// What is wrong with definitions and the expression behind them.
fn rest_flaws<'a>(
    alloc: Global,
    front: Externals<'a>,
    defs: &'a [SDef],
    expr: &'a Option<SExpr>,
) -> Result<Flaws, Memory>
    ensures { IfOk result (λ f. f ≡ rest_flaws (externals_of front.entry) (map def_tree_of defs.now)
        (option_map tree_of expr.now)) }
{
    let mut externals = front;
    let mut found = Flaws::none();
    for def in defs {
        let here = def_flaws(alloc, &mut externals, def)?;
        found = found.join(here);
    }
    let main = main_flaws(alloc, &externals, expr)?;
    Ok(found.join(main))
}

// What is wrong with the expression.
#[tactic(auto, using(crate::proofs::Scoping::scope_laws))]
fn main_flaws<'a>(
    alloc: Global,
    externals: &Externals<'a>,
    expr: &'a Option<SExpr>,
) -> Result<Flaws, Memory>
    ensures { IfOk result (λ f. f
        ≡ main_flaws (externals_of externals.now) (option_map tree_of expr.now)) }
{
    match expr {
        None => Ok(Flaws::none()),
        Some(tree) => {
            let scan = Scan::new(alloc, externals);
            let scope = VariableScope::Empty;
            flaws(alloc, tree, &scan, &scope)
        }
    }
}

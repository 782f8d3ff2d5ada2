// What a surface elaborates to, or its first fault.

ghost use Rattle.std.specs.Prelude.{◌≡◌, ◌<◌, ◌≤◌, ◌+◌, ◌^◌, length, None, IfOk, IfErr, OnOk, IsTrue};
ghost use Rattle.std.specs.List.{list_all};
ghost use Rattle.sha2.specs.Sha256.{sha256};
ghost use Rattle.ac_types.specs.Limits.{most_definitions};
ghost use Rattle.ac_terms.specs.Read.{environment_of, expr_of};
ghost use Rattle.ac_syntax.specs.ReadTrees.{surface_of};
ghost use Rattle.ac_resolve_scopes.specs.Surfaces.{Elaborates, surface_fault};
ghost use Rattle.ac_resolve_names.specs.Entries.{keeps_name};
ghost use Rattle.ac_resolve.specs.ScopeFaults.{RefusesScopes};

use crate::fault::{ScopeFault, refusal};
use ac_resolve_faults::scope_fault;
use ac_resolve_terms::{RawProgram, build};
use ac_syntax::Surface;
use ac_terms::Env;
use std::alloc::Global;

/// The entries and the term of a program, or of a module by itself, behind the entries in front of
/// it: those, and one for each definition, all of which keep their names. `Err` with its first fault
/// exactly where it has one: a name that isn't in scope, a repetition, a count that passes its limit.
pub fn elaborate(alloc: Global, surface: &Surface, env: Env) -> Result<RawProgram, ScopeFault>
    requires names { IsTrue (list_all keeps_name (environment_of env)) }
    requires few { length (environment_of env) + most_definitions < 2 ^ 32 }
    ensures elaborated { IfOk result (λ r. Elaborates sha256 (environment_of env)
        (surface_of surface.now)
        (environment_of r.env) (expr_of r.main)) }
    ensures names { IfOk result (λ r. IsTrue (list_all keeps_name (environment_of r.env))) }
    ensures counted { IfOk result (λ r. length (environment_of r.env)
        ≤ length (environment_of env) + most_definitions) }
    ensures refused { IfErr result (λ fault. RefusesScopes (environment_of env)
        (surface_of surface.now) fault) }
{
    check_faults(alloc, surface, &env)?;
    let raw = build(alloc, surface, env)?;
    Ok(raw)
}

// Whether the surface has no fault, or its first.
fn check_faults(alloc: Global, surface: &Surface, env: &Env) -> Result<(), ScopeFault>
    ensures sound { OnOk result (surface_fault sha256 (environment_of env.now) (surface_of
        surface.now)
        ≡ None) }
    ensures refused { IfErr result (λ fault. RefusesScopes (environment_of env.now) (surface_of
        surface.now)
        fault) }
{
    let found = scope_fault(alloc, surface, env)?;
    match found {
        None => Ok(()),
        Some(fault) => Err(refusal(fault)),
    }
}

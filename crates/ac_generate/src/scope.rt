// The variables around a term.

ghost use Rattle.std.specs.Prelude.{◌≡◌, ◌++◌, ◌∷◌, map, reverse, OnOk, IfOk};
ghost use Rattle.ac_types.specs.ReadTypes.{typ_of};
ghost use Rattle.ac_types.specs.Types.{TFun};
ghost use Rattle.ac_terms.specs.Read.{pattern_of};
ghost use Rattle.ac_terms.specs.Terms.{patterns};
ghost use Rattle.ac_terms.specs.Parts.{pattern_types, all_pattern_types};
ghost use Rattle.ac_code.specs.Contexts.{context_of};

use ac_code::Context;
use ac_terms::Pat;
use ac_types::{Many, Memory, Ty, both, function_type};
use std::alloc::Global;

/// The context inside of one variable more.
pub fn with_one(alloc: Global, scope: &Context, ty: &Ty) -> Result<Context, Memory>
    ensures { IfOk result (λ c. context_of c ≡ typ_of ty.now ∷ context_of scope.now) }
{
    let ty = ty.copy(alloc)?;
    within(alloc, scope, ty)
}

/// The context inside of a variable for a function of these types.
pub fn with_function(alloc: Global, scope: &Context, from: &Ty, to: &Ty) -> Result<Context, Memory>
    ensures { IfOk result (λ c. context_of c ≡ TFun (typ_of from.now) (typ_of to.now) ∷
        context_of scope.now) }
{
    let (from, to) = both(from.copy(alloc), to.copy(alloc))?;
    let context = within(alloc, scope, function_type(alloc, from, to)?)?;
    Ok(context)
}

// The context inside of one variable more, of that type.
fn within(alloc: Global, scope: &Context, ty: Ty) -> Result<Context, Memory>
    ensures { IfOk result (λ c. context_of c ≡ typ_of ty ∷ context_of scope.now) }
{
    let mut types = Vec::with_capacity(alloc, 1)?;
    types.push(ty)?;
    let context = scope.with(alloc, Many::from_vec(types))?;
    Ok(context)
}

/// The context inside of more variables, of which the last is the newest.
#[tactic(auto, using(crate::proofs::WriterLaws::scope_laws))]
pub fn with_all(alloc: Global, scope: &Context, types: Vec<Ty>) -> Result<Context, Memory>
    ensures { IfOk result (λ c. context_of c ≡ reverse (map typ_of types.items) ++ context_of
        scope.now) }
{
    let mut types = types;
    types.reverse();
    let context = scope.with(alloc, Many::from_vec(types))?;
    Ok(context)
}

/// The types of a pattern's variables, from left to right.
#[tactic(auto, using(crate::proofs::WriterLaws::pattern_laws))]
pub fn pattern_types(alloc: Global, pat: &Pat) -> Result<Vec<Ty>, Memory>
    ensures { IfOk result (λ v. map typ_of v.items ≡ pattern_types (pattern_of pat.now)) }
{
    let mut types = Vec::new(alloc);
    add_variables(alloc, pat, &mut types)?;
    Ok(types)
}

// Appends the types of a pattern's variables.
#[cycle(variables)]
#[tactic(auto, using(crate::proofs::WriterLaws::pattern_laws))]
fn add_variables(alloc: Global, pat: &Pat, types: &mut Vec<Ty>) -> Result<(), Memory>
    ensures { OnOk result (map typ_of types.new.items ≡ map typ_of types.old.items ++ pattern_types
        (pattern_of pat.now)) }
{
    match pat {
        Pat::Var(ty) => {
            types.push(ty.copy(alloc)?)?;
            Ok(())
        }
        Pat::Tuple(parts) => add_all_variables(alloc, parts.as_slice(), types),
        Pat::Cons(head, tail) => {
            add_variables(alloc, head, types)?;
            add_variables(alloc, tail, types)
        }
        Pat::Present(inner) => add_variables(alloc, inner, types),
        Pat::ExnOf(_, inner) => add_variables(alloc, inner, types),
        Pat::Exn(_) => Ok(()),
        Pat::Wild => Ok(()),
        Pat::Int(_) => Ok(()),
        Pat::Bool(_) => Ok(()),
        Pat::Str(_) => Ok(()),
        Pat::Unit => Ok(()),
        Pat::Nil => Ok(()),
        Pat::Absent => Ok(()),
    }
}

#[cycle(variables)]
#[tactic(auto, using(crate::proofs::WriterLaws::pattern_laws))]
fn add_all_variables(alloc: Global, pats: &[Pat], types: &mut Vec<Ty>) -> Result<(), Memory>
    ensures { OnOk result (map typ_of types.new.items ≡ map typ_of
        types.old.items ++ all_pattern_types (patterns (map pattern_of pats.now))) }
{
    for pat in pats {
        add_variables(alloc, pat, types)?;
    }
    Ok(())
}

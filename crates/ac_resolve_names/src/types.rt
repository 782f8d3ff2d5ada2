// Types, written out.

ghost use Rattle.std.specs.Prelude.{◌≡◌, map, IfOk};
ghost use Rattle.ac_types.specs.Types.{TFun, typs};
ghost use Rattle.ac_types.specs.ReadTypes.{typ_of};
ghost use Rattle.ac_syntax.specs.Trees.{type_trees};
ghost use Rattle.ac_syntax.specs.ReadTrees.{type_tree_of};
ghost use Rattle.ac_resolve_scopes.specs.Written.{type_in, types_in};
ghost use Rattle.ac_resolve_names.specs.Fronts.{scope_of};

use crate::outer::Scope;
use ac_syntax::{SType, STypeKind};
use ac_types::{Boxed, Many, Memory, Ty, both};
use std::alloc::Global;

/// The type that a tree writes in a scope.
#[cycle(ty)]
#[tactic(auto, using(crate::proofs::TypeForms::type_forms))]
pub fn ty(alloc: Global, tree: &SType, scope: &Scope) -> Result<Ty, Memory>
    ensures { IfOk result (λ t. typ_of t ≡ type_in (scope_of scope.now) (type_tree_of tree.now)) }
{
    match &tree.kind {
        STypeKind::Int => Ok(Ty::Int),
        STypeKind::Bool => Ok(Ty::Bool),
        STypeKind::Str => Ok(Ty::Str),
        STypeKind::Unit => Ok(Ty::Unit),
        STypeKind::Exn => Ok(Ty::Exn),
        STypeKind::Local(t) => scope.plain_type(alloc, t),
        STypeKind::Of(m, t) => scope.dotted_type(alloc, &m.word, &t.word),
        STypeKind::Tuple(parts) => tys(alloc, parts.as_slice(), scope).map(Ty::Tuple),
        STypeKind::List(item) => boxed(alloc, item, scope).map(Ty::List),
        STypeKind::Opt(item) => boxed(alloc, item, scope).map(Ty::Opt),
        STypeKind::Fun(from, to) => {
            both(boxed(alloc, from, scope), boxed(alloc, to, scope)).map(|(from, to)| Ty::Fun(
                from, to,
            ))
        }
    }
}

#[cycle(ty)]
fn boxed(alloc: Global, tree: &SType, scope: &Scope) -> Result<Boxed<Ty>, Memory>
    ensures { IfOk result (λ t. typ_of t ≡ type_in (scope_of scope.now) (type_tree_of tree.now)) }
{
    Boxed::new(alloc, ty(alloc, tree, scope)?)
}

#[cycle(ty)]
fn tys(alloc: Global, trees: &[SType], scope: &Scope) -> Result<Many<Ty>, Memory>
    ensures { IfOk result (λ ts. typs (map typ_of ts) ≡ types_in (scope_of scope.now) (type_trees
        (map type_tree_of trees.now))) }
{
    let mut found = Many::new(alloc);
    for tree in trees {
        let made = ty(alloc, tree, scope)?;
        found.push(made)?;
    }
    Ok(found)
}

/// The type of a function from one type that is written to another.
#[tactic(auto, using(crate::proofs::TypeForms::type_forms))]
pub fn fun_ty(alloc: Global, from: &SType, to: &SType, scope: &Scope) -> Result<Ty, Memory>
    ensures { IfOk result (λ t. typ_of t ≡ TFun (type_in (scope_of scope.now)
        (type_tree_of from.now))
        (type_in (scope_of scope.now) (type_tree_of to.now))) }
{
    both(boxed(alloc, from, scope), boxed(alloc, to, scope)).map(|(from, to)| Ty::Fun(from, to))
}

// The patterns that trees become, and the variables that they bind.

ghost use Rattle.std.specs.Prelude.{◌≡◌, ◌++◌, ◌∷◌, [], map, IfOk};
ghost use Rattle.ac_terms.specs.Terms.{patterns};
ghost use Rattle.ac_terms.specs.Read.{pattern_of};
ghost use Rattle.ac_syntax.specs.Trees.{pat_trees};
ghost use Rattle.ac_syntax.specs.ReadTrees.{name_of, pat_of};
ghost use Rattle.ac_resolve_scopes.specs.Written.{pattern_in, patterns_in, pattern_names, pattern_names_of_all};
ghost use Rattle.ac_resolve_names.specs.Fronts.{scope_of};

use ac_resolve_names::{Scope, ty};
use ac_syntax::{SName, SPat, SPatKind};
use ac_terms::Pat;
use ac_types::{Boxed, Many, Memory, both};
use std::alloc::Global;

/// The pattern of a tree in a scope.
#[cycle(pattern)]
#[tactic(auto, using(crate::proofs::PatternForms::pattern_forms))]
pub fn pattern_in(alloc: Global, tree: &SPat, scope: &Scope) -> Result<Pat, Memory>
    ensures { IfOk result (λ p. pattern_of p ≡ pattern_in (scope_of scope.now) (pat_of
        tree.now)) }
{
    match &tree.kind {
        SPatKind::Wild => Ok(Pat::Wild),
        SPatKind::Var(_, tree) => ty(alloc, tree, scope).map(Pat::Var),
        SPatKind::Int(n) => Ok(Pat::Int(*n)),
        SPatKind::Bool(b) => Ok(Pat::Bool(*b)),
        SPatKind::Str(text) => text.copy(alloc).map(Pat::Str),
        SPatKind::Unit => Ok(Pat::Unit),
        SPatKind::Tuple(parts) => all(alloc, parts.as_slice(), scope).map(Pat::Tuple),
        SPatKind::Nil => Ok(Pat::Nil),
        SPatKind::Cons(head, tail) => {
            both(boxed(alloc, head, scope), boxed(alloc, tail, scope)).map(|(head, tail)| Pat::Cons(
                head, tail,
            ))
        }
        SPatKind::Absent => Ok(Pat::Absent),
        SPatKind::Present(item) => boxed(alloc, item, scope).map(Pat::Present),
        SPatKind::Exn(exn) => Ok(Pat::Exn(*exn)),
        SPatKind::ExnOf(exn, item) => {
            boxed(alloc, item, scope).map(|item| Pat::ExnOf(*exn, item))
        }
    }
}

#[cycle(pattern)]
fn boxed(alloc: Global, tree: &SPat, scope: &Scope) -> Result<Boxed<Pat>, Memory>
    ensures { IfOk result (λ p. pattern_of p ≡ pattern_in (scope_of scope.now) (pat_of
        tree.now)) }
{
    Boxed::new(alloc, pattern_in(alloc, tree, scope)?)
}

#[cycle(pattern)]
fn all(alloc: Global, trees: &[SPat], scope: &Scope) -> Result<Many<Pat>, Memory>
    ensures { IfOk result (λ ps. patterns (map pattern_of ps) ≡ patterns_in (scope_of scope.now)
        (pat_trees
        (map pat_of trees.now))) }
{
    let mut found = Many::new(alloc);
    for tree in trees {
        let made = pattern_in(alloc, tree, scope)?;
        found.push(made)?;
    }
    Ok(found)
}

/// The variables of a pattern, from left to right.
pub fn pattern_names(alloc: Global, tree: &SPat) -> Result<Many<SName>, Memory>
    ensures { IfOk result (λ names. map name_of names ≡ pattern_names (pat_of tree.now)) }
{
    add_variables(alloc, tree, Many::new(alloc))
}

// These names, and behind them the variables of a pattern.
#[cycle(add_variables)]
#[tactic(auto, using(crate::proofs::PatternForms::pat_tree_forms))]
fn add_variables(alloc: Global, tree: &SPat, found: Many<SName>) -> Result<Many<SName>, Memory>
    ensures { IfOk result (λ names.
        map name_of names ≡ map name_of found ++ pattern_names (pat_of tree.now)) }
{
    match &tree.kind {
        SPatKind::Wild => Ok(found),
        SPatKind::Var(name, _) => with_name(alloc, found, name),
        SPatKind::Int(_) => Ok(found),
        SPatKind::Bool(_) => Ok(found),
        SPatKind::Str(_) => Ok(found),
        SPatKind::Unit => Ok(found),
        SPatKind::Tuple(parts) => add_variables_of_all(alloc, parts.as_slice(), found),
        SPatKind::Nil => Ok(found),
        SPatKind::Cons(head, tail) => {
            let found = add_variables(alloc, head, found)?;
            add_variables(alloc, tail, found)
        }
        SPatKind::Absent => Ok(found),
        SPatKind::Present(item) => add_variables(alloc, item, found),
        SPatKind::Exn(_) => Ok(found),
        SPatKind::ExnOf(_, item) => add_variables(alloc, item, found),
    }
}

#[cycle(add_variables)]
fn add_variables_of_all(
    alloc: Global,
    trees: &[SPat],
    found: Many<SName>,
) -> Result<Many<SName>, Memory>
    ensures { IfOk result (λ names.
        map name_of names
        ≡ map name_of found ++ pattern_names_of_all (pat_trees (map pat_of trees.now))) }
{
    let mut names = found;
    for tree in trees {
        let more = add_variables(alloc, tree, names)?;
        names = more;
    }
    Ok(names)
}

// These names, and behind them this one.
fn with_name(alloc: Global, found: Many<SName>, name: &SName) -> Result<Many<SName>, Memory>
    ensures { IfOk result (λ names.
        map name_of names ≡ map name_of found ++ (name_of name.now ∷ [])) }
{
    let mut names = found;
    let at = name.at;
    let word = name.word.copy(alloc)?;
    names.push(SName { at, word })?;
    Ok(names)
}

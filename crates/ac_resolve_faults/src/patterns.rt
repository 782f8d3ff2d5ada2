// Why patterns are refused for their names and counts, and the variables that they bind.

ghost use Rattle.std.specs.Prelude.{◌≡◌, ◌++◌, map, IfOk, OnOk};
ghost use Rattle.ac_syntax.specs.Trees.{pat_trees};
ghost use Rattle.ac_syntax.specs.ReadTrees.{pat_of};
ghost use Rattle.ac_resolve_scopes.specs.Written.{pattern_names, pattern_names_of_all};
ghost use Rattle.ac_resolve_faults.specs.inner.PatFlaws.{pat_flaws, pats_flaws};
ghost use Rattle.ac_resolve_signatures.specs.Reads.{known_in, named};

use ac_resolve_signatures::{Flaws, Named, Scan, type_flaws};
use ac_syntax::{SPat, SPatKind};
use ac_types::Memory;
use ac_types::limits::WIDEST_TUPLE;
use std::alloc::Global;

/// What is wrong with a pattern, but for its repetitions.
#[cycle(pat_flaws)]
#[tactic(auto, using(crate::proofs::Forms::pat_forms))]
pub fn pat_flaws<'a>(tree: &'a SPat, scan: &Scan<'_, 'a>) -> Flaws
    ensures { result ≡ pat_flaws (known_in scan.now) (pat_of tree.now) }
{
    match &tree.kind {
        SPatKind::Wild => Flaws::none(),
        SPatKind::Var(_, ty) => type_flaws(ty, scan),
        SPatKind::Int(_) => Flaws::none(),
        SPatKind::Bool(_) => Flaws::none(),
        SPatKind::Str(_) => Flaws::none(),
        SPatKind::Unit => Flaws::none(),
        SPatKind::Tuple(parts) => {
            let width = Flaws::counted(WIDEST_TUPLE as u32, parts.len());
            width.join(pats_flaws(parts.as_slice(), scan))
        }
        SPatKind::Nil => Flaws::none(),
        SPatKind::Cons(head, tail) => pat_flaws(head, scan).join(pat_flaws(tail, scan)),
        SPatKind::Absent => Flaws::none(),
        SPatKind::Present(item) => pat_flaws(item, scan),
        SPatKind::Exn(_) => Flaws::none(),
        SPatKind::ExnOf(_, item) => pat_flaws(item, scan),
    }
}

#[cycle(pat_flaws)]
fn pats_flaws<'a>(trees: &'a [SPat], scan: &Scan<'_, 'a>) -> Flaws
    ensures { result ≡ pats_flaws (known_in scan.now) (pat_trees (map pat_of trees.now)) }
{
    let mut found = Flaws::none();
    for tree in trees {
        let here = pat_flaws(tree, scan);
        found = found.join(here);
    }
    found
}

/// The variables of a pattern, from left to right.
pub fn named_variables<'a>(alloc: Global, tree: &'a SPat) -> Result<Vec<Named<'a>>, Memory>
    ensures { IfOk result (λ names. map named names.items ≡ pattern_names (pat_of tree.now)) }
{
    let mut names = Vec::new(alloc);
    add_variables(tree, &mut names)?;
    Ok(names)
}

// Appends the variables of a pattern.
#[cycle(add_variables)]
#[tactic(auto, using(crate::proofs::Forms::pat_forms))]
fn add_variables<'a>(tree: &'a SPat, names: &mut Vec<Named<'a>>) -> Result<(), Memory>
    ensures { OnOk result (map named names.new.items ≡ map named names.old.items ++ pattern_names
        (pat_of tree.now)) }
{
    match &tree.kind {
        SPatKind::Wild => Ok(()),
        SPatKind::Var(name, _) => {
            names.push(Named::of(name))?;
            Ok(())
        }
        SPatKind::Int(_) => Ok(()),
        SPatKind::Bool(_) => Ok(()),
        SPatKind::Str(_) => Ok(()),
        SPatKind::Unit => Ok(()),
        SPatKind::Tuple(parts) => add_variables_of_all(parts.as_slice(), names),
        SPatKind::Nil => Ok(()),
        SPatKind::Cons(head, tail) => {
            add_variables(head, names)?;
            add_variables(tail, names)
        }
        SPatKind::Absent => Ok(()),
        SPatKind::Present(item) => add_variables(item, names),
        SPatKind::Exn(_) => Ok(()),
        SPatKind::ExnOf(_, item) => add_variables(item, names),
    }
}

#[cycle(add_variables)]
fn add_variables_of_all<'a>(trees: &'a [SPat], names: &mut Vec<Named<'a>>) -> Result<(), Memory>
    ensures { OnOk result (map named names.new.items
        ≡ map named names.old.items ++ pattern_names_of_all (pat_trees (map pat_of trees.now))) }
{
    for tree in trees {
        add_variables(tree, names)?;
    }
    Ok(())
}

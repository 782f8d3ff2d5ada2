// Expressions.

ghost use Rattle.std.specs.Prelude.{◌≡◌, ◌∷◌, [], map, IfOk};
ghost use Rattle.ac_syntax.specs.Trees.{trees, arm_trees};
ghost use Rattle.ac_syntax.specs.ReadTrees.{tree_of, arm_tree_of, type_tree_of, pat_of};
ghost use Rattle.ac_resolve_scopes.specs.Written.{pattern_names};
ghost use Rattle.ac_resolve_scopes.specs.Repeated.{repeated_name};
ghost use Rattle.ac_resolve_signatures.specs.Joined.{flaws_joined, repeats, missing};
ghost use Rattle.ac_resolve_faults.specs.inner.Joining.{JoinsTyped};
ghost use Rattle.ac_resolve_faults.specs.inner.PatFlaws.{pat_flaws};
ghost use Rattle.ac_resolve_faults.specs.inner.ExprFlaws.{leaf_flaws, variable_flaws, flaws, flaws_of_all, arm_flaws, flaws_of_arms};
ghost use Rattle.ac_resolve_signatures.specs.NameFlaws.{dotted_flaws};
ghost use Rattle.ac_resolve_signatures.specs.Reads.{known_in, named};
ghost use Rattle.ac_resolve_faults.specs.inner.Variables.{variables_in};

use crate::joining::{behind, join_results};
use crate::patterns::{named_variables, pat_flaws};
use crate::scope::{VariableScope, depth, is_bound};
use ac_resolve_signatures::{Flaws, Named, Scan, dotted_flaws, repeated_name, type_flaws};
use ac_syntax::{SArm, SExpr, SExprKind, SName, SPat, SType};
use ac_types::limits::{MOST_ARMS, MOST_VARIABLES, WIDEST_TUPLE};
use ac_types::{Memory, Word};
use std::alloc::Global;

// What is wrong with a leaf: too many variables may be in scope.
#[tactic(auto, using(ac_resolve_signatures::proofs::Counted::over_laws))]
fn leaf(scope: &VariableScope) -> Flaws
    ensures { result ≡ leaf_flaws (variables_in scope.now) }
{
    Flaws::counted(MOST_VARIABLES, depth(scope))
}

// What is wrong with a variable or a field.
fn variable<'a>(at: u32, word: &'a Word, scan: &Scan<'_, 'a>, scope: &VariableScope) -> Flaws
    ensures { result ≡ variable_flaws (known_in scan.now) (variables_in scope.now) at word.now }
{
    if is_bound(scope, word) || scan.has_field(word) {
        return Flaws::none();
    }
    Flaws::missing(Some(at))
}

/// What is wrong with an expression under the variables in scope.
#[cycle(flaws)]
#[tactic(auto, using(crate::proofs::Forms::flaw_forms))]
pub fn flaws<'s, 'a>(
    alloc: Global,
    tree: &'a SExpr,
    scan: &Scan<'_, 'a>,
    scope: &'s VariableScope<'s, 'a>,
) -> Result<Flaws, Memory>
    ensures { IfOk result (λ f. f ≡ flaws (known_in scan.now) (variables_in scope.now)
        (tree_of tree.now)) }
{
    match &tree.kind {
        SExprKind::Int(_) => Ok(leaf(scope)),
        SExprKind::Bool(_) => Ok(leaf(scope)),
        SExprKind::Str(_) => Ok(leaf(scope)),
        SExprKind::Unit => Ok(leaf(scope)),
        SExprKind::Exn(_) => Ok(leaf(scope)),
        SExprKind::ExnOf(_, argument) => flaws(alloc, argument, scan, scope),
        SExprKind::Tuple(parts) => {
            let width = Flaws::counted(WIDEST_TUPLE as u32, parts.len());
            behind(width, all(alloc, parts.as_slice(), scan, scope))
        },
        SExprKind::Nil(ty) => Ok(type_flaws(ty, scan).join(leaf(scope))),
        SExprKind::Absent(ty) => Ok(type_flaws(ty, scan).join(leaf(scope))),
        SExprKind::Present(item) => flaws(alloc, item, scan, scope),
        SExprKind::Cons(head, tail) => {
            join_results(
                flaws(alloc, head, scan, scope),
                flaws(alloc, tail, scan, scope),
            )
        }
        SExprKind::Var(word) => Ok(variable(tree.at, word, scan, scope).join(leaf(scope))),
        SExprKind::Of(owner, name) => Ok(dotted_flaws(owner, name, scan).join(leaf(scope))),
        SExprKind::Fun(name, ty, body) => {
            behind(type_flaws(ty, scan), under(alloc, body, name, scan, scope))
        }
        SExprKind::Rec(fun) => {
            let inner = in_fun(alloc, &fun.body, &fun.name, &fun.arg, scan, scope);
            with_types(&fun.ty, &fun.result, scan, inner)
        }
        SExprKind::App(function, argument) => {
            join_results(
                flaws(alloc, function, scan, scope),
                flaws(alloc, argument, scan, scope),
            )
        }
        SExprKind::Let(name, ty, bound, body) => {
            let inner = join_results(
                flaws(alloc, bound, scan, scope),
                under(alloc, body, name, scan, scope),
            );
            behind(type_flaws(ty, scan), inner)
        }
        SExprKind::LetRec(fun, body) => {
            let bound = in_fun(alloc, &fun.body, &fun.name, &fun.arg, scan, scope);
            let inner = join_results(bound, under(alloc, body, &fun.name, scan, scope));
            with_types(&fun.ty, &fun.result, scan, inner)
        }
        SExprKind::If(test, so, otherwise) => {
            let ways = join_results(
                flaws(alloc, so, scan, scope),
                flaws(alloc, otherwise, scan, scope),
            );
            join_results(flaws(alloc, test, scan, scope), ways)
        }
        SExprKind::Seq(parts) => all(alloc, parts.as_slice(), scan, scope),
        SExprKind::Match(of, cases) => {
            let inner = join_results(
                flaws(alloc, of, scan, scope),
                arms(alloc, cases.as_slice(), scan, scope),
            );
            behind(Flaws::counted(MOST_ARMS as u32, cases.len()), inner)
        }
        SExprKind::Try(of, cases) => {
            let inner = join_results(
                flaws(alloc, of, scan, scope),
                arms(alloc, cases.as_slice(), scan, scope),
            );
            behind(Flaws::counted(MOST_ARMS as u32, cases.len()), inner)
        }
        SExprKind::Raise(exception, ty) => {
            behind(type_flaws(ty, scan), flaws(alloc, exception, scan, scope))
        }
        SExprKind::And(left, right) => {
            join_results(
                flaws(alloc, left, scan, scope),
                flaws(alloc, right, scan, scope),
            )
        }
        SExprKind::Or(left, right) => {
            join_results(
                flaws(alloc, left, scan, scope),
                flaws(alloc, right, scan, scope),
            )
        }
        SExprKind::Op(_, parts) => all(alloc, parts.as_slice(), scan, scope),
        SExprKind::Marshal(mark, value, ty) => {
            let inner = join_results(
                flaws(alloc, mark, scan, scope),
                flaws(alloc, value, scan, scope),
            );
            behind(type_flaws(ty, scan), inner)
        }
        SExprKind::Unmarshal(text, ty) => behind(
            type_flaws(ty, scan),
            flaws(alloc, text, scan, scope),
        ),
    }
}

// What is wrong with a body that sees one more variable.
#[cycle(flaws)]
#[tactic(auto, using(crate::proofs::Scoping::scope_laws))]
fn under<'s, 'a>(
    alloc: Global,
    body: &'a SExpr,
    name: &'a SName,
    scan: &Scan<'_, 'a>,
    scope: &'s VariableScope<'s, 'a>,
) -> Result<Flaws, Memory>
    ensures { IfOk result (λ f. f ≡ flaws (known_in scan.now)
        (name.now.word ∷ variables_in scope.now) (tree_of body.now)) }
{
    let inner = VariableScope::Inner(scope, name);
    flaws(alloc, body, scan, &inner)
}

// What is wrong with the body of a function with a name, which sees the function and its argument.
#[cycle(flaws)]
#[tactic(auto, using(crate::proofs::Scoping::scope_laws))]
fn in_fun<'s, 'a>(
    alloc: Global,
    body: &'a SExpr,
    name: &'a SName,
    argument: &'a SName,
    scan: &Scan<'_, 'a>,
    scope: &'s VariableScope<'s, 'a>,
) -> Result<Flaws, Memory>
    ensures { IfOk result (λ f. f ≡ flaws (known_in scan.now)
        (argument.now.word ∷ name.now.word ∷ variables_in scope.now)
        (tree_of body.now)) }
{
    let outer = VariableScope::Inner(scope, name);
    under(alloc, body, argument, scan, &outer)
}

// What is wrong with the types of a function with a name, and with what sees it.
fn with_types<'a>(
    ty: &'a SType,
    to: &'a SType,
    scan: &Scan<'_, 'a>,
    inner: Result<Flaws, Memory>,
) -> Result<Flaws, Memory>
    ensures { IfOk result (λ f. JoinsTyped (known_in scan.now) (type_tree_of ty.now)
        (type_tree_of to.now)
        inner f) }
{
    let inner = inner?;
    Ok(type_flaws(ty, scan).join(type_flaws(to, scan).join(inner)))
}

#[cycle(flaws)]
fn all<'s, 'a>(
    alloc: Global,
    parts: &'a [SExpr],
    scan: &Scan<'_, 'a>,
    scope: &'s VariableScope<'s, 'a>,
) -> Result<Flaws, Memory>
    ensures { IfOk result (λ f. f ≡ flaws_of_all (known_in scan.now) (variables_in scope.now)
        (trees (map tree_of parts.now))) }
{
    let mut found = Flaws::none();
    for tree in parts {
        let here = flaws(alloc, tree, scan, scope)?;
        found = found.join(here);
    }
    Ok(found)
}

#[cycle(flaws)]
fn arms<'s, 'a>(
    alloc: Global,
    cases: &'a [SArm],
    scan: &Scan<'_, 'a>,
    scope: &'s VariableScope<'s, 'a>,
) -> Result<Flaws, Memory>
    ensures { IfOk result (λ f. f ≡ flaws_of_arms (known_in scan.now) (variables_in scope.now)
        (arm_trees (map arm_tree_of cases.now))) }
{
    let mut found = Flaws::none();
    for case in cases {
        let here = arm(alloc, case, scan, scope)?;
        found = found.join(here);
    }
    Ok(found)
}

// What is wrong with an arm, whose body sees the pattern's variables.
#[cycle(flaws)]
#[tactic(auto, using(crate::proofs::Forms::arm_forms))]
fn arm<'s, 'a>(
    alloc: Global,
    case: &'a SArm,
    scan: &Scan<'_, 'a>,
    scope: &'s VariableScope<'s, 'a>,
) -> Result<Flaws, Memory>
    ensures { IfOk result (λ f. f ≡ arm_flaws (known_in scan.now) (variables_in scope.now)
        (arm_tree_of case.now)) }
{
    let names = named_variables(alloc, &case.pat)?;
    let pattern = pattern(alloc, &case.pat, names.as_slice(), scan)?;
    let inner = VariableScope::Arm(&*scope, names.as_slice());
    let body = flaws(alloc, &case.body, scan, &inner)?;
    Ok(pattern.join(body))
}

// What is wrong with a pattern that has these variables.
fn pattern<'a>(
    alloc: Global,
    tree: &'a SPat,
    names: &[Named],
    scan: &Scan<'_, 'a>,
) -> Result<Flaws, Memory>
    requires { map named names.now ≡ pattern_names (pat_of tree.now) }
    ensures { IfOk result (λ f. f ≡ flaws_joined (pat_flaws (known_in scan.now) (pat_of tree.now))
        (repeats (repeated_name [] (pattern_names (pat_of tree.now))))) }
{
    let again = repeated_name(alloc, names)?;
    Ok(pat_flaws(tree, scan).join(Flaws::repeated(again)))
}

// From trees to core terms.

ghost use Rattle.std.specs.Prelude.{◌≡◌, ◌∷◌, [], map, None, option_map, IfOk};
ghost use Rattle.ac_terms.specs.Terms.{exprs, arms};
ghost use Rattle.ac_terms.specs.Read.{expr_of, arm_of};
ghost use Rattle.ac_syntax.specs.Trees.{trees, arm_trees};
ghost use Rattle.ac_syntax.specs.ReadTrees.{tree_of, arm_tree_of, type_tree_of, name_of};
ghost use Rattle.ac_resolve_scopes.specs.Scopes.{with_variables};
ghost use Rattle.ac_resolve_scopes.specs.Written.{pattern_in, in_function, in_arm, primitive_at, term_in, terms_in, arms_in};
ghost use Rattle.ac_resolve_scopes.specs.Searches.{found, found_in_all, found_in_arms};
ghost use Rattle.ac_resolve_names.specs.Primitives.{read_primitive};
ghost use Rattle.ac_resolve_names.specs.Fronts.{scope_of};
ghost use Rattle.ac_resolve_terms.specs.inner.Crowd.{crowd};
ghost use Rattle.ac_resolve_terms.specs.inner.Joining.{RecOf, AppliedOf, ChoiceOf, LetOf, MarshalOf};

use crate::patterns::{pattern_in, pattern_names};
use ac_resolve_names::{NamedPrimitive, Scope, fun_ty, named, ty};
use ac_syntax::{SArm, SExpr, SExprKind, SName, SType};
use ac_terms::{Arm, Term};
use ac_types::{Boxed, Many, Memory, Ty, both};
use std::alloc::Global;

// The primitive that a tree names.
#[tactic(auto, using(ac_syntax::proofs::ReadLaws::expr_laws))]
fn primitive_at(tree: &SExpr) -> Option<NamedPrimitive>
    ensures { option_map read_primitive result ≡ primitive_at (tree_of tree.now) }
{
    match &tree.kind {
        SExprKind::Of(owner, name) => named(&owner.word, &name.word),
        _ => None,
    }
}

// An application; an applied primitive takes its argument.
#[tactic(auto, using(crate::proofs::TermLaws::made_laws))]
fn applied(
    alloc: Global,
    primitive: Option<NamedPrimitive>,
    function: Result<Boxed<Term>, Memory>,
    argument: Result<Boxed<Term>, Memory>,
) -> Result<Term, Memory>
    ensures { IfOk result (λ t. AppliedOf (option_map read_primitive primitive) function
        argument t) }
{
    let (function, argument) = both(function, argument)?;
    match primitive {
        Some(found) => {
            let term = found.at(alloc, Boxed::into_inner(argument))?;
            Ok(term)
        }
        None => Ok(Term::App(function, argument)),
    }
}

// A choice.
#[tactic(auto, using(crate::proofs::TermLaws::made_laws))]
fn choice(
    test: Result<Boxed<Term>, Memory>,
    so: Result<Boxed<Term>, Memory>,
    otherwise: Result<Boxed<Term>, Memory>,
) -> Result<Term, Memory>
    ensures { IfOk result (λ t. ChoiceOf test so otherwise t) }
{
    let (test, (so, otherwise)) = both(test, both(so, otherwise))?;
    Ok(Term::If(test, so, otherwise))
}

// A term that is bound in a body.
#[tactic(auto, using(crate::proofs::TermLaws::made_laws))]
fn let_in(
    ty: Result<Ty, Memory>,
    bound: Result<Boxed<Term>, Memory>,
    body: Result<Boxed<Term>, Memory>,
) -> Result<Term, Memory>
    ensures { IfOk result (λ t. LetOf ty bound body t) }
{
    let (ty, (bound, body)) = both(ty, both(bound, body))?;
    Ok(Term::Let(ty, bound, body))
}

// A value of a type that is marshalled under a mark.
#[tactic(auto, using(crate::proofs::TermLaws::made_laws))]
fn marshal(
    ty: Result<Ty, Memory>,
    mark: Result<Boxed<Term>, Memory>,
    value: Result<Boxed<Term>, Memory>,
) -> Result<Term, Memory>
    ensures { IfOk result (λ t. MarshalOf ty mark value t) }
{
    let (ty, (mark, value)) = both(ty, both(mark, value))?;
    Ok(Term::Marshal(ty, mark, value))
}

/// The term of a tree in a scope.
#[cycle(term)]
#[tactic(auto, using(crate::proofs::Terms::term_forms))]
pub fn term_in<'a>(alloc: Global, tree: &'a SExpr, scope: &'a Scope<'a>) -> Result<Term, Memory>
    requires { found crowd (scope_of scope.now) (tree_of tree.now) ≡ None }
    ensures { IfOk result (λ t. expr_of t ≡ term_in (scope_of scope.now) (tree_of tree.now)) }
{
    match &tree.kind {
        SExprKind::Int(n) => Ok(Term::Int(*n)),
        SExprKind::Bool(b) => Ok(Term::Bool(*b)),
        SExprKind::Str(text) => text.copy(alloc).map(Term::Str),
        SExprKind::Unit => Ok(Term::Unit),
        SExprKind::Exn(exn) => Ok(Term::ExnVal(*exn)),
        SExprKind::ExnOf(exn, argument) => {
            boxed(alloc, argument, scope).map(|argument| Term::ExnOf(*exn, argument))
        }
        SExprKind::Tuple(parts) => all(alloc, parts.as_slice(), scope).map(Term::Tuple),
        SExprKind::Nil(tree) => ty(alloc, tree, scope).map(Term::Nil),
        SExprKind::Absent(tree) => ty(alloc, tree, scope).map(Term::Empty),
        SExprKind::Present(item) => boxed(alloc, item, scope).map(Term::Present),
        SExprKind::Cons(head, tail) => both(
            boxed(alloc, head, scope),
            boxed(alloc, tail, scope),
        ).map(|(head, tail)| Term::Cons(head, tail)),
        SExprKind::Var(word) => Ok(scope.plain_value(word)),
        SExprKind::Of(owner, name) => scope.dotted_value(alloc, &owner.word, &name.word),
        SExprKind::Fun(name, tree, body) => both(
            ty(alloc, tree, scope),
            under(alloc, body, name, scope),
        ).map(|(ty, body)| Term::Lam(ty, body)),
        SExprKind::Rec(fun) => {
            let body = in_fun(alloc, &fun.body, &fun.name, &fun.arg, scope);
            rec(alloc, &fun.ty, &fun.result, scope, body)
        }
        SExprKind::App(function, argument) => applied(
            alloc,
            primitive_at(function),
            boxed(alloc, function, scope),
            boxed(alloc, argument, scope),
        ),
        SExprKind::Let(name, tree, bound, body) => let_in(
            ty(alloc, tree, scope),
            boxed(alloc, bound, scope),
            under(alloc, body, name, scope),
        ),
        SExprKind::LetRec(fun, body) => {
            let bound = in_fun(alloc, &fun.body, &fun.name, &fun.arg, scope);
            let_in(
                fun_ty(alloc, &fun.ty, &fun.result, scope),
                boxed_rec(alloc, &fun.ty, &fun.result, scope, bound),
                under(alloc, body, &fun.name, scope),
            )
        }
        SExprKind::If(test, so, otherwise) => choice(
            boxed(alloc, test, scope),
            boxed(alloc, so, scope),
            boxed(alloc, otherwise, scope),
        ),
        SExprKind::Seq(parts) => all(alloc, parts.as_slice(), scope).map(Term::Seq),
        SExprKind::Match(of, cases) => both(
            boxed(alloc, of, scope),
            arms(alloc, cases.as_slice(), scope),
        )
        .map(|(of, cases)| Term::Match(of, cases)),
        SExprKind::Try(of, cases) => both(
            boxed(alloc, of, scope),
            arms(alloc, cases.as_slice(), scope),
        )
        .map(|(of, cases)| Term::Try(of, cases)),
        SExprKind::Raise(exception, tree) => both(
            ty(alloc, tree, scope),
            boxed(alloc, exception, scope),
        ).map(|(ty, exception)| Term::Raise(ty, exception)),
        SExprKind::And(left, right) => choice(
            boxed(alloc, left, scope),
            boxed(alloc, right, scope),
            Boxed::new(alloc, Term::Bool(false)),
        ),
        SExprKind::Or(left, right) => choice(
            boxed(alloc, left, scope),
            Boxed::new(alloc, Term::Bool(true)),
            boxed(alloc, right, scope),
        ),
        SExprKind::Op(primitive, parts) => {
            all(alloc, parts.as_slice(), scope).map(|parts| Term::Prim(*primitive, parts))
        }
        SExprKind::Marshal(mark, value, tree) => marshal(
            ty(alloc, tree, scope),
            boxed(alloc, mark, scope),
            boxed(alloc, value, scope),
        ),
        SExprKind::Unmarshal(text, tree) => both(
            ty(alloc, tree, scope),
            boxed(alloc, text, scope),
        ).map(|(ty, text)| Term::Unmarshal(ty, text)),
    }
}

#[cycle(term)]
fn boxed<'a>(
    alloc: Global,
    tree: &'a Boxed<SExpr>,
    scope: &'a Scope<'a>,
) -> Result<Boxed<Term>, Memory>
    requires { found crowd (scope_of scope.now) (tree_of tree.now) ≡ None }
    ensures { IfOk result (λ t. expr_of t ≡ term_in (scope_of scope.now) (tree_of tree.now)) }
{
    Boxed::new(alloc, term_in(alloc, tree, scope)?)
}

// A body that sees one more variable.
#[cycle(term)]
fn under<'a>(
    alloc: Global,
    body: &'a Boxed<SExpr>,
    name: &'a SName,
    scope: &'a Scope<'a>,
) -> Result<Boxed<Term>, Memory>
    requires { found crowd (with_variables (name_of name.now ∷ []) (scope_of scope.now))
        (tree_of body.now) ≡ None }
    ensures { IfOk result (λ t. expr_of t ≡ term_in (with_variables (name_of name.now ∷ [])
        (scope_of scope.now))
        (tree_of body.now)) }
{
    let inner = scope.under(name);
    boxed(alloc, body, &inner)
}

// The body of a function with a name, which sees the function and its argument.
#[cycle(term)]
fn in_fun<'a>(
    alloc: Global,
    body: &'a Boxed<SExpr>,
    name: &'a SName,
    argument: &'a SName,
    scope: &'a Scope<'a>,
) -> Result<Boxed<Term>, Memory>
    requires { found crowd (in_function (name_of name.now) (name_of argument.now) (scope_of
        scope.now))
        (tree_of body.now) ≡ None }
    ensures { IfOk result (λ t. expr_of t ≡ term_in
        (in_function (name_of name.now) (name_of argument.now) (scope_of scope.now)) (tree_of
        body.now)) }
{
    let outer = scope.under(name);
    under(alloc, body, argument, &outer)
}

// A function with a name, of its types and its body.
#[tactic(auto, using(crate::proofs::TermLaws::made_laws))]
fn rec(
    alloc: Global,
    from: &SType,
    to: &SType,
    scope: &Scope,
    body: Result<Boxed<Term>, Memory>,
) -> Result<Term, Memory>
    ensures { IfOk result (λ t. RecOf (scope_of scope.now) (type_tree_of from.now)
        (type_tree_of to.now)
        body t) }
{
    let types = both(ty(alloc, from, scope), ty(alloc, to, scope));
    let (body, (from, to)) = both(body, types)?;
    Ok(Term::Rec(from, to, body))
}

// The same in a box.
fn boxed_rec(
    alloc: Global,
    from: &SType,
    to: &SType,
    scope: &Scope,
    body: Result<Boxed<Term>, Memory>,
) -> Result<Boxed<Term>, Memory>
    ensures { IfOk result (λ t. RecOf (scope_of scope.now) (type_tree_of from.now)
        (type_tree_of to.now)
        body t) }
{
    let term = rec(alloc, from, to, scope, body)?;
    Boxed::new(alloc, term)
}

#[cycle(term)]
fn all<'a>(alloc: Global, parts: &'a [SExpr], scope: &'a Scope<'a>) -> Result<Many<Term>, Memory>
    requires { found_in_all crowd (scope_of scope.now) (trees (map tree_of parts.now)) ≡ None }
    ensures { IfOk result (λ ts. exprs (map expr_of ts) ≡ terms_in (scope_of scope.now)
        (trees (map tree_of parts.now))) }
{
    let mut terms = Many::new(alloc);
    for tree in parts {
        let made = term_in(alloc, tree, scope)?;
        terms.push(made)?;
    }
    Ok(terms)
}

#[cycle(term)]
fn arms<'a>(alloc: Global, cases: &'a [SArm], scope: &'a Scope<'a>) -> Result<Many<Arm>, Memory>
    requires { found_in_arms crowd (scope_of scope.now) (arm_trees (map arm_tree_of cases.now)) ≡
        None }
    ensures { IfOk result (λ found. arms (map arm_of found) ≡ arms_in (scope_of scope.now)
        (arm_trees (map arm_tree_of cases.now))) }
{
    let mut found = Many::new(alloc);
    for case in cases {
        let made = arm(alloc, case, scope)?;
        found.push(made)?;
    }
    Ok(found)
}

// An arm, whose body sees the pattern's variables.
#[cycle(term)]
#[tactic(auto, using(ac_syntax::proofs::ReadLaws::expr_laws))]
fn arm<'a>(alloc: Global, case: &'a SArm, scope: &'a Scope<'a>) -> Result<Arm, Memory>
    requires { found crowd (in_arm (arm_tree_of case.now).0 (scope_of scope.now))
        (arm_tree_of case.now).1 ≡ None }
    ensures { IfOk result (λ a. arm_of a ≡ (
      pattern_in (scope_of scope.now) (arm_tree_of case.now).0,
      term_in (in_arm (arm_tree_of case.now).0 (scope_of scope.now)) (arm_tree_of case.now).1,
    )) }
{
    let names = pattern_names(alloc, &case.pat)?;
    let inner = (&*scope).in_arm(names.as_slice());
    both(
        pattern_in(alloc, &case.pat, scope),
        term_in(alloc, &case.body, &inner),
    )
    .map(|(pat, body)| Arm { pat, body })
}

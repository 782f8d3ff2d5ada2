// Which terms a field may have.

ghost use Rattle.std.specs.Prelude.{◌≡◌, map};
ghost use Rattle.ac_terms.specs.Terms.{exprs};
ghost use Rattle.ac_terms.specs.Read.{expr_of};
ghost use Rattle.ac_rules.specs.Modules.{is_valuable, are_valuable};

use ac_terms::Term;

/// Whether a term computes nothing, so that a field may have it.
#[cycle(valuable)]
pub fn valuable(t: &Term) -> bool
    ensures { result ≡ is_valuable (expr_of t.now) }
{
    match t {
        Term::Int(_) => true,
        Term::Bool(_) => true,
        Term::Str(_) => true,
        Term::Unit => true,
        Term::ExnVal(_) => true,
        Term::ExnOf(_, text) => valuable(text),
        Term::Tuple(parts) => are_valuable(parts.as_slice()),
        Term::Nil(_) => true,
        Term::Empty(_) => true,
        Term::Present(inner) => valuable(inner),
        Term::Cons(head, tail) => valuable(head) && valuable(tail),
        Term::Own(_) => true,
        Term::Ref(_, _) => true,
        Term::Lam(_, _) => true,
        Term::Rec(_, _, _) => true,
        Term::Var(_) => false,
        Term::App(_, _) => false,
        Term::Let(_, _, _) => false,
        Term::If(_, _, _) => false,
        Term::Seq(_) => false,
        Term::Match(_, _) => false,
        Term::Try(_, _) => false,
        Term::Raise(_, _) => false,
        Term::Prim(_, _) => false,
        Term::Marshal(_, _, _) => false,
        Term::Unmarshal(_, _) => false,
        Term::Val(_, _) => false,
    }
}

#[cycle(valuable)]
fn are_valuable(terms: &[Term]) -> bool
    ensures { result ≡ are_valuable (exprs (map expr_of terms.now)) }
{
    for t in terms {
        if !valuable(t) {
            return false;
        }
    }
    true
}

// Which abstract types are known.

ghost use Rattle.std.specs.Prelude.{◌≡◌};
ghost use Rattle.ac_types.specs.ReadTypes.{typ_of};
ghost use Rattle.ac_terms.specs.Read.{environment_of};
ghost use Rattle.ac_rules.specs.Views.{is_known, are_known};
ghost use Rattle.ac_check_views.specs.Sites.{typs_of};
ghost use Rattle.ac_check_views.specs.inner.Sizes.{are_known_in};

use ac_terms::Env;
use ac_types::{Name, Ty, Word};

#[tactic(auto, using(ac_rules::proofs::EarlierLaws::first_known))]
fn is_known(env: &Env, name: &Name, word: &Word) -> bool
    ensures { result ≡ is_known (environment_of env.now) (name.now.0, word.now) }
{
    env.declaring(name, word).is_some()
}

/// Whether each abstract type that a type mentions is known.
#[cycle(known)]
pub fn are_known(ty: &Ty, env: &Env) -> bool
    ensures { result ≡ are_known (environment_of env.now) (typ_of ty.now) }
{
    match ty {
        Ty::Tuple(parts) => all_are_known(parts.as_slice(), env),
        Ty::List(item) => are_known(item, env),
        Ty::Opt(item) => are_known(item, env),
        Ty::Fun(from, to) => are_known(from, env) && are_known(to, env),
        Ty::Abs(name, word) => is_known(env, name, word),
        Ty::Int => true,
        Ty::Bool => true,
        Ty::Str => true,
        Ty::Unit => true,
        Ty::Exn => true,
        Ty::Mine(_) => true,
    }
}

#[cycle(known)]
#[tactic(auto, using(crate::proofs::SeenLaws::known_laws))]
fn all_are_known(tys: &[Ty], env: &Env) -> bool
    ensures { result ≡ are_known_in (environment_of env.now) (typs_of tys.now) }
{
    for ty in tys {
        if !are_known(ty, env) {
            return false;
        }
    }
    true
}

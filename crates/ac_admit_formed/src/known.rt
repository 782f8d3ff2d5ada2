// Which abstract types are known.

ghost use Rattle.std.specs.Prelude.{◌≡◌, map, take};
ghost use Rattle.std.specs.List.{list_all};
ghost use Rattle.ac_types.specs.Types.{typs, mentions, mentions_of_all};
ghost use Rattle.ac_types.specs.Sigs.{is_abstract, type_under};
ghost use Rattle.ac_types.specs.ReadTypes.{typ_of, sig_type_of};
ghost use Rattle.ac_terms.specs.Read.{environment_of};
ghost use Rattle.ac_rules.specs.Views.{is_known};

use ac_terms::Env;
use ac_types::{Name, Sig, Ty, Word, spec_named};

/// Whether a signature has an abstract type of that name.
pub fn is_abstract_in(sig: &Sig, word: &Word) -> bool
    ensures { result ≡ is_abstract (type_under word.now (map sig_type_of sig.now.types)) }
{
    match spec_named(sig.types.as_slice(), word) {
        None => false,
        Some(spec) => spec.manifest.is_none(),
    }
}

// Whether one of the first entries has the abstract type of that name in its signature.
#[tactic(auto, using(ac_rules::proofs::EarlierLaws::first_known))]
fn is_known(env: &Env, before: usize, name: &Name, word: &Word) -> bool
    ensures { result ≡ is_known (take before (environment_of env.now)) (name.now.0, word.now) }
{
    match env.declaring(name, word) {
        None => false,
        Some(first) => first < before,
    }
}

/// Whether each abstract type that a type mentions is known: abstract in the signature of an entry
/// that keeps its name.
#[tactic(auto, using(crate::proofs::TypeLaws::all_entries))]
pub fn are_known_among(ty: &Ty, env: &Env) -> bool
    ensures { result ≡ list_all (is_known (environment_of env.now)) (mentions (typ_of ty.now)) }
{
    are_known_before(ty, env, env.len())
}

/// Whether each is known among the first `before` entries.
#[cycle(known)]
#[tactic(auto, using(crate::proofs::TypeLaws::type_laws))]
pub fn are_known_before(ty: &Ty, env: &Env, before: usize) -> bool
    ensures { result ≡ list_all (is_known (take before (environment_of env.now)))
        (mentions (typ_of ty.now)) }
{
    match ty {
        Ty::Tuple(parts) => all_are_known(parts.as_slice(), env, before),
        Ty::List(item) => are_known_before(item, env, before),
        Ty::Opt(item) => are_known_before(item, env, before),
        // `&`, not `&&`: one branch fewer in the proof
        Ty::Fun(from, to) => {
            are_known_before(from, env, before) & are_known_before(to, env, before)
        }
        Ty::Abs(name, word) => is_known(env, before, name, word),
        Ty::Int => true,
        Ty::Bool => true,
        Ty::Str => true,
        Ty::Unit => true,
        Ty::Exn => true,
        Ty::Mine(_) => true,
    }
}

#[cycle(known)]
#[tactic(auto, using(crate::proofs::TypeLaws::type_laws))]
fn all_are_known(tys: &[Ty], env: &Env, before: usize) -> bool
    ensures { result ≡ list_all (is_known (take before (environment_of env.now)))
        (mentions_of_all (typs (map typ_of tys.now))) }
{
    for ty in tys {
        if !are_known_before(ty, env, before) {
            return false;
        }
    }
    true
}

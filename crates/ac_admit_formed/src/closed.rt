// Whether a signature speaks of no own types but its abstract ones.

ghost use Rattle.std.specs.Prelude.{◌≡◌, true, map};
ghost use Rattle.std.specs.List.{list_all};
ghost use Rattle.std.specs.Option.{option_map_or};
ghost use Rattle.ac_types.specs.Types.{typs};
ghost use Rattle.ac_types.specs.Sigs.{Sig_type, Typed_name, is_abstract, type_under};
ghost use Rattle.ac_types.specs.ReadTypes.{typ_of, typed_of, sig_type_of, sig_of};
ghost use Rattle.ac_rules.specs.Modules.{all_mine, is_closed, is_closed_sig};

use crate::known::is_abstract_in;
use ac_types::{Sig, SigType, Ty, TyField};

/// Whether a signature speaks of no own types but its abstract ones.
pub fn is_closed_sig(sig: &Sig) -> bool
    ensures { result ≡ is_closed_sig (sig_of sig.now) }
{
    // `&`, not `&&`: one branch fewer in the proof
    manifest_closed(sig, sig.types.as_slice()) & vals_closed(sig, sig.vals.as_slice())
}

fn manifest_closed(sig: &Sig, types: &[SigType]) -> bool
    ensures { result ≡ list_all (λ (x : Sig_type). option_map_or (is_closed (sig_of sig.now))
        x.manifest true) (map sig_type_of types.now) }
{
    for x in types {
        if !spec_closed(sig, x) {
            return false;
        }
    }
    true
}

fn spec_closed(sig: &Sig, x: &SigType) -> bool
    ensures { result ≡ option_map_or (is_closed (sig_of sig.now)) (sig_type_of x.now).manifest
        true }
{
    match &x.manifest {
        None => true,
        Some(ty) => is_closed(ty, sig),
    }
}

fn vals_closed(sig: &Sig, vals: &[TyField]) -> bool
    ensures { result ≡ list_all (λ (x : Typed_name). is_closed (sig_of sig.now) x.ty)
        (map typed_of vals.now) }
{
    for x in vals {
        if !is_closed(&x.ty, sig) {
            return false;
        }
    }
    true
}

// Whether each own type that a type mentions is an abstract type of the signature.
#[cycle(closed)]
#[tactic(auto, using(crate::proofs::TypeLaws::type_laws))]
fn is_closed(ty: &Ty, sig: &Sig) -> bool
    ensures { result ≡ is_closed (sig_of sig.now) (typ_of ty.now) }
{
    match ty {
        Ty::Tuple(parts) => are_closed(parts.as_slice(), sig),
        Ty::List(item) => is_closed(item, sig),
        Ty::Opt(item) => is_closed(item, sig),
        // `&`, not `&&`: one branch fewer in the proof
        Ty::Fun(from, to) => is_closed(from, sig) & is_closed(to, sig),
        Ty::Mine(word) => is_abstract_in(sig, word),
        Ty::Int => true,
        Ty::Bool => true,
        Ty::Str => true,
        Ty::Unit => true,
        Ty::Exn => true,
        Ty::Abs(_, _) => true,
    }
}

#[cycle(closed)]
#[tactic(auto, using(crate::proofs::TypeLaws::type_laws))]
fn are_closed(tys: &[Ty], sig: &Sig) -> bool
    ensures { result ≡ list_all (λ t. is_abstract (type_under t (sig_of sig.now).types))
        (all_mine (typs (map typ_of tys.now))) }
{
    for ty in tys {
        if !is_closed(ty, sig) {
            return false;
        }
    }
    true
}

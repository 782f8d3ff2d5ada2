// Signatures that structs cover.

ghost use Rattle.std.specs.Prelude.{◌≡◌, ◌+◌, ◌<◌, ◌^◌, length, map};
ghost use Rattle.std.specs.Result.{result_err};
ghost use Rattle.ac_types.specs.Partial.{first_failing};
ghost use Rattle.ac_types.specs.Types.{same, same_all, typs};
ghost use Rattle.ac_types.specs.ReadTypes.{typ_of, typed_of, sig_type_of};
ghost use Rattle.ac_terms.specs.Read.{module_of_code};
ghost use Rattle.ac_rules.specs.Modules.{inside_struct, covers_type, covers_val, uncovered};
ghost use Rattle.ac_modules.specs.inner.Asked.{all_inside};

use crate::lookups::field_named;
use ac_terms::Module;
use ac_types::{SigType, Ty, TyField, same_types, type_named};

/// Whether a struct covers its signature; if not, the first spec that it doesn't cover, types
/// first and then values, counted through from 0.
pub fn covers(m: &Module) -> Result<(), u32>
    requires { length m.now.sig.types + length m.now.sig.vals < 2 ^ 32 }
    ensures { result_err result ≡ uncovered (module_of_code m.now) }
{
    if let Some(k) = uncovered_type(m) {
        return Err(k as u32);
    }
    match uncovered_val(m) {
        None => Ok(()),
        Some(k) => Err((m.sig.types.len() + k) as u32),
    }
}

fn uncovered_type(m: &Module) -> Option<usize>
    ensures { result ≡ first_failing (covers_type (module_of_code m.now))
        (map sig_type_of m.now.sig.types) }
{
    m.sig
        .types
        .as_slice()
        .iter()
        .position(|x| !covers_type(m, x))
}

fn uncovered_val(m: &Module) -> Option<usize>
    ensures { result ≡ first_failing (covers_val (module_of_code m.now))
        (map typed_of m.now.sig.vals) }
{
    m.sig.vals.as_slice().iter().position(|x| !covers_val(m, x))
}

fn covers_type(m: &Module, x: &SigType) -> bool
    ensures { result ≡ covers_type (module_of_code m.now) (sig_type_of x.now) }
{
    let Some(found) = type_named(m.types.as_slice(), &x.name) else {
        return false;
    };
    match &x.manifest {
        None => true,
        Some(written) => is_inside(found, written, m),
    }
}

fn covers_val(m: &Module, x: &TyField) -> bool
    ensures { result ≡ covers_val (module_of_code m.now) (typed_of x.now) }
{
    match field_named(m.fields.as_slice(), &x.name) {
        None => false,
        Some(found) => is_inside(found, &x.ty, m),
    }
}

// Whether a type of the struct is this one of the signature, as the struct has it.
#[cycle(inside)]
fn is_inside(ty: &Ty, written: &Ty, m: &Module) -> bool
    ensures { result ≡ same (typ_of ty.now) (inside_struct (module_of_code m.now)
        (typ_of written.now)) }
{
    match written {
        Ty::Mine(word) => match type_named(m.types.as_slice(), word) {
            None => same_types(ty, written),
            Some(found) => same_types(ty, found),
        },
        Ty::Tuple(parts) => match ty {
            Ty::Tuple(others) => are_inside(others.as_slice(), parts.as_slice(), m),
            _ => false,
        },
        Ty::List(item) => match ty {
            Ty::List(other) => is_inside(other, item, m),
            _ => false,
        },
        Ty::Opt(item) => match ty {
            Ty::Opt(other) => is_inside(other, item, m),
            _ => false,
        },
        Ty::Fun(from, to) => match ty {
            Ty::Fun(start, end) => is_inside(start, from, m) && is_inside(end, to, m),
            _ => false,
        },
        Ty::Int => same_types(ty, written),
        Ty::Bool => same_types(ty, written),
        Ty::Str => same_types(ty, written),
        Ty::Unit => same_types(ty, written),
        Ty::Exn => same_types(ty, written),
        Ty::Abs(_, _) => same_types(ty, written),
    }
}

#[cycle(inside)]
fn are_inside(tys: &[Ty], written: &[Ty], m: &Module) -> bool
    ensures { result ≡ same_all (typs (map typ_of tys.now))
        (all_inside (module_of_code m.now) (typs (map typ_of written.now))) }
{
    if tys.len() != written.len() {
        return false;
    }
    for i in 0..tys.len() {
        if !is_inside(&tys[i], &written[i], m) {
            return false;
        }
    }
    true
}

// Which values a pattern fits.

ghost use Rattle.std.specs.Prelude.{◌<◌, length, IfOk, map};
ghost use Rattle.std.specs.List.{All};
ghost use Rattle.ac_types.specs.ReadNumbers.{bare_number};
ghost use Rattle.ac_terms.specs.Terms.{PInt, PBool, PStr, PExn, patterns};
ghost use Rattle.ac_terms.specs.Read.{pattern_of};
ghost use Rattle.ac_values.specs.Values.{stands_as, values, values_at};
ghost use Rattle.ac_values.specs.inner.Fitting.{Fitted, Tested};
ghost use Rattle.ac_values.specs.Fits.{bound, all_bound};

use ac_terms::Pat;
use ac_types::{BareExn, Memory, Text};
use ac_values::read::{
    bool_in, cons_in, exn_with, exn_without, int_in, is_absent, is_nil, is_unit, present_in,
    text_in, tuple_in,
};
use ac_values::{Store, Value};

/// Whether the value is this int.
#[inline(always)]
pub fn is_int(store: &Store, v: Value, n: &i64) -> bool
    ensures { Tested (bound (PInt n.now) (stands_as store.now v.0)) result }
{
    match int_in(store, v) {
        None => false,
        Some(k) => *n == k,
    }
}

/// Whether the value is this truth value.
#[inline(always)]
pub fn is_bool(store: &Store, v: Value, b: bool) -> bool
    ensures { Tested (bound (PBool b) (stands_as store.now v.0)) result }
{
    match bool_in(store, v) {
        None => false,
        Some(c) => b == c,
    }
}

fn is_text(store: &Store, v: Value, text: &Text) -> bool
    ensures { Tested (bound (PStr text.now.0) (stands_as store.now v.0)) result }
{
    match text_in(store, v) {
        None => false,
        Some(other) => text.as_slice() == other.as_slice(),
    }
}

/// Whether the value is this exception.
#[inline(always)]
pub fn is_exn(store: &Store, v: Value, exn: BareExn) -> bool
    ensures { Tested (bound (PExn (bare_number exn)) (stands_as store.now v.0)) result }
{
    match exn_without(store, v) {
        None => false,
        Some(other) => exn.number() == other.number(),
    }
}

/// Whether the pattern fits the value. The values of its variables are added from left to right.
#[cycle(fits)]
pub fn fits(store: &Store, pat: &Pat, v: Value, found: &mut Vec<Value>) -> Result<bool, Memory>
    requires within { v.0 < length store.now }
    requires found { All (λ v. v.0 < length store.now) found.old.items }
    ensures { IfOk result (λ b. Fitted store.now
        (bound (pattern_of pat.now) (stands_as store.now v.0))
        found.old.items found.new.items b) }
{
    match pat {
        Pat::Wild => Ok(true),
        Pat::Var(_) => {
            found.push(v)?;
            Ok(true)
        }
        Pat::Int(n) => Ok(is_int(store, v, n)),
        Pat::Bool(b) => Ok(is_bool(store, v, *b)),
        Pat::Str(text) => Ok(is_text(store, v, text)),
        Pat::Unit => Ok(is_unit(store, v)),
        Pat::Tuple(parts) => match tuple_in(store, v) {
            None => Ok(false),
            Some(values) => {
                let fit = fits_all(store, parts.as_slice(), values.as_slice(), found)?;
                Ok(fit)
            }
        },
        Pat::Nil => Ok(is_nil(store, v)),
        Pat::Cons(head, tail) => match cons_in(store, v) {
            None => Ok(false),
            Some((first, rest)) => {
                if !fits(store, head, first, found)? {
                    return Ok(false);
                }
                let fit = fits(store, tail, rest, found)?;
                Ok(fit)
            }
        },
        Pat::Absent => Ok(is_absent(store, v)),
        Pat::Present(inner) => match present_in(store, v) {
            None => Ok(false),
            Some(value) => {
                let fit = fits(store, inner, value, found)?;
                Ok(fit)
            }
        },
        Pat::Exn(exn) => Ok(is_exn(store, v, *exn)),
        Pat::ExnOf(exn, inner) => match exn_with(store, v) {
            None => Ok(false),
            Some((of, value)) => {
                if exn.number() != of.number() {
                    return Ok(false);
                }
                let fit = fits(store, inner, value, found)?;
                Ok(fit)
            }
        },
    }
}

#[cycle(fits)]
fn fits_all(
    store: &Store,
    pats: &[Pat],
    vs: &[Value],
    found: &mut Vec<Value>,
) -> Result<bool, Memory>
    requires within { All (λ v. v.0 < length store.now) vs.now }
    requires found { All (λ v. v.0 < length store.now) found.old.items }
    ensures { IfOk result (λ b. Fitted store.now
        (all_bound (patterns (map pattern_of pats.now)) (values_at (values store.now) vs.now))
        found.old.items found.new.items b) }
{
    if pats.len() != vs.len() {
        return Ok(false);
    }
    for i in 0..pats.len() {
        if !fits(store, &pats[i], vs[i], found)? {
            return Ok(false);
        }
    }
    Ok(true)
}

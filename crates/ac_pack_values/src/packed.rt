// Packed values, which stand in functions that have arrived.

ghost use Rattle.std.specs.Prelude.{◌≡◌, ◌<◌, ◌^◌, suc, map, length};
ghost use Rattle.ac_types.specs.ReadNumbers.{exn_number, exn_text};
ghost use Rattle.ac_types.specs.Types.{TInt};
ghost use Rattle.ac_types.specs.ReadTypes.{typ_of};
ghost use Rattle.ac_terms.specs.Terms.{KTuple, KPresent, KFun, KExn, KList, pvalues};
ghost use Rattle.ac_terms.specs.Read.{home_of, expr_of, value_of};
ghost use Rattle.ac_rules.specs.Typing.{tuple_parts};
ghost use Rattle.ac_rules.specs.Plain.{where_there};
ghost use Rattle.ac_check_views.specs.Sites.{typs_of};
ghost use Rattle.ac_pack_terms.specs.Pieces.{packed_at, packed_parts_at, packed_items_at};
ghost use Rattle.ac_pack_terms.specs.inner.Goes.{VisitsValue, VisitsValues};

use crate::functions::function;
use crate::lists::shared;
use ac_check_views::{head, list_item, option_item, tuple_parts};
use ac_code::Variables;
use ac_pack_heads::{Stop, deeper};
use ac_pack_terms::{Around, Piece, Walk};
use ac_terms::{Home, PVal, Term, tags};
use ac_types::{Exn, Ty};
use std::alloc::Global;

/// Visits a packed value at a type.
#[tactic(auto, using(crate::proofs::ValueLaws::packed_laws))]
pub fn packed<'a>(
    walk: &mut Walk<'a>,
    alloc: Global,
    value: &'a PVal,
    ty: &'a Ty,
    outer: u32,
) -> Result<(), Stop>
    requires entries { length walk.old.site.env.now.entries < 2 ^ 32 }
    requires int { typ_of walk.old.site.int.now ≡ TInt }
    ensures { VisitsValue result (suc outer)
        (packed_at walk.old.site (value_of value.now) (typ_of ty.now)) walk.old walk.new }
{
    let site = walk.site;
    let d = deeper(outer)?;
    match value {
        PVal::Int(n) => walk.int(d, tags::VALUE_INT, *n),
        PVal::Bool(b) => walk.truth(d, tags::VALUE_BOOL, *b),
        PVal::Str(text) => walk.string(d, &[tags::VALUE_STR], text.as_slice()),
        PVal::Unit => walk.head(d, &[tags::VALUE_UNIT]),
        PVal::Exn(exn) => exception(walk, exn, d),
        PVal::Tuple(parts) => {
            let seen = head(site.env, ty);
            packed_tuple(walk, parts.as_slice(), seen, d)
        }
        PVal::List(parts) => packed_list(walk, parts.as_slice(), ty, d),
        PVal::Absent => walk.head(d, &[tags::VALUE_ABSENT]),
        PVal::Present(inner) => packed_option(walk, inner, ty, d),
        PVal::Fun(home, function) => packed_function(walk, alloc, *home, function, ty, d),
    }
}

// An exception.
#[tactic(auto, using(crate::proofs::ValueLaws::packed_laws))]
fn exception<'a>(walk: &mut Walk<'a>, exn: &Exn, d: u32) -> Result<(), Stop>
    ensures { VisitsValue result d
        (KExn (exn_number exn.now) (exn_text exn.now)) walk.old walk.new }
{
    match exn {
        Exn::Bare(exn) => walk.head(d, &[tags::VALUE_EXN, exn.number()]),
        Exn::Text(exn, text) => {
            walk.string(d, &[tags::VALUE_EXN, exn.number()], text.as_slice())
        }
    }
}

// An option of something.
#[tactic(auto, using(crate::proofs::ValueLaws::packed_laws))]
fn packed_option<'a>(walk: &mut Walk<'a>, inner: &'a PVal, ty: &'a Ty, d: u32) -> Result<(), Stop>
    requires { length walk.old.site.env.now.entries < 2 ^ 32 }
    ensures { VisitsValue result d
        (packed_at walk.old.site (KPresent (value_of inner.now)) (typ_of ty.now)) walk.old
        walk.new }
{
    let site = walk.site;
    match option_item(head(site.env, ty)) {
        None => walk.stay(d),
        Some(item) => walk.one(d, &[tags::VALUE_PRESENT], Piece::Packed(inner, item, d)),
    }
}

// A tuple, at a type that is no abstract one.
#[tactic(auto, using(crate::proofs::ValueLaws::packed_laws))]
fn packed_tuple<'a>(walk: &mut Walk<'a>, parts: &'a [PVal], ty: &'a Ty, d: u32) -> Result<(), Stop>
    ensures { VisitsValue result d
        (where_there (tuple_parts (typ_of ty.now)) (λ Ts. KTuple
        (packed_parts_at walk.old.site (pvalues (map value_of parts.now)) Ts))) walk.old walk.new }
{
    let Some(types) = tuple_parts(ty) else {
        return walk.stay(d);
    };
    let count = shared(parts.len(), types.len())?;
    let all = Piece::PackedParts(parts, types.as_slice(), d);
    walk.few(d, tags::VALUE_TUPLE, count, all)
}

// A list.
#[tactic(auto, using(crate::proofs::ListLaws::packed_list_laws))]
fn packed_list<'a>(walk: &mut Walk<'a>, items: &'a [PVal], ty: &'a Ty, d: u32) -> Result<(), Stop>
    requires { length walk.old.site.env.now.entries < 2 ^ 32 }
    ensures { VisitsValue result d
        (packed_at walk.old.site (KList (pvalues (map value_of items.now))) (typ_of ty.now))
        walk.old walk.new }
{
    let site = walk.site;
    let count = items.len();
    if count == 0 {
        return walk.nil(d);
    }
    match list_item(head(site.env, ty)) {
        None => walk.lost(d, count),
        Some(item) => {
            walk.many(
                d,
                tags::VALUE_LIST,
                count,
                Piece::PackedItems(items, item, d),
            )
        }
    }
}

// A function. One that stands for nothing is unit.
#[tactic(auto, using(crate::proofs::FunctionLaws::packed_function_laws))]
fn packed_function<'a>(
    walk: &mut Walk<'a>,
    alloc: Global,
    home: Home,
    lambda: &'a Term,
    ty: &'a Ty,
    d: u32,
) -> Result<(), Stop>
    requires entries { length walk.old.site.env.now.entries < 2 ^ 32 }
    requires int { typ_of walk.old.site.int.now ≡ TInt }
    ensures { VisitsValue result d
        (packed_at walk.old.site (KFun (home_of home) (expr_of lambda.now)) (typ_of ty.now))
        walk.old walk.new }
{
    if !lambda.is_lambda() {
        return walk.head(d, &[tags::VALUE_UNIT]);
    }
    let around = Around {
        home,
        held: None,
        context: Variables::none(),
        binders: 0,
    };
    function(walk, alloc, lambda, around, ty, d)
}

/// Visits parts of a packed tuple at their types.
#[tactic(auto, using(crate::proofs::ValueLaws::packed_laws))]
pub fn packed_parts<'a>(
    walk: &mut Walk<'a>,
    parts: &'a [PVal],
    types: &'a [Ty],
    outer: u32,
) -> Result<(), Stop>
    ensures { VisitsValues result (suc outer)
        (packed_parts_at walk.old.site (pvalues (map value_of parts.now)) (typs_of types.now))
        walk.old walk.new }
{
    let d = deeper(outer)?;
    match (parts.split_first(), types.split_first()) {
        (None, None) => walk.nothing(),
        (None, Some(_)) => walk.stay(d),
        (Some(_), None) => walk.stay(d),
        (Some((part, parts)), Some((ty, types))) => {
            let first = Piece::Packed(part, ty, outer);
            walk.both(first, Piece::PackedParts(parts, types, outer))
        }
    }
}

/// Visits items of a packed list at their type.
#[tactic(auto, using(crate::proofs::ValueLaws::packed_laws))]
pub fn packed_items<'a>(
    walk: &mut Walk<'a>,
    items: &'a [PVal],
    ty: &'a Ty,
    outer: u32,
) -> Result<(), Stop>
    ensures { VisitsValues result (suc outer)
        (packed_items_at walk.old.site (pvalues (map value_of items.now)) (typ_of ty.now)) walk.old
        walk.new }
{
    match items.split_first() {
        None => walk.nothing(),
        Some((first, rest)) => {
            let first = Piece::Packed(first, ty, outer);
            walk.both(first, Piece::PackedItems(rest, ty, outer))
        }
    }
}

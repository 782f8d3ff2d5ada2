// Values of the store.

ghost use Rattle.std.specs.Prelude.{◌≡◌, ◌<◌, ◌^◌, suc, IsSome, length};
ghost use Rattle.ac_types.specs.Types.{TInt, TExn};
ghost use Rattle.ac_types.specs.ReadTypes.{typ_of};
ghost use Rattle.ac_terms.specs.Terms.{KTuple};
ghost use Rattle.ac_rules.specs.Typing.{tuple_parts};
ghost use Rattle.ac_rules.specs.Plain.{where_there};
ghost use Rattle.ac_values.specs.ValueReaders.{cons_in};
ghost use Rattle.ac_values.specs.Values.{values, node_value, stands_as, MPresent, MClosure};
ghost use Rattle.ac_meaning.specs.BarePacking.{bare_packed};
ghost use Rattle.ac_machine_meaning.specs.Stands.{stands};
ghost use Rattle.ac_check_views.specs.Sites.{typs_of};
ghost use Rattle.ac_pack_terms.specs.Pieces.{entries_at, code_at, held_at, held_parts_at, held_items_at};
ghost use Rattle.ac_pack_terms.specs.inner.Goes.{VisitsValue, VisitsValues};

use crate::functions::function;
use crate::lists::{items_in, shared};
use ac_check_views::{head, list_item, option_item, tuple_parts};
use ac_code::{CodeId, Variables};
use ac_pack_heads::{Stop, deeper};
use ac_pack_terms::{Around, Piece, Walk};
use ac_terms::tags;
use ac_types::{TextExn, Ty};
use ac_values::read::{cons_in, text_in};
use ac_values::{Node, Value};
use std::alloc::Global;

/// Visits a value of the store at a type. A value past the last stands for unit.
#[tactic(auto, using(crate::proofs::ValueLaws::held_laws))]
pub fn held<'a>(
    walk: &mut Walk<'a>,
    alloc: Global,
    v: Value,
    ty: &'a Ty,
    outer: u32,
) -> Result<(), Stop>
    requires entries { length walk.old.site.env.now.entries < 2 ^ 32 }
    requires int { typ_of walk.old.site.int.now ≡ TInt }
    ensures { VisitsValue result (suc outer)
        (held_at walk.old.site v (typ_of ty.now)) walk.old walk.new }
{
    let d = deeper(outer)?;
    let site = walk.site;
    let Some(node) = site.store.node(v) else {
        return walk.head(d, &[tags::VALUE_UNIT]);
    };
    match node {
        Node::Int(n) => walk.int(d, tags::VALUE_INT, *n),
        Node::Bool(b) => walk.truth(d, tags::VALUE_BOOL, *b),
        Node::Str(text) => walk.string(d, &[tags::VALUE_STR], text.as_slice()),
        Node::Unit => walk.head(d, &[tags::VALUE_UNIT]),
        Node::Exn(exn) => walk.head(d, &[tags::VALUE_EXN, exn.number()]),
        Node::ExnOf(exn, text) => exception(walk, *exn, *text, d),
        Node::Tuple(parts) => {
            let seen = head(site.env, ty);
            held_tuple(walk, parts.as_slice(), seen, d)
        }
        Node::Nil => walk.nil(d),
        Node::Cons(_, _) => held_list(walk, v, ty, d),
        Node::Absent => walk.head(d, &[tags::VALUE_ABSENT]),
        Node::Present(inner) => held_option(walk, *inner, ty, d),
        Node::Closure {
            block,
            recursive,
            env,
        } => closure(walk, alloc, *block, *recursive, *env, ty, d),
        Node::EnvEnd => walk.stay(d),
        Node::EnvCons(_, _) => walk.stay(d),
    }
}

// An exception that has a text, which is a string of the store.
#[tactic(auto, using(crate::proofs::ValueLaws::held_laws))]
fn exception<'a>(walk: &mut Walk<'a>, exn: TextExn, text: Value, d: u32) -> Result<(), Stop>
    ensures { VisitsValue result d
        (bare_packed (entries_at walk.old.site) (stands (code_at walk.old.site)
        (node_value (values walk.old.site.store.now) (Node.ExnOf exn text))) TExn) walk.old
        walk.new }
{
    let site = walk.site;
    match text_in(site.store, text) {
        None => walk.stay(d),
        Some(text) => walk.string(d, &[tags::VALUE_EXN, exn.number()], text.as_slice()),
    }
}

// An option of something.
#[tactic(auto, using(crate::proofs::ValueLaws::held_laws))]
fn held_option<'a>(walk: &mut Walk<'a>, inner: Value, ty: &'a Ty, d: u32) -> Result<(), Stop>
    requires { length walk.old.site.env.now.entries < 2 ^ 32 }
    ensures { VisitsValue result d
        (bare_packed (entries_at walk.old.site) (stands (code_at walk.old.site)
        (MPresent (stands_as walk.old.site.store.now inner.0))) (typ_of ty.now)) walk.old walk.new }
{
    let site = walk.site;
    match option_item(head(site.env, ty)) {
        None => walk.stay(d),
        Some(item) => walk.one(d, &[tags::VALUE_PRESENT], Piece::Held(inner, item, d)),
    }
}

// A tuple, at a type that is no abstract one.
#[tactic(auto, using(crate::proofs::ValueLaws::held_laws))]
fn held_tuple<'a>(walk: &mut Walk<'a>, parts: &'a [Value], ty: &'a Ty, d: u32) -> Result<(), Stop>
    ensures { VisitsValue result d
        (where_there (tuple_parts (typ_of ty.now))
        (λ Ts. KTuple (held_parts_at walk.old.site parts.now Ts))) walk.old walk.new }
{
    let Some(types) = tuple_parts(ty) else {
        return walk.stay(d);
    };
    let count = shared(parts.len(), types.len())?;
    let all = Piece::HeldParts(parts, types.as_slice(), d);
    walk.few(d, tags::VALUE_TUPLE, count, all)
}

// A list of one item or more.
#[tactic(auto, using(crate::proofs::ListLaws::held_list_laws))]
fn held_list<'a>(walk: &mut Walk<'a>, list: Value, ty: &'a Ty, d: u32) -> Result<(), Stop>
    requires entries { length walk.old.site.env.now.entries < 2 ^ 32 }
    requires cons { IsSome (cons_in (stands_as walk.old.site.store.now list.0)) }
    ensures { VisitsValue result d
        (held_at walk.old.site list (typ_of ty.now)) walk.old walk.new }
{
    let site = walk.site;
    let Some(count) = items_in(site.store, list)? else {
        return walk.stay(d);
    };
    match list_item(head(site.env, ty)) {
        None => walk.lost(d, count),
        Some(item) => { walk.many(d, tags::VALUE_LIST, count, Piece::HeldItems(list, item, d)) }
    }
}

// A function, with the values that it has captured.
#[tactic(auto, using(crate::proofs::FunctionLaws::closure_laws))]
fn closure<'a>(
    walk: &mut Walk<'a>,
    alloc: Global,
    block: CodeId,
    recursive: bool,
    env: Value,
    ty: &'a Ty,
    d: u32,
) -> Result<(), Stop>
    requires entries { length walk.old.site.env.now.entries < 2 ^ 32 }
    requires int { typ_of walk.old.site.int.now ≡ TInt }
    ensures { VisitsValue result d
        (bare_packed (entries_at walk.old.site) (stands (code_at walk.old.site)
        (MClosure block.0 recursive (stands_as walk.old.site.store.now env.0))) (typ_of ty.now))
        walk.old walk.new }
{
    let site = walk.site;
    let Some(block) = site.table.block(block) else {
        return walk.stay(d);
    };
    let Some(lambda) = &block.lambda else {
        return walk.stay(d);
    };
    if !lambda.is_wanted(recursive) {
        return walk.stay(d);
    }
    let around = Around {
        home: block.home,
        held: Some(env),
        context: Variables::new(&block.context),
        binders: 0,
    };
    function(walk, alloc, lambda, around, ty, d)
}

/// Visits parts of a tuple of the store at their types.
#[tactic(auto, using(crate::proofs::ValueLaws::held_laws))]
pub fn held_parts<'a>(
    walk: &mut Walk<'a>,
    parts: &'a [Value],
    types: &'a [Ty],
    outer: u32,
) -> Result<(), Stop>
    ensures { VisitsValues result (suc outer)
        (held_parts_at walk.old.site parts.now (typs_of types.now)) walk.old walk.new }
{
    let d = deeper(outer)?;
    match (parts.split_first(), types.split_first()) {
        (None, None) => walk.nothing(),
        (None, Some(_)) => walk.stay(d),
        (Some(_), None) => walk.stay(d),
        (Some((part, parts)), Some((ty, types))) => {
            let first = Piece::Held(*part, ty, outer);
            walk.both(first, Piece::HeldParts(parts, types, outer))
        }
    }
}

/// Visits items of a list of the store at their type.
#[tactic(auto, using(crate::proofs::ValueLaws::held_laws))]
pub fn held_items<'a>(walk: &mut Walk<'a>, list: Value, ty: &'a Ty, outer: u32) -> Result<(), Stop>
    ensures { VisitsValues result (suc outer)
        (held_items_at walk.old.site list (typ_of ty.now)) walk.old walk.new }
{
    let site = walk.site;
    match cons_in(site.store, list) {
        None => walk.nothing(),
        Some((first, rest)) => {
            let first = Piece::Held(first, ty, outer);
            walk.both(first, Piece::HeldItems(rest, ty, outer))
        }
    }
}

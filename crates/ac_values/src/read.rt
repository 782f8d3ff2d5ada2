//! What the values of a store are.
ghost use Rattle.std.specs.Prelude.{◌≡◌, ◌<◌, length, option_map, MatchOption, Some, None, true, false};
ghost use Rattle.std.specs.List.{All};
ghost use Rattle.ac_types.specs.ReadNumbers.{bare_number, texted_number};
ghost use Rattle.ac_values.specs.Values.{stands_as, values, values_at};
ghost use Rattle.ac_values.specs.ValueReaders.{newest_and_rest, entry, int_in, bool_in, closure_in, text_in, without, cons_in, present_in, tuple_in, exn_with, exn_without, is_unit, is_nil, is_absent};

use crate::node::{Node, Value};
use crate::store::Store;
use ac_code::CodeId;
use ac_types::{BareExn, Many, Text, TextExn};

/// The newest of a list of values, and the rest.
pub fn newest_and_rest(store: &Store, v: Value) -> Option<(Value, Value)>
    ensures { MatchOption result (newest_and_rest (stands_as store.now v.0) ≡ None)
        (λ p. (p.0.0 < v.0) ×
        (p.1.0 < v.0) × (v.0 < length store.now) ×
        (newest_and_rest (stands_as store.now v.0) ≡ Some
        (stands_as store.now p.0.0, stands_as store.now p.1.0))) }
{
    match store.node(v) {
        Some(Node::EnvCons(newest, rest)) => Some((*newest, *rest)),
        _ => None,
    }
}

/// The number that a value is.
pub fn int_in(store: &Store, v: Value) -> Option<i64>
    ensures { result ≡ int_in (stands_as store.now v.0) }
{
    match store.node(v) {
        Some(Node::Int(n)) => Some(*n),
        _ => None,
    }
}

/// Entry i of a list of values.
#[inline(always)]
pub fn entry(store: &Store, list: Value, i: usize) -> Option<Value>
    ensures { MatchOption result (entry i (stands_as store.now list.0) ≡ None)
        (λ v. (v.0 < length store.now) × (entry i (stands_as store.now list.0) ≡ Some
        (stands_as store.now v.0))) }
{
    let mut rest = list;
    for _ in 0..i {
        match newest_and_rest(store, rest) {
            Some((_, older)) => rest = older,
            None => return None,
        }
    }
    match newest_and_rest(store, rest) {
        Some((newest, _)) => Some(newest),
        None => None,
    }
}

/// The truth value that a value is.
pub fn bool_in(store: &Store, v: Value) -> Option<bool>
    ensures { result ≡ bool_in (stands_as store.now v.0) }
{
    match store.node(v) {
        Some(Node::Bool(b)) => Some(*b),
        _ => None,
    }
}

/// The block, the mark and the environment of a closure.
pub fn closure_in(store: &Store, v: Value) -> Option<(CodeId, bool, Value)>
    ensures { MatchOption result (closure_in (stands_as store.now v.0) ≡ None)
        (λ q. (q.2.0 < length store.now) × (v.0 < length store.now) ×
        (closure_in (stands_as store.now v.0) ≡ Some (q.0.0, q.1, stands_as store.now q.2.0))) }
{
    match store.node(v) {
        Some(
            Node::Closure {
                block,
                recursive,
                env,
            },
        ) => Some((*block, *recursive, *env)),
        _ => None,
    }
}

/// A list of values without the n newest.
pub fn without(store: &Store, list: Value, n: usize) -> Option<Value>
    requires { list.0 < length store.now }
    ensures { MatchOption result (without n (stands_as store.now list.0) ≡ None)
        (λ v. (v.0 < length store.now) × (without n (stands_as store.now list.0) ≡ Some
        (stands_as store.now v.0))) }
{
    let mut rest = list;
    for _ in 0..n {
        match newest_and_rest(store, rest) {
            Some((_, older)) => rest = older,
            None => return None,
        }
    }
    Some(rest)
}

/// The bytes that a value is.
pub fn text_in<'a>(store: &'a Store, v: Value) -> Option<&'a Text>
    ensures { MatchOption result (text_in (stands_as store.now v.0) ≡ None)
        (λ t. text_in (stands_as store.now v.0) ≡ Some t.now.0) }
{
    match store.node(v) {
        Some(Node::Str(text)) => Some(text),
        _ => None,
    }
}

/// The head and the tail of a list.
pub fn cons_in(store: &Store, v: Value) -> Option<(Value, Value)>
    ensures { MatchOption result (cons_in (stands_as store.now v.0) ≡ None)
        (λ p. (p.0.0 < length store.now) × (p.1.0 < length store.now) ×
        (cons_in (stands_as store.now v.0) ≡ Some
        (stands_as store.now p.0.0, stands_as store.now p.1.0))) }
{
    match store.node(v) {
        Some(Node::Cons(head, tail)) => Some((*head, *tail)),
        _ => None,
    }
}

/// What an option holds.
pub fn present_in(store: &Store, v: Value) -> Option<Value>
    ensures { MatchOption result (present_in (stands_as store.now v.0) ≡ None)
        (λ p. (p.0 < length store.now) × (present_in (stands_as store.now v.0) ≡ Some
        (stands_as store.now p.0))) }
{
    match store.node(v) {
        Some(Node::Present(inner)) => Some(*inner),
        _ => None,
    }
}

/// The parts of a tuple.
pub fn tuple_in<'a>(store: &'a Store, v: Value) -> Option<&'a Many<Value>>
    ensures { MatchOption result (tuple_in (stands_as store.now v.0) ≡ None)
        (λ ps. All (λ p. p.0 < length store.now) ps.now ×
        (tuple_in (stands_as store.now v.0) ≡ Some (values_at (values store.now) ps.now))) }
{
    match store.node(v) {
        Some(Node::Tuple(parts)) => Some(parts),
        _ => None,
    }
}

/// An exception that has a text, and the text.
pub fn exn_with(store: &Store, v: Value) -> Option<(TextExn, Value)>
    ensures { MatchOption result (exn_with (stands_as store.now v.0) ≡ None)
        (λ p. (p.1.0 < length store.now) × (exn_with (stands_as store.now v.0) ≡ Some
        (texted_number p.0, stands_as store.now p.1.0))) }
{
    match store.node(v) {
        Some(Node::ExnOf(exn, text)) => Some((*exn, *text)),
        _ => None,
    }
}

/// An exception that has no text.
pub fn exn_without(store: &Store, v: Value) -> Option<BareExn>
    ensures { option_map bare_number result ≡ exn_without (stands_as store.now v.0) }
{
    match store.node(v) {
        Some(Node::Exn(exn)) => Some(*exn),
        _ => None,
    }
}

/// Whether a value of the store is unit.
pub fn is_unit(store: &Store, v: Value) -> bool
    requires { v.0 < length store.now }
    ensures { result ≡ is_unit (stands_as store.now v.0) }
{
    match store.node(v) {
        Some(Node::Unit) => true,
        _ => false,
    }
}

/// Whether a value is the empty list.
pub fn is_nil(store: &Store, v: Value) -> bool
    ensures { result ≡ is_nil (stands_as store.now v.0) }
{
    match store.node(v) {
        Some(Node::Nil) => true,
        _ => false,
    }
}

/// Whether a value is the missing option.
pub fn is_absent(store: &Store, v: Value) -> bool
    ensures { result ≡ is_absent (stands_as store.now v.0) }
{
    match store.node(v) {
        Some(Node::Absent) => true,
        _ => false,
    }
}

// Values, and the nodes in which they stand.

use ac_code::CodeId;
use ac_types::{BareExn, Many, Text, TextExn};

/// The number of a node in its store.
#[derive(Clone, Copy, Debug, PartialEq, Eq)]
pub struct Value(pub usize);

/// A value, or a list of values, whose parts are numbers of earlier nodes.
pub enum Node {
    Int(i64),
    Bool(bool),
    Str(Text),
    Unit,
    Exn(BareExn),
    ExnOf(TextExn, Value),
    Tuple(Many<Value>),
    Nil,
    Cons(Value, Value),
    Absent,
    Present(Value),
    Closure {
        block: CodeId,
        recursive: bool,
        env: Value,
    },
    EnvEnd,
    EnvCons(Value, Value),
}

impl Drop for Node {
    fn drop(self) {
        match self {
            Node::Int(_)
            | Node::Bool(_)
            | Node::Str(_)
            | Node::Unit
            | Node::Exn(_)
            | Node::ExnOf(_, _)
            | Node::Tuple(_)
            | Node::Nil
            | Node::Cons(_, _)
            | Node::Absent
            | Node::Present(_)
            | Node::Closure {
                block: _,
                recursive: _,
                env: _,
            }
            | Node::EnvEnd
            | Node::EnvCons(_, _) => {}
        }
    }
}

// The store of nodes.

ghost use Rattle.std.specs.Prelude.{◌≡◌, ◌++◌, ◌∷◌, [], ◌<◌, ◌≤◌, length, slice_get, OnOk, OnErr, IfOk, MatchOption};
ghost use Rattle.std.specs.Option.{option_copied};
ghost use Rattle.ac_values.specs.Below.{Below};
ghost use Rattle.ac_values.specs.Values.{MUnit, values, node_value, stands_as};

use crate::node::{Node, Value};
use ac_types::{Many, Memory};
use std::alloc::Global;
use std::marker::Model;

/// An append-only list of nodes. The parts of a node have smaller numbers than it.
pub struct Store {
    nodes: Many<Node>,
}

impl Drop for Store {
    fn drop(self) {
        let Store { nodes: _ } = self;
    }
}

impl Model for Store {
    ghost use Rattle.std.specs.Prelude.{List};
    ghost use Rattle.ac_values.specs.declared.node.Node.{Node};

    ghost Value = { List Node };

    ghost use Rattle.ac_values.specs.Below.{IsOrdered};

    ghost view = { λ s. s.nodes };

    ghost invariant = { λ s. IsOrdered s.nodes };
}

impl Store {
    /// A store without nodes.
    pub fn new(alloc: Global) -> Store
        ensures { result ≡ [] }
    {
        Store {
            nodes: Many::new(alloc),
        }
    }

    /// How many nodes there are.
    pub fn len(&self) -> usize
        ensures { result ≡ length self.now }
    {
        self.nodes.len()
    }

    /// One more node, whose parts have smaller numbers; its number. Nothing changes where memory
    /// ran out.
    #[inline(always)]
    pub fn push(&mut self, node: Node) -> Result<Value, Memory>
        requires { Below (length self.old) node }
        ensures ok { OnOk result (self.new ≡ self.old ++ node ∷ []) }
        ensures number { IfOk result (λ v. v.0 ≡ length self.old) }
        ensures err { OnErr result (self.new ≡ self.old) }
    {
        let number = self.nodes.len();
        self.nodes.push(node)?;
        Ok(Value(number))
    }

    /// The node with this number, or none past the last.
    #[tactic(auto, using(crate::proofs::ValueLaws::node_laws))]
    pub fn node(&self, v: Value) -> Option<&Node>
        ensures value { option_copied result ≡ slice_get self.now v.0 }
        ensures parts { MatchOption result (length self.now ≤ v.0) (λ n. Below v.0 n.now) }
        ensures also { MatchOption result (stands_as self.now v.0 ≡ MUnit)
            (λ n. stands_as self.now v.0 ≡ node_value (values self.now) n.now) }
    {
        match self.nodes.get(v.0) {
            Some(node) => Some(node),
            None => None,
        }
    }
}

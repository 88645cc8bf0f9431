//! Bytes taken out of their block.
ghost use Rattle.std.specs.Prelude.{◌≡◌, IfOk, IfErr, length};

use crate::node::Node;
use std::alloc::Global;
use std::marker::Model;
use tendril_errors::Refusal;

/// Bytes in a node without references: taken from a block that had only one, or copied. A block of any atomicity can be
/// created from them.
#[derive(Drop)]
pub struct Sole {
    node: Box<Node>,
}

impl Model for Sole {
    ghost use Rattle.std.specs.Prelude.{◌≡◌, ℕ, List};

    ghost Value = { List ℕ };

    ghost view = { λ s. s.node.value.body.bytes };

    // The first reference to the node needs this count.
    ghost invariant = { λ s. s.node.value.count ≡ 1 };
}

impl Sole {
    pub(crate) fn new(node: Box<Node>) -> Self
        requires { node.value.count ≡ 1 }
        ensures { result ≡ node.value.body.bytes }
    {
        Sole { node }
    }

    /// A copy of bytes. Up to 40 (`NODE_CAPACITY`) take one allocation, more take two.
    pub fn copy(alloc: Global, bytes: &[u8]) -> Result<Self, Refusal>
        ensures bytes { IfOk result (λ s. s ≡ bytes.now) }
        ensures refusal { IfErr result (λ r. r ≡ Refusal.Memory) }
    {
        let node = Node::copy(alloc, bytes, 0)?;
        Ok(Sole { node })
    }

    /// The bytes.
    pub fn as_slice(&self) -> &[u8]
        ensures { result.now ≡ self.now }
    {
        self.node.body.as_slice()
    }

    // The node, whose bytes count as copied once.
    pub(crate) fn into_node(self) -> Box<Node>
        ensures count { result.value.count ≡ 1 }
        ensures bytes { result.value.body.bytes ≡ self }
        ensures took { result.value.body.took ≡ length self }
    {
        let Sole { mut node } = self;
        node.body.recount();
        node
    }
}

//! A node to which there is no reference any more.
ghost use Rattle.std.specs.Prelude.{◌≡◌, ℕ};
ghost use Rattle.std.specs.Borrow.{sem};
ghost use Rattle.tendril_block.specs.Owned.{BodyIn, Id, body_coded, freed, last_owns};
ghost use base.Fml.{fex};

use crate::node::Node;
use crate::node::raw_box::RawBox;
use std::alloc::Global;
use std::marker::Model;

/// A node whose last reference is gone, and which must be freed by `free`: the compiler rejects dropping it.
pub(crate) struct UnfreedNode {
    pub(crate) node: *mut Node,
    pub(crate) alloc: Global,
    pub(crate) ghost limit: { ℕ },
    // The number that is still in the node's count.
    pub(crate) ghost count: { ℕ },
    pub(crate) ghost inner: { BodyIn } by { body_coded },
}

impl Model for UnfreedNode {
    ghost also_owns = { λ l. last_owns l.limit l.node l.alloc l.count l.inner };
}

impl UnfreedNode {
    /// The node as its box's pointer, to be dropped or reused. This is the machine's `Free`.
    pub(crate) fn free(self) -> RawBox<Node, Global>
        ensures node { (result.value.count ≡ self.count) × (result.value.body ≡ self.inner) }
        ensures* freed { sem 𝓛 (fex Id (freed self.limit)) }
    {
        let UnfreedNode { node, alloc } = self;
        RawBox { at: node, alloc }
    }
}

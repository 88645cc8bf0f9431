//! A counted pointer to a body: a `Handle` of a node that has at most N of them.
ghost use Rattle.std.specs.Prelude.{◌≡◌, IfOk, IfErr, IfSome};
ghost use Rattle.std.specs.Borrow.{LendsSo, sem};
ghost use Rattle.tendril_block.specs.Owned.{limit};
ghost use Rattle.tendril_block.specs.contracts.body.Body.{the_row as body_row};

use crate::atomicity::MAX_HOLDERS;
use crate::body::Body;
use crate::node::Node;
use crate::node::handle::Handle;
use crate::node::threading::Threading;
use crate::sole::Sole;
use std::alloc::Global;

/// A pointer to a body that has at most N of them. N = 0 means 1, and a greater N than `MAX_HOLDERS` means
/// `MAX_HOLDERS`.
#[derive(Drop)]
pub(crate) struct Pointer<K: Threading, const N: u64> {
    node: Handle<K>,
    ghost up_to: { node.limit ≡ N },
}

impl<K: Threading, const N: u64> Pointer<K, N> {
    ghost use Rattle.tendril_block.specs.contracts.pointer.Pointer.{the_row};

    /// Allocates a node for a body and returns its only pointer, or the body if the allocation fails.
    pub(crate) fn make(alloc: Global, body: Body) -> Result<Self, Body>
        ensures inner { IfOk result (λ p. p.node.inner ≡ body) }
        ensures back { IfErr result (λ b. b ≡ body) }
    {
        let node = Handle::make(alloc, N, body)?;
        Ok(Pointer { node })
    }

    /// Adds a pointer, unless there are already as many as N allows.
    pub(crate) fn share(&self) -> Option<Self>
        ensures { IfSome result (λ p. p.node.inner ≡ self.now.node.inner) }
    {
        let node = self.node.share(most::<N>())?;
        Some(Pointer { node })
    }

    pub(crate) fn body(&self) -> &Body
        ensures { result.now ≡ self.now.node.inner }
    {
        self.node.body()
    }

    /// Whether this was the only pointer when the count was loaded. It may be stale.
    pub(crate) fn is_alone(&self) -> bool {
        self.node.is_alone()
    }

    /// Borrows the body mutably, if this is the only pointer.
    pub(crate) fn alone_mut(&mut self) -> Option<&mut Body>
        ensures* lends { sem 𝓛 (LendsSo (the_row K.row N.row K.Threading) body_row self.entry result
            (λ n w. n.node.inner ≡ w)
            (λ n. n.node.inner ≡ self.old.node.inner)) }
        ensures bytes { IfSome result (λ b. b.now ≡ self.old.node.inner) }
    {
        self.node.alone_mut()
    }

    /// Takes the bytes out of the block, or returns the pointer if there are others.
    pub(crate) fn into_sole(self) -> Result<Sole, Self>
        ensures bytes { IfOk result (λ s. s ≡ self.node.inner.bytes) }
        ensures back { IfErr result (λ p. p ≡ self) }
    {
        let Pointer { node } = self;
        match node.into_node() {
            Ok(node) => Ok(Sole::new(node)),
            Err(node) => Err(Pointer { node }),
        }
    }

    /// The only pointer to a body, whose node has a count of 1.
    pub(crate) fn from_node(node: Box<Node>) -> Self
        requires { node.value.count ≡ 1 }
        ensures { result.node.inner ≡ node.value.body }
    {
        let node = Handle::from_node(node, N);
        Pointer { node }
    }
}

// The limit of references that N means.
fn most<const N: u64>() -> u64
    ensures { result ≡ limit N }
{
    N.clamp(1, MAX_HOLDERS)
}

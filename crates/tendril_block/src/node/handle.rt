//! One reference to a node. Its kind says in which threads the references may be.
ghost use Rattle.std.specs.Prelude.{◌≡◌, ℕ, ◌+◌, ◌<◌, MatchResult, IfSome, IfOk};
ghost use Rattle.std.specs.Borrow.{sem};
ghost use Rattle.tendril_block.specs.Owned.{Crosses, block_owns, block_shares, BodyIn, body_coded, limit};

use crate::body::Body;
use crate::node::Node;
use crate::node::raw_box::RawBox;
use crate::node::threading::Threading;
use crate::node::unfreed_node::UnfreedNode;
use std::alloc::Global;
use std::marker::{Model, PhantomData, Send};

/// A reference to a node. In proofs it also has the node's limit of references and its body.
pub(crate) struct Handle<K: Threading> {
    node: *mut Node,
    alloc: Global,
    kind: PhantomData<K>,
    pub(crate) ghost limit: { ℕ },
    pub(crate) ghost inner: { BodyIn } by { body_coded },
}

impl<K: Threading> Model for Handle<K> {
    ghost also_owns = { λ b. block_owns (Crosses K.row K.any_thread) K.any_thread b.limit b.node b.alloc b.inner };

    ghost also_shares = { λ b _ κ. block_shares K.any_thread b.limit b.node b.alloc b.inner κ };
}

impl<K: Threading> Handle<K> {
    ghost use Rattle.tendril_block.specs.contracts.node.handle.Handle.{the_row};
    ghost use Rattle.tendril_block.specs.Owned.{BodyRow};
    ghost use Rattle.std.specs.Borrow.{LendsIf};
    ghost use Rattle.tendril_block.specs.Written.{with_body};

    /// Allocates a node and returns its only reference, or the body if the allocation fails.
    pub(crate) fn make(alloc: Global, limit: u64, body: Body) -> Result<Handle<K>, Body>
        ensures { MatchResult result (λ b. (b.limit ≡ limit) × (b.inner ≡ body)) (λ v. v ≡ body) }
    {
        match Box::new(alloc, Node { count: 1, body }) {
            Ok(node) => Ok(Handle::of(RawBox::of(node), limit)),
            Err(failed) => Err(failed.value.body),
        }
    }

    /// The only reference to a node that had none, whose count is 1.
    pub(crate) fn from_node(node: Box<Node>, limit: u64) -> Handle<K>
        requires { node.value.count ≡ 1 }
        ensures { (result.limit ≡ limit) × (result.inner ≡ node.value.body) }
    {
        Handle::of(RawBox::of(node), limit)
    }

    // The first reference to a node whose count is 1.
    fn of(loose: RawBox<Node, Global>, _limit: u64) -> Handle<K>
        requires { loose.value.count ≡ 1 }
        ensures { (result.limit ≡ _limit) × (result.inner ≡ loose.value.body) }
    {
        let RawBox { at, alloc } = loose;
        Handle {
            node: at,
            alloc,
            kind: PhantomData,
        }
    }

    /// The body, which no other reference changes.
    pub(crate) fn body(&self) -> &Body
        ensures { result.now ≡ self.now.inner }
    {
        unsafe { &(*self.node).body }
    }

    // How many references there were when the count was loaded. It may be stale.
    fn count(&self) -> u64 {
        let node = self.node;
        unsafe { K::peek(&raw mut (*node).count) }
    }

    /// Whether this was the only reference when the count was loaded. It may be stale.
    pub(crate) fn is_alone(&self) -> bool {
        self.count() == 1
    }

    // Adds a reference if the count is still `seen`, else returns the count.
    fn add_at(&self, alloc: Global, seen: u64, next: u64) -> Result<Handle<K>, u64>
        requires below { seen < limit self.now.limit }
        requires next { next ≡ seen + 1 }
        ensures { IfOk result (λ b. (b.limit ≡ self.now.limit) × (b.inner ≡ self.now.inner)) }
    {
        let node = self.node;
        let found = unsafe { K::add(&raw mut (*node).count, seen, next) };
        if found == seen {
            Ok(Handle {
                node,
                alloc,
                kind: PhantomData,
            })
        } else {
            Err(found)
        }
    }

    // An add past the limit would create a surplus reference, which the thread must subtract before anything else, and
    // a `&` can't record that duty. The loop repeats only if another thread changed the count. Without atomics it has
    // one iteration, and compiles to a load, a test and a store.
    /// Adds a reference by compare and exchange, unless there are `most` already.
    pub(crate) fn share(&self, most: u64) -> Option<Handle<K>>
        requires { most ≡ limit self.now.limit }
        ensures { IfSome result (λ b. (b.limit ≡ self.now.limit) × (b.inner ≡ self.now.inner)) }
    {
        let mut seen = self.count();
        for _ in 0..u64::MAX {
            if seen >= most {
                return None;
            }
            let alloc = self.body().allocator();
            match self.add_at(alloc, seen, seen + 1) {
                Ok(block) => return Some(block),
                Err(found) => seen = found,
            }
        }
        None
    }

    /// Borrows the body mutably, if this is the only reference.
    pub(crate) fn alone_mut(&mut self) -> Option<&mut Body>
        ensures* lends { sem 𝓛 (LendsIf (the_row K.row K.Threading) BodyRow self.entry result
            (with_body self.old) self.old) }
        ensures bytes { IfSome result (λ v. v.now ≡ self.old.inner) }
    {
        let node = self.node;
        let found = unsafe { K::alone(&raw mut (*node).count) };
        if found != 1 {
            return None;
        }
        unsafe { Some(&mut (*node).body) }
    }

    // Consumes the reference if it is the only one, else returns it. The count stays 1: nothing else can read it any
    // more, and the node's next first reference needs a count of 1.
    fn take_alone(self) -> Result<UnfreedNode, Handle<K>>
        ensures { MatchResult result (λ l. (l.count ≡ 1) × (l.inner ≡ self.inner)) (λ b. b ≡ self) }
    {
        let Handle { node, alloc, kind } = self;
        let count = unsafe { K::alone(&raw mut (*node).count) };
        if count != 1 {
            return Err(Handle { node, alloc, kind });
        }
        Ok(UnfreedNode { node, alloc })
    }

    /// Takes the node, with a count of 1, or returns the reference if there are others.
    pub(crate) fn into_node(self) -> Result<Box<Node>, Handle<K>>
        ensures { MatchResult result
            (λ n. (n.value.count ≡ 1) × (n.value.body ≡ self.inner))
            (λ b. b ≡ self) }
    {
        match self.take_alone() {
            Ok(last) => Ok(last.free().into_box()),
            Err(block) => Err(block),
        }
    }

    // Subtracts the reference from the count. If it was the last one, returns the node, which must then be freed.
    fn release(self) -> Option<UnfreedNode>
        ensures { IfSome result (λ l. l.inner ≡ self.inner) }
    {
        let Handle {
            node,
            alloc,
            kind: _,
        } = self;
        let found = unsafe { K::subtract(&raw mut (*node).count) };
        if found == 1 {
            Some(UnfreedNode { node, alloc })
        } else {
            None
        }
    }
}

impl<K: Threading> Drop for Handle<K> {
    fn drop(self) {
        if let Some(last) = self.release() {
            drop(last.free().into_box());
        }
    }
}

// A kind that is `Send` changes the count atomically.
unsafe impl<K: Threading + Send> Send for Handle<K> {}

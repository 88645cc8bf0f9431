//! References to a block and the calls of `Atomicity` on them, for every kind of counting.
ghost use Rattle.std.specs.Prelude.{◌≡◌, ℕ, ◌+◌, ◌-◌, ◌⊎◌, length, IfOk, IfErr, IfSome};
ghost use Rattle.std.specs.Borrow.{LendsSo, sem};
ghost use Rattle.tendril_block.specs.contracts.body.Body.{the_row as body_row};

use crate::atomicity::Atomicity;
use crate::body::Body;
use crate::copied::Copied;
use crate::node::Node;
use crate::node::threading::Threading;
use crate::pointer::Pointer;
use crate::sole::Sole;
use crate::tail::Tail;
use std::alloc::Global;
use std::marker::PhantomData;
use tendril_errors::Refusal;

/// Blocks of at most N references. N = 0 means 1, and a greater N than `MAX_HOLDERS` means `MAX_HOLDERS`. The kind K
/// says in which threads the references may be.
pub struct CountedBy<K, const N: u64> {
    kind: PhantomData<K>,
}

/// One reference to a block.
#[derive(Drop)]
pub struct Holder<K: Threading, const N: u64> {
    pointer: Pointer<K, N>,
    // What was copied for this reference is `before`, and what was copied into the body since that number was `since`.
    since: Copied,
    before: Copied,
}

impl<K: Threading, const N: u64> Atomicity for CountedBy<K, N> {
    type Block = Holder<K, N>;

    ghost bytes_of = { λ b. b.pointer.node.inner.bytes };

    ghost copied = { λ b. b.before.bytes + (b.pointer.node.inner.took - b.since.bytes) };

    fn make(bytes: Vec<u8>) -> Result<Holder<K, N>, (Refusal, Vec<u8>)> {
        let alloc = *bytes.allocator();
        let Ok(mut pointer) = Pointer::make(alloc, Body::empty(alloc)) else {
            return Err((Refusal::Memory, bytes));
        };
        // The vector is moved in after the node is allocated, so that it can be returned if that fails.
        match pointer.alone_mut() {
            Some(body) => body.adopt(bytes),
            None => return Err((Refusal::Memory, bytes)),
        }
        Ok(Holder::new(pointer))
    }

    #[inline(always)]
    fn copy(alloc: Global, bytes: &[u8], capacity: usize) -> Result<Holder<K, N>, Refusal> {
        let node = Node::copy(alloc, bytes, capacity)?;
        Ok(Holder::new(Pointer::from_node(node)))
    }

    fn share(block: &Holder<K, N>) -> Result<Holder<K, N>, Refusal> {
        let pointer = block.pointer.share().ok_or(Refusal::Count)?;
        let none = Copied::zero();
        let since = none.plus(&none, pointer.body().took(), 0);
        Ok(Holder {
            pointer,
            since,
            before: none,
        })
    }

    fn bytes(block: &Holder<K, N>) -> &[u8] {
        block.pointer.body().as_slice()
    }

    fn alone_mut(block: &mut Holder<K, N>) -> Option<&mut Body> {
        block.settle();
        block.pointer.alone_mut()
    }

    fn make_mut(block: &mut Holder<K, N>) -> Result<&mut Body, Refusal> {
        block.own()?;
        match CountedBy::<K, N>::alone_mut(block) {
            Some(body) => Ok(body),
            None => Err(Refusal::Memory),
        }
    }

    fn compact(block: &mut Holder<K, N>, start: usize, keep: usize, tail: Tail) -> bool {
        let none = Copied::zero();
        let since = none.plus(&none, block.pointer.body().took(), 0);
        let Some(body) = block.pointer.alone_mut() else {
            return false;
        };
        if !body.compact(start, keep, tail) {
            return false;
        }
        // As in a new block: what was copied for this reference before doesn't count any more.
        block.since = since;
        block.before = none;
        true
    }

    fn into_sole(block: Holder<K, N>) -> Result<Sole, Holder<K, N>> {
        let Holder {
            pointer,
            since,
            before,
        } = block;
        match pointer.into_sole() {
            Ok(sole) => Ok(sole),
            Err(pointer) => Err(Holder {
                pointer,
                since,
                before,
            }),
        }
    }

    fn from_sole(sole: Sole) -> Result<Holder<K, N>, (Refusal, Sole)> {
        Ok(Holder::new(Pointer::from_node(sole.into_node())))
    }
}

impl<K: Threading, const N: u64> Holder<K, N> {
    // The only reference to a block.
    fn new(pointer: Pointer<K, N>) -> Self
        ensures pointer { result.pointer ≡ pointer }
        ensures since { result.since.bytes ≡ 0 }
        ensures before { result.before.bytes ≡ 0 }
    {
        Holder {
            pointer,
            since: Copied::zero(),
            before: Copied::zero(),
        }
    }

    // Adds to `before` what was copied into the body so far, and counts anew from here.
    fn settle(&mut self)
        ensures pointer { self.new.pointer ≡ self.old.pointer }
        ensures since { self.new.since.bytes ≡ self.old.pointer.node.inner.took }
        ensures before { self.new.before.bytes
            ≡ self.old.before.bytes + (self.old.pointer.node.inner.took - self.old.since.bytes) }
    {
        let pointer = &self.pointer;
        let took = pointer.body().took();
        let none = Copied::zero();
        let before = self.before.plus(&self.since, took, 0);
        let since = none.plus(&none, took, 0);
        self.before = before;
        self.since = since;
    }

    // Replaces the block by a copy, if there are other references.
    fn own(&mut self) -> Result<(), Refusal>
        ensures bytes { self.new.pointer.node.inner.bytes ≡ self.old.pointer.node.inner.bytes }
        ensures copied { (self.new ≡ self.old)
            ⊎ (self.new.before.bytes + (self.new.pointer.node.inner.took - self.new.since.bytes)
            ≡ length self.old.pointer.node.inner.bytes) }
        ensures refusal { IfErr result (λ r. r ≡ Refusal.Memory) }
    {
        if self.pointer.is_alone() {
            return Ok(());
        }
        let body = self.pointer.body();
        let own = CountedBy::<K, N>::copy(body.allocator(), body.as_slice(), 0)?;
        *self = own;
        Ok(())
    }
}

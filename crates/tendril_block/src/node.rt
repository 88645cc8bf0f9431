//! The node of a block: one allocation with the count of its references and the body.
//!
//! All functions with a raw pointer are here. `specs/Owned` defines what a reference owns, by the abstract machine of
//! `tendril_count` and the invariant that owns a node's count.

pub(crate) mod any_thread;
pub(crate) mod handle;
pub(crate) mod one_thread;
pub(crate) mod raw_box;
pub(crate) mod threading;
pub(crate) mod unfreed_node;

ghost use Rattle.std.specs.Prelude.{◌≡◌, length, IfOk, IfErr};

use crate::body::Body;
use crate::inline_bytes::NODE_CAPACITY;
use std::alloc::Global;
use tendril_errors::Refusal;

#[derive(Drop)]
pub(crate) struct Node {
    pub(crate) count: u64,
    pub(crate) body: Body,
}

const _: () = prove!(size_of::<Node>() == 56);

impl Node {
    /// A copy of these bytes with at least this capacity, in a node with a count of 1.
    // A caller gets the code for few bytes alone, which go straight to the node.
    #[inline(always)]
    pub(crate) fn copy(alloc: Global, bytes: &[u8], capacity: usize) -> Result<Box<Node>, Refusal>
        ensures count { IfOk result (λ n. n.value.count ≡ 1) }
        ensures bytes { IfOk result (λ n. n.value.body.bytes ≡ bytes.now) }
        ensures took { IfOk result (λ n. n.value.body.took ≡ length bytes.now) }
        ensures refusal { IfErr result (λ r. r ≡ Refusal.Memory) }
    {
        if capacity.max(bytes.len()) > NODE_CAPACITY {
            return Node::copy_many(alloc, bytes, capacity);
        }
        let mut node = Node::of(alloc, Body::empty(alloc))?;
        if !node.body.append_few(bytes) {
            return Err(Refusal::Memory);
        }
        Ok(node)
    }

    // As `copy`, with the bytes in a vector.
    #[inline(never)]
    fn copy_many(alloc: Global, bytes: &[u8], capacity: usize) -> Result<Box<Node>, Refusal>
        ensures count { IfOk result (λ n. n.value.count ≡ 1) }
        ensures bytes { IfOk result (λ n. n.value.body.bytes ≡ bytes.now) }
        ensures took { IfOk result (λ n. n.value.body.took ≡ length bytes.now) }
        ensures refusal { IfErr result (λ r. r ≡ Refusal.Memory) }
    {
        let body = Body::in_vector(alloc, bytes, capacity)?;
        Node::of(alloc, body)
    }

    #[inline(always)]
    fn of(alloc: Global, body: Body) -> Result<Box<Node>, Refusal>
        ensures node { IfOk result (λ n. (n.value.count ≡ 1) × (n.value.body ≡ body)) }
        ensures refusal { IfErr result (λ r. r ≡ Refusal.Memory) }
    {
        match Box::new(alloc, Node { count: 1, body }) {
            Ok(node) => Ok(node),
            Err(_) => Err(Refusal::Memory),
        }
    }
}

//! Constructors: bytes are stored inline, or in a new block.
ghost use Rattle.std.specs.Prelude.{◌≡◌, ◌<◌, ◌≤◌, ◌+◌, ◌++◌, [], length, IfOk, IfErr};
ghost use Rattle.tendril_errors.specs.Outcomes.{MemoryMay};
ghost use Rattle.tendril_block.specs.Tail.{tail_bytes};

use crate::storage::replace::try_replace_in_block;
use crate::storage::{Held, Storage, put, put_tail};
use std::alloc::Global;
use std::cell::Cell;
use tendril_block::words::word_of;
use tendril_block::{Atomicity, INLINE_LEN, MAX_LEN, NODE_CAPACITY, Refusal, Tail};

impl<A: Atomicity> Storage<A> {
    /// Returns a storage without bytes, with capacity for `capacity` bytes. Allocates only for more than 8, and returns
    /// `Memory` if that fails.
    pub fn with_capacity(alloc: Global, capacity: u32) -> Result<Self, Refusal>
        ensures bytes { IfOk result (λ s. s.bytes ≡ []) }
        ensures copied { IfOk result (λ s. s.copied ≡ 0) }
        ensures refusal { IfErr result (MemoryMay capacity) }
    {
        if capacity as usize <= INLINE_LEN {
            return Ok(Self::new(alloc));
        }
        Self::copied(alloc, &[], capacity as usize)
    }

    /// Stores the bytes of a vector. Up to 8 are copied inline; more stay in the vector, with its spare capacity, and
    /// only the block's node is allocated. Returns `Memory` if that fails.
    pub fn from_vec(alloc: Global, bytes: Vec<u8>) -> Result<Self, Refusal>
        requires fits { length bytes.items ≤ MAX_LEN }
        ensures bytes { IfOk result (λ s. s.bytes ≡ bytes.items) }
        ensures copied { IfOk result (λ s. s.copied ≡ length bytes.items) }
        ensures refusal { IfErr result (MemoryMay (length bytes.items)) }
    {
        if bytes.len() <= INLINE_LEN {
            return Ok(Self::few(alloc, bytes.as_slice()));
        }
        Self::in_block(alloc, bytes)
    }

    /// Stores a copy of at most 8 bytes inline. Allocates nothing. It is inlined into the caller: constant bytes are
    /// one word there, with no call.
    #[inline(always)]
    pub fn few(alloc: Global, bytes: &[u8]) -> Self
        requires { length bytes.now ≤ INLINE_LEN }
        ensures bytes { result.bytes ≡ bytes.now }
        ensures copied { result.copied ≡ length bytes.now }
    {
        Storage {
            held: Held::Inline {
                len: bytes.len() as u64,
                buffer: word_of(bytes).to_le_bytes(),
            },
            alloc,
        }
    }

    /// Stores a copy of the bytes. Allocates only for more than 8, and returns `Memory` if that fails.
    #[inline(always)]
    pub fn from_slice(alloc: Global, bytes: &[u8]) -> Result<Self, Refusal>
        requires fits { length bytes.now ≤ MAX_LEN }
        ensures bytes { IfOk result (λ s. s.bytes ≡ bytes.now) }
        ensures copied { IfOk result (λ s. s.copied ≡ length bytes.now) }
        ensures refusal { IfErr result (MemoryMay (length bytes.now)) }
    {
        if bytes.len() <= INLINE_LEN {
            return Ok(Self::few(alloc, bytes));
        }
        Self::copied(alloc, bytes, bytes.len())
    }

    /// Stores a copy of the bytes, with a tail after them. Allocates only for more than 8, and returns `Memory` if that
    /// fails.
    pub fn with_tail(alloc: Global, left: &[u8], tail: Tail) -> Result<Self, Refusal>
        requires fits { length left.now + length (tail_bytes tail) ≤ MAX_LEN }
        ensures bytes { IfOk result (λ s. s.bytes ≡ left.now ++ tail_bytes tail.entry) }
        ensures copied { IfOk result (λ s. s.copied ≡ length left.now + length (tail_bytes tail.entry)) }
        ensures refusal { IfErr result (MemoryMay (length left.now + length (tail_bytes tail.entry))) }
    {
        let len = left.len() + tail.len();
        if len > INLINE_LEN {
            let block = joined::<A>(alloc, left, tail)?;
            return Ok(Self::viewed(alloc, block, len as u32));
        }
        let mut buffer = [0; INLINE_LEN];
        put(&mut buffer, 0, left);
        put_tail(&mut buffer, left.len(), tail);
        Ok(Storage {
            held: Held::Inline {
                len: len as u64,
                buffer,
            },
            alloc,
        })
    }

    // Stores the bytes of a vector in a new block.
    fn in_block(alloc: Global, bytes: Vec<u8>) -> Result<Self, Refusal>
        requires fits { length bytes.items ≤ MAX_LEN }
        ensures bytes { IfOk result (λ s. s.bytes ≡ bytes.items) }
        ensures copied { IfOk result (λ s. s.copied ≡ length bytes.items) }
        ensures refusal { IfErr result (λ r. r ≡ Refusal.Memory) }
    {
        let len = bytes.len() as u32;
        match A::make(bytes) {
            Ok(block) => Ok(Self::viewed(alloc, block, len)),
            Err(_) => Err(Refusal::Memory),
        }
    }

    /// Stores a copy of the bytes in a new block of this capacity.
    #[inline(always)]
    pub(super) fn copied(alloc: Global, bytes: &[u8], capacity: usize) -> Result<Self, Refusal>
        requires fits { length bytes.now ≤ MAX_LEN }
        ensures bytes { IfOk result (λ s. s.bytes ≡ bytes.now) }
        ensures copied { IfOk result (λ s. s.copied ≡ length bytes.now) }
        ensures refusal { IfErr result (λ r. r ≡ Refusal.Memory) }
    {
        let block = A::copy(alloc, bytes, capacity)?;
        Ok(Self::viewed(alloc, block, bytes.len() as u32))
    }

    /// Returns a view of all `len` bytes of a block that nothing else refers to.
    #[inline(always)]
    pub(crate) fn viewed(alloc: Global, block: A::Block, len: u32) -> Self
        requires { len ≡ length (A.bytes_of block) }
        ensures bytes { result.bytes ≡ A.bytes_of block }
        ensures copied { result.copied ≡ A.copied block }
    {
        Storage {
            held: Held::View {
                shared: Cell::new(false),
                block,
                offset: 0,
                len,
            },
            alloc,
        }
    }
}

// Returns a new block with the bytes and a tail.
fn joined<A: Atomicity>(alloc: Global, left: &[u8], tail: Tail) -> Result<A::Block, Refusal>
    requires fits { length left.now + length (tail_bytes tail) ≤ MAX_LEN }
    ensures bytes { IfOk result (λ b. A.bytes_of b ≡ left.now ++ tail_bytes tail.entry) }
    ensures copied { IfOk result (λ b. A.copied b ≡ length left.now + length (tail_bytes tail.entry)) }
    ensures refusal { IfErr result (λ r. r ≡ Refusal.Memory) }
{
    let mut block = A::copy(alloc, left, new_capacity(left.len() + tail.len(), &tail))?;
    if !try_replace_in_block::<A>(&mut block, left.len(), tail) {
        return Err(Refusal::Memory);
    }
    Ok(block)
}

// Returns the capacity of a new block of `len` bytes. More than `NODE_CAPACITY` bytes that end with a push get twice
// their length, since more pushes may follow. Zeros don't: they are a buffer of the size that the caller wants.
fn new_capacity(len: usize, tail: &Tail) -> usize
    requires { len ≤ MAX_LEN }
{
    match tail {
        Tail::Parts(..) if len > NODE_CAPACITY => len + len,
        _ => len,
    }
}

//! Moving bytes to the start of their block, over those that were popped, or into a block of their own.
ghost use Rattle.std.specs.Prelude.{◌≡◌, ◌<◌, ◌≤◌, ◌+◌, ◌++◌, ◌⊎◌, length, take, drop, true, false, IfOk, IfErr};
ghost use Rattle.std.specs.Prelude.{IfSome, OnSome, IfNone, OnErr};
ghost use Rattle.tendril_errors.specs.Outcomes.{MemoryMay};
ghost use Rattle.tendril_block.specs.Tail.{tail_bytes};

use crate::storage::{Held, Storage};
use tendril_block::{Atomicity, INLINE_LEN, MAX_LEN, Refusal, Tail};

impl<A: Atomicity> Storage<A> {
    /// Copies the bytes into a block of their own if they are a small part of their block, or it has other references:
    /// then this storage keeps no larger block alive. Up to 8 bytes in a block become inline. Else does nothing.
    /// Returns `Memory` if an allocation fails; then nothing has changed.
    pub fn compact(&mut self) -> Result<(), Refusal>
        ensures bytes { self.new.bytes ≡ self.old.bytes }
        ensures copied { (self.new.copied ≡ self.old.copied) ⊎ (self.new.copied ≡ length self.old.bytes) }
        ensures refusal { IfErr result (MemoryMay (length self.old.bytes)) }
        ensures err { OnErr result (self.new ≡ self.old) }
    {
        if self.is_compact() {
            return Ok(());
        }
        let copy = self.to_compact()?;
        *self = copy;
        Ok(())
    }

    /// Stores a copy of the bytes inline or in a block of their own, without spare capacity. Returns `Memory` if an
    /// allocation fails.
    pub fn to_compact(&self) -> Result<Self, Refusal>
        ensures bytes { IfOk result (λ s. s.bytes ≡ self.now.bytes) }
        ensures copied { IfOk result (λ s. s.copied ≡ length self.now.bytes) }
        ensures refusal { IfErr result (MemoryMay (length self.now.bytes)) }
    {
        Self::from_slice(self.alloc, self.as_slice())
    }

    // Whether the bytes are inline, or are more than 8 and no small part of their block, which has no other reference.
    // Such a block isn't shared any more, whatever its mark says.
    fn is_compact(&mut self) -> bool
        ensures { self.new ≡ self.old }
    {
        match &mut self.held {
            Held::Inline { .. } => true,
            Held::View {
                shared,
                block,
                len,
                ..
            } => {
                let len = *len;
                let dropped = A::bytes(block).len() - len as usize;
                if len as usize <= INLINE_LEN || is_small_part(len, dropped) {
                    return false;
                }
                if !is_only_reference::<A>(block) {
                    return false;
                }
                shared.set(false);
                true
            }
        }
    }

    // Whether a push should first move the bytes to the start of the block, or into a new block, since the bytes popped
    // off the front are more than twice as many plus 64. A move copies at most half as many bytes as were popped since
    // the last one, so its cost is amortized. Thus a push of y bytes onto b bytes never needs more capacity than
    // 3 b + 64 + y.
    pub(super) fn is_mostly_dropped(&self) -> bool {
        match &self.held {
            Held::Inline { .. } => false,
            Held::View { offset, len, .. } => is_small_part(*len, *offset as usize),
        }
    }

    // Moves the first `keep` bytes to the start of their block, and appends a tail, if this is the block's only
    // reference, the old and the new place don't overlap, and its capacity is enough; returns whether it did.
    pub(super) fn try_compact(&mut self, keep: usize, tail: Tail) -> bool
        requires within { keep ≤ length self.old.bytes }
        requires fits { keep + length (tail_bytes tail) ≤ MAX_LEN }
        ensures bytes { result ≡ true → self.new.bytes ≡ take keep self.old.bytes ++ tail_bytes tail.entry }
        ensures copied { result ≡ true → self.new.copied ≡ keep + length (tail_bytes tail.entry) }
        ensures unchanged { result ≡ false → self.new ≡ self.old }
    {
        let Held::View {
            shared,
            block,
            offset,
            len,
        } = &mut self.held
        else {
            return false;
        };
        let Some(total) = try_compact_block::<A>(block, *offset as usize, keep, tail) else {
            return false;
        };
        *offset = 0;
        *len = total;
        shared.set(false);
        true
    }
}

// Whether `len` bytes are a small part of their block, where `dropped` other bytes were dropped: these are more than
// twice as many plus 64.
fn is_small_part(len: u32, dropped: usize) -> bool {
    dropped as u64 > 2 * len as u64 + 64
}

// Whether this is the only reference to the block.
fn is_only_reference<A: Atomicity>(block: &mut A::Block) -> bool
    ensures bytes { A.bytes_of block.new ≡ A.bytes_of block.old }
    ensures copied { A.copied block.new ≡ A.copied block.old }
{
    match A::alone_mut(block) {
        Some(_) => true,
        None => false,
    }
}

// Moves the `keep` bytes of a block from `start` on to its start, and appends a tail, under the conditions of
// `try_compact`; returns the number of bytes that the block has then.
fn try_compact_block<A: Atomicity>(
    block: &mut A::Block,
    start: usize,
    keep: usize,
    tail: Tail,
) -> Option<u32>
    requires within { start + keep ≤ length (A.bytes_of block.old) }
    requires fits { keep + length (tail_bytes tail) ≤ MAX_LEN }
    ensures bytes { OnSome result (A.bytes_of block.new
        ≡ take keep (drop start (A.bytes_of block.old)) ++ tail_bytes tail.entry) }
    ensures copied { OnSome result (A.copied block.new ≡ keep + length (tail_bytes tail.entry)) }
    ensures len { IfSome result (λ total. total ≡ keep + length (tail_bytes tail.entry)) }
    ensures bytes_kept { IfNone result (A.bytes_of block.new ≡ A.bytes_of block.old) }
    ensures copied_kept { IfNone result (A.copied block.new ≡ A.copied block.old) }
{
    if !A::compact(block, start, keep, tail) {
        return None;
    }
    Some(A::bytes(block).len() as u32)
}

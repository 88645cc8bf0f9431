//! Replacing the end of stored bytes: in their block, if this is its only reference, else in a copy.
ghost use Rattle.std.specs.Prelude.{◌≡◌, ◌<◌, ◌≤◌, ◌+◌, ◌++◌, length, take, replicate, max, true, false, IfErr, OnOk};
ghost use Rattle.std.specs.Prelude.{OnErr};
ghost use Rattle.tendril_errors.specs.Outcomes.{MemoryMay};
ghost use Rattle.tendril_block.specs.Tail.{tail_bytes};

use crate::storage::{Held, Storage, put_tail};
use tendril_block::{Atomicity, INLINE_LEN, MAX_LEN, Refusal, Tail};

impl<A: Atomicity> Storage<A> {
    /// Replaces all bytes from `keep` on by two slices: in place, if this is the block's only reference, else in a copy
    /// of the bytes that stay. If far more bytes were popped off the start of the block than are left, and it has the
    /// capacity, the bytes are moved to its start. Returns `Memory` if an allocation fails; then nothing has changed.
    #[inline(always)]
    pub fn replace_end(&mut self, keep: usize, middle: &[u8], more: &[u8]) -> Result<(), Refusal>
        requires within { keep ≤ length self.old.bytes }
        requires fits { keep + length middle.now + length more.now ≤ MAX_LEN }
        ensures bytes { OnOk result (self.new.bytes ≡ take keep self.old.bytes ++ middle.now ++ more.now) }
        ensures copied { self.new.copied ≤ max self.old.copied keep + length middle.now + length more.now }
        ensures refusal { IfErr result (MemoryMay (keep + length middle.now + length more.now)) }
        ensures err { OnErr result (self.new ≡ self.old) }
    {
        if middle.is_empty() && self.try_append_in_place(keep, more) {
            return Ok(());
        }
        self.replace_end_anywhere(keep, middle, more)
    }

    // The slow path of `replace_end`. It is a function of its own, so that a push that finds spare capacity builds no
    // `Tail`.
    #[inline(never)]
    fn replace_end_anywhere(
        &mut self,
        keep: usize,
        middle: &[u8],
        more: &[u8],
    ) -> Result<(), Refusal>
        requires within { keep ≤ length self.old.bytes }
        requires fits { keep + length middle.now + length more.now ≤ MAX_LEN }
        ensures bytes { OnOk result (self.new.bytes ≡ take keep self.old.bytes ++ middle.now ++ more.now) }
        ensures copied { self.new.copied ≤ max self.old.copied keep + length middle.now + length more.now }
        ensures refusal { IfErr result (MemoryMay (keep + length middle.now + length more.now)) }
        ensures err { OnErr result (self.new ≡ self.old) }
    {
        self.replace_end_by(keep, Tail::Parts(middle, more))
    }

    /// Appends `count` zeros, as `replace_end` appends bytes.
    pub fn push_zeros(&mut self, count: usize) -> Result<(), Refusal>
        requires { length self.old.bytes + count ≤ MAX_LEN }
        ensures bytes { OnOk result (self.new.bytes ≡ self.old.bytes ++ replicate count 0) }
        ensures copied { self.new.copied ≤ max self.old.copied (length self.old.bytes) + count }
        ensures refusal { IfErr result (MemoryMay (length self.old.bytes + count)) }
        ensures err { OnErr result (self.new ≡ self.old) }
    {
        let len = self.as_slice().len();
        self.replace_end_by(len, Tail::Zeros(count))
    }

    // Replaces all bytes from `keep` on by a tail. Inlined, so that the kind of tail is known there.
    #[inline(always)]
    fn replace_end_by(&mut self, keep: usize, tail: Tail) -> Result<(), Refusal>
        requires within { keep ≤ length self.old.bytes }
        requires fits { keep + length (tail_bytes tail) ≤ MAX_LEN }
        ensures bytes { OnOk result (self.new.bytes ≡ take keep self.old.bytes ++ tail_bytes tail.entry) }
        ensures copied { self.new.copied ≤ max self.old.copied keep + length (tail_bytes tail.entry) }
        ensures refusal { IfErr result (MemoryMay (keep + length (tail_bytes tail.entry))) }
        ensures err { OnErr result (self.new ≡ self.old) }
    {
        let replaced = if self.is_mostly_dropped() {
            self.try_compact(keep, tail)
        } else {
            self.try_replace_in_place(keep, tail)
        };
        if replaced {
            return Ok(());
        }
        // A copy comes first: a vector that grows allocates twice its size, popped bytes included; a copy allocates for
        // the text alone, and nothing for at most 8 bytes.
        match Self::with_tail(self.alloc, &self.as_slice()[..keep], tail) {
            Ok(copy) => {
                *self = copy;
                Ok(())
            }
            Err(_) if self.try_replace_in_place(keep, tail) => Ok(()),
            Err(refusal) => Err(refusal),
        }
    }

    // Appends `more` to the first `keep` bytes without moving them, and returns whether it did. It does if these are
    // all bytes of the block, it has no other reference, and the bytes are in a vector with the spare capacity: the
    // usual case of a push onto a long text.
    #[tactic(auto, using(crate::proofs::Views::replaces))]
    #[inline(always)]
    fn try_append_in_place(&mut self, keep: usize, more: &[u8]) -> bool
        requires within { keep ≤ length self.old.bytes }
        requires fits { keep + length more.now ≤ MAX_LEN }
        ensures bytes { result ≡ true → self.new.bytes ≡ take keep self.old.bytes ++ more.now }
        ensures copied { result ≡ true → self.new.copied ≡ self.old.copied + length more.now }
        ensures unchanged { result ≡ false → self.new ≡ self.old }
    {
        match &mut self.held {
            Held::Inline { .. } => false,
            Held::View {
                shared,
                block,
                len,
                ..
            } => {
                if !try_append_in_block::<A>(block, keep, more) {
                    return false;
                }
                *len += more.len() as u32;
                shared.set(false);
                true
            }
        }
    }

    // Replaces all bytes from `keep` on by a tail where they are stored, without a new block; returns whether it did.
    #[tactic(auto, using(crate::proofs::Views::replaces))]
    #[inline(always)]
    fn try_replace_in_place(&mut self, keep: usize, tail: Tail) -> bool
        requires within { keep ≤ length self.old.bytes }
        requires fits { keep + length (tail_bytes tail) ≤ MAX_LEN }
        ensures bytes { result ≡ true → self.new.bytes ≡ take keep self.old.bytes ++ tail_bytes tail.entry }
        ensures copied { result ≡ true → self.new.copied ≤ max self.old.copied keep + length (tail_bytes tail.entry) }
        ensures unchanged { result ≡ false → self.new ≡ self.old }
    {
        let total = keep + tail.len();
        match &mut self.held {
            Held::Inline { buffer, .. } => {
                if total > INLINE_LEN {
                    return false;
                }
                let mut buffer = *buffer;
                put_tail(&mut buffer, keep, tail);
                self.held = Held::Inline {
                    len: total as u64,
                    buffer,
                };
                true
            }
            Held::View {
                shared,
                block,
                offset,
                len,
            } => {
                let start = *offset as usize;
                if total > MAX_LEN as usize - start {
                    return false;
                }
                if !try_replace_in_block::<A>(block, start + keep, tail) {
                    return false;
                }
                *len = total as u32;
                shared.set(false);
                true
            }
        }
    }
}

// Appends bytes to a block of exactly `at` bytes, if this is its only reference and they are in a vector with the spare
// capacity; returns whether it did.
#[inline(always)]
fn try_append_in_block<A: Atomicity>(block: &mut A::Block, at: usize, more: &[u8]) -> bool
    ensures bytes { result ≡ true → A.bytes_of block.new ≡ A.bytes_of block.old ++ more.now }
    ensures at { result ≡ true → length (A.bytes_of block.old) ≡ at }
    ensures copied { result ≡ true → A.copied block.new ≡ A.copied block.old + length more.now }
    ensures bytes_kept { result ≡ false → A.bytes_of block.new ≡ A.bytes_of block.old }
    ensures copied_kept { result ≡ false → A.copied block.new ≡ A.copied block.old }
{
    match A::alone_mut(block) {
        Some(body) => body.append_at(at, more),
        None => false,
    }
}

/// Replaces all bytes of a block from `keep` on by a tail, if this is its only reference and no allocation fails;
/// returns whether it did.
#[inline(always)]
pub(super) fn try_replace_in_block<A: Atomicity>(
    block: &mut A::Block,
    keep: usize,
    tail: Tail,
) -> bool
    ensures bytes { result ≡ true → A.bytes_of block.new ≡ take keep (A.bytes_of block.old) ++ tail_bytes tail.entry }
    ensures copied { result ≡ true → A.copied block.new ≡ A.copied block.old + length (tail_bytes tail.entry) }
    ensures bytes_kept { result ≡ false → A.bytes_of block.new ≡ A.bytes_of block.old }
    ensures copied_kept { result ≡ false → A.copied block.new ≡ A.copied block.old }
{
    match A::alone_mut(block) {
        Some(body) => body.replace_end(keep, tail).is_ok(),
        None => false,
    }
}

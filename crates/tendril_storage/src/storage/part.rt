//! Slices of stored bytes: up to 8 are copied inline, more are a view of the same block.
ghost use Rattle.std.specs.Prelude.{◌≡◌, ◌<◌, ◌≤◌, ◌+◌, ◌⊎◌, length, take, drop, IfOk, IfErr, IfSome, OnSome};
ghost use Rattle.tendril_errors.specs.Outcomes.{CountMay};
ghost use Rattle.tendril_storage.specs.Partings.{IsParted, TakesFew, TakesFront};

use crate::storage::{Held, Storage};
use std::cell::Cell;
use std::mem;
use tendril_block::words::word_of;
use tendril_block::{Atomicity, INLINE_LEN, MAX_LEN, Refusal};

impl<A: Atomicity> Storage<A> {
    ghost use Rattle.tendril_storage.specs.Texts.{ShareCost};

    /// Returns a clone: up to 8 bytes are copied inline, more are another view of the same block. Returns `Count` if
    /// that has as many references as it can have.
    #[inline(always)]
    pub fn whole(&self) -> Result<Self, Refusal>
        ensures bytes { IfOk result (λ s. s.bytes ≡ self.now.bytes) }
        ensures copied { IfOk result ShareCost }
        ensures refusal { IfErr result (CountMay (length self.now.bytes)) }
    {
        match &self.held {
            Held::Inline { len, buffer } => Ok(Storage {
                held: Held::Inline {
                    len: *len,
                    buffer: *buffer,
                },
                alloc: self.alloc,
            }),
            Held::View { .. } => self.part(0, self.len32()),
        }
    }

    /// Returns the `count` bytes from the offset on: up to 8 are copied inline, more are another view of the same
    /// block. Returns `Count` if that has as many references as it can have.
    #[inline(always)]
    pub fn part(&self, offset: u32, count: u32) -> Result<Self, Refusal>
        requires { offset + count ≤ length self.now.bytes }
        ensures bytes { IfOk result (λ s. s.bytes ≡ take count (drop offset self.now.bytes)) }
        ensures copied { IfOk result ShareCost }
        ensures refusal { IfErr result (CountMay count) }
    {
        if count as usize <= INLINE_LEN {
            return Ok(self.inline_part(offset, count));
        }
        self.view_part(offset, count)
    }

    #[inline(always)]
    fn inline_part(&self, offset: u32, count: u32) -> Self
        requires within { offset + count ≤ length self.now.bytes }
        requires short { count ≤ INLINE_LEN }
        ensures bytes { result.bytes ≡ take count (drop offset self.now.bytes) }
        ensures copied { result.copied ≡ count }
    {
        let start = offset as usize;
        let end = start + count as usize;
        Self::few(self.alloc, &self.as_slice()[start..end])
    }

    #[tactic(auto, using(crate::proofs::Views::slices))]
    #[inline(always)]
    fn view_part(&self, offset: u32, count: u32) -> Result<Self, Refusal>
        requires within { offset + count ≤ length self.now.bytes }
        requires long { INLINE_LEN < count }
        ensures bytes { IfOk result (λ s. s.bytes ≡ take count (drop offset self.now.bytes)) }
        ensures copied { IfOk result (λ s. s.copied ≡ 0) }
        ensures refusal { IfErr result (λ r. r ≡ Refusal.Count) }
    {
        match &self.held {
            Held::Inline { .. } => unreachable!(),
            Held::View {
                shared,
                block,
                offset: first,
                ..
            } => {
                let block = A::share(block)?;
                shared.set(true);
                Ok(Storage {
                    held: Held::View {
                        shared: Cell::new(true),
                        block,
                        offset: *first + offset,
                        len: count,
                    },
                    alloc: self.alloc,
                })
            }
        }
    }

    /// Keeps the `count` bytes from the offset on and drops the others: up to 8 are copied inline, more stay in the
    /// view.
    #[inline(always)]
    pub fn keep_part(&mut self, offset: u32, count: u32)
        requires { offset + count ≤ length self.old.bytes }
        ensures bytes { self.new.bytes ≡ take count (drop offset self.old.bytes) }
        ensures short { count ≤ INLINE_LEN → self.new.copied ≤ INLINE_LEN }
        ensures long { INLINE_LEN < count → self.new.copied ≡ self.old.copied }
    {
        if count as usize <= INLINE_LEN {
            let part = self.inline_part(offset, count);
            *self = part;
            return;
        }
        self.keep_view(offset, count);
    }

    #[tactic(auto, using(crate::proofs::Views::slices))]
    #[inline(always)]
    fn keep_view(&mut self, offset: u32, count: u32)
        requires within { offset + count ≤ length self.old.bytes }
        requires long { INLINE_LEN < count }
        ensures bytes { self.new.bytes ≡ take count (drop offset self.old.bytes) }
        ensures copied { self.new.copied ≡ self.old.copied }
    {
        match &mut self.held {
            Held::Inline { .. } => unreachable!(),
            Held::View {
                shared,
                offset: first,
                len,
                ..
            } => {
                if count < *len {
                    shared.set(true);
                }
                *first += offset;
                *len = count;
            }
        }
    }

    /// Removes the first `count` bytes and returns them. Both sides share the block only if both have more than 8
    /// bytes; then it returns `Count` if the block has as many references as it can have.
    #[inline(always)]
    pub fn take_front(&mut self, count: u32) -> Result<Self, Refusal>
        requires { count ≤ length self.old.bytes }
        ensures { TakesFront count self.old result self.new }
    {
        if let Some(front) = self.take_few(count, 0) {
            return Ok(front);
        }
        if count as usize > INLINE_LEN && count == self.len32() {
            let empty = Self::new(self.alloc);
            return Ok(mem::replace(self, empty));
        }
        // The front of a long view is returned in registers: the words of one that a call wrote one by one would be
        // loaded as a pair, which stalls the processor.
        if count as usize > INLINE_LEN && (self.len32() - count) as usize > INLINE_LEN {
            let front = self.view_part(0, count)?;
            self.skip_in_view(count);
            return Ok(front);
        }
        Ok(self.take_with_few(count))
    }

    // Removes the first `count` bytes, if they or those after them are at most 8.
    #[inline(never)]
    fn take_with_few(&mut self, count: u32) -> Self
        requires within { count ≤ length self.old.bytes }
        requires few { (count ≤ INLINE_LEN) ⊎ (length self.old.bytes ≤ INLINE_LEN + count) }
        ensures { IsParted count self.old result self.new }
    {
        let rest = self.len32() - count;
        if count as usize <= INLINE_LEN {
            let front = self.inline_part(0, count);
            self.keep_part(count, rest);
            return front;
        }
        let end = self.inline_part(count, rest);
        let mut front = mem::replace(self, end);
        front.keep_part(0, count);
        front
    }

    /// Removes the first `count` bytes of a view and returns them, and drops the next `skip`, if `count` is at most 8
    /// and more than 8 bytes are left then. Else returns `None` and changes nothing. Inlined into the caller, since
    /// this is the usual case of pops of characters, runs and broken bytes.
    #[inline(always)]
    pub fn take_few(&mut self, count: u32, skip: u32) -> Option<Self>
        requires { count + skip ≤ length self.old.bytes }
        ensures { TakesFew count skip self.old result self.new }
    {
        let front = self.few_before_many(count, skip)?;
        self.skip_in_view(count + skip);
        Some(front)
    }

    // Returns the first `count` bytes of a view, if `count` is at most 8 and more than 8 bytes follow the skipped ones.
    #[tactic(auto, using(crate::proofs::Views::slices))]
    #[inline(always)]
    fn few_before_many(&self, count: u32, skip: u32) -> Option<Self>
        requires { count + skip ≤ length self.now.bytes }
        ensures bytes { IfSome result (λ front. front.bytes ≡ take count self.now.bytes) }
        ensures copied { IfSome result (λ front. front.copied ≡ count) }
        ensures few { OnSome result (count ≤ INLINE_LEN) }
        ensures many { OnSome result (INLINE_LEN + (count + skip) < length self.now.bytes) }
        ensures short { OnSome result (length self.now.bytes ≤ MAX_LEN) }
    {
        match &self.held {
            Held::Inline { .. } => None,
            Held::View {
                block,
                offset,
                len,
                ..
            } => {
                if count as usize > INLINE_LEN || (*len - count - skip) as usize <= INLINE_LEN {
                    return None;
                }
                // The view has more than eight bytes, so one load of eight reads these, whatever their number: a branch
                // on it would often be mispredicted. The bytes after them in the buffer belong to no text.
                let start = *offset as usize;
                let word = word_of(&A::bytes(block)[start..start + INLINE_LEN]);
                Some(Storage {
                    held: Held::Inline {
                        len: u64::from(count),
                        buffer: word.to_le_bytes(),
                    },
                    alloc: self.alloc,
                })
            }
        }
    }

    // Drops the first `count` bytes of a view, which leaves more than 8.
    #[tactic(auto, using(crate::proofs::Views::slices))]
    #[inline(always)]
    fn skip_in_view(&mut self, count: u32)
        requires { INLINE_LEN + count < length self.old.bytes }
        ensures bytes { self.new.bytes ≡ drop count self.old.bytes }
        ensures copied { self.new.copied ≡ self.old.copied }
    {
        match &mut self.held {
            Held::Inline { .. } => unreachable!(),
            Held::View {
                shared,
                offset,
                len,
                ..
            } => {
                if count > 0 {
                    shared.set(true);
                }
                *offset += count;
                *len -= count;
            }
        }
    }
}

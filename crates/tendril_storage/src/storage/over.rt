//! Writing over stored bytes.
ghost use Rattle.std.specs.Prelude.{◌≡◌, ◌<◌, ◌≤◌, ◌+◌, ℕ, slice_index, length, take, drop, max, IfOk, IfErr, OnOk};
ghost use Rattle.std.specs.Prelude.{OnErr, IfSome, OnSome, IfNone};
ghost use Rattle.std.specs.Fn.{CalledAtMut};
ghost use Rattle.tendril_errors.specs.Outcomes.{MemoryMay};
ghost use Rattle.tendril_storage.specs.Edits.{TakesAtMut};

use crate::storage::{Held, Storage, put};
use tendril_block::{Atomicity, INLINE_LEN, Refusal};

impl<A: Atomicity> Storage<A> {
    /// Passes the bytes to `edit`, in place if this is the block's only reference, else in a copy, and returns what
    /// `edit` returns. Returns `Memory` if the allocation of the copy fails; then `edit` isn't called.
    pub fn write_over<R, E: FnMut(&mut [u8]) -> R>(&mut self, edit: &mut E) -> Result<R, Refusal>
        requires { TakesAtMut E.FnMut edit.old self.old.bytes }
        ensures bytes { IfOk result (λ r. CalledAtMut E.FnMut edit.old self.old.bytes r edit.new self.new.bytes) }
        ensures are_bytes { OnOk result ((i : ℕ) → slice_index self.new.bytes i < 256) }
        ensures len { length self.new.bytes ≡ length self.old.bytes }
        ensures copied { self.new.copied ≤ max self.old.copied (length self.old.bytes) }
        ensures refusal { IfErr result (MemoryMay (length self.old.bytes)) }
        ensures err { OnErr result ((self.new ≡ self.old) × (edit.new ≡ edit.old)) }
    {
        if let Some(answer) = self.try_write_in_place(edit) {
            return Ok(answer);
        }
        if self.as_slice().len() <= INLINE_LEN {
            return Ok(self.write_inline(edit));
        }
        self.try_write_in_copy(edit).ok_or(Refusal::Memory)
    }

    // Passes a copy of the bytes in a new block to `edit`; returns `None` and doesn't call `edit` if the allocation
    // fails.
    fn try_write_in_copy<R, E: FnMut(&mut [u8]) -> R>(&mut self, edit: &mut E) -> Option<R>
        requires { TakesAtMut E.FnMut edit.old self.old.bytes }
        ensures bytes { IfSome result (λ r. CalledAtMut E.FnMut edit.old self.old.bytes r edit.new self.new.bytes) }
        ensures are_bytes { OnSome result ((i : ℕ) → slice_index self.new.bytes i < 256) }
        ensures len { length self.new.bytes ≡ length self.old.bytes }
        ensures copied { OnSome result (self.new.copied ≡ length self.old.bytes) }
        ensures none { IfNone result ((self.new ≡ self.old) × (edit.new ≡ edit.old)) }
    {
        let Ok(mut copy) = Self::from_slice(self.alloc, self.as_slice()) else {
            return None;
        };
        let answer = copy.try_write_in_place(edit)?;
        *self = copy;
        Some(answer)
    }

    // Passes the bytes to `edit` in their block, if this is its only reference; else returns `None` and doesn't call
    // `edit`.
    fn try_write_in_place<R, E: FnMut(&mut [u8]) -> R>(&mut self, edit: &mut E) -> Option<R>
        requires { TakesAtMut E.FnMut edit.old self.old.bytes }
        ensures bytes { IfSome result (λ r. CalledAtMut E.FnMut edit.old self.old.bytes r edit.new self.new.bytes) }
        ensures are_bytes { OnSome result ((i : ℕ) → slice_index self.new.bytes i < 256) }
        ensures len { length self.new.bytes ≡ length self.old.bytes }
        ensures copied { self.new.copied ≡ self.old.copied }
        ensures none { IfNone result ((self.new ≡ self.old) × (edit.new ≡ edit.old)) }
    {
        match &mut self.held {
            Held::Inline { .. } => None,
            Held::View {
                shared,
                block,
                offset,
                len,
            } => {
                let start = *offset as usize;
                let answer = try_write_in_block::<A, R, E>(block, start, *len as usize, edit)?;
                shared.set(false);
                Some(answer)
            }
        }
    }

    // Passes a copy of at most 8 bytes to `edit`, and stores it inline. So short texts whose block is shared need no
    // case of their own.
    fn write_inline<R, E: FnMut(&mut [u8]) -> R>(&mut self, edit: &mut E) -> R
        requires callable { TakesAtMut E.FnMut edit.old self.old.bytes }
        requires short { length self.old.bytes ≤ INLINE_LEN }
        ensures bytes { CalledAtMut E.FnMut edit.old self.old.bytes result edit.new self.new.bytes }
        ensures are_bytes { (i : ℕ) → slice_index self.new.bytes i < 256 }
        ensures len { length self.new.bytes ≡ length self.old.bytes }
        ensures copied { self.new.copied ≡ length self.old.bytes }
    {
        let len = self.as_slice().len();
        let mut buffer = [0; INLINE_LEN];
        put(&mut buffer, 0, self.as_slice());
        let answer = lend(&mut buffer[..len], edit);
        self.held = Held::Inline {
            len: len as u64,
            buffer,
        };
        answer
    }
}

// Passes the `len` bytes of a block from `start` on to `edit`, if this is its only reference; else doesn't call `edit`.
fn try_write_in_block<A: Atomicity, R, E: FnMut(&mut [u8]) -> R>(
    block: &mut A::Block,
    start: usize,
    len: usize,
    edit: &mut E,
) -> Option<R>
    requires within { start + len ≤ length (A.bytes_of block.old) }
    requires callable { TakesAtMut E.FnMut edit.old (take len (drop start (A.bytes_of block.old))) }
    ensures bytes { IfSome result (λ r. CalledAtMut E.FnMut edit.old
        (take len (drop start (A.bytes_of block.old))) r edit.new (take len (drop start (A.bytes_of block.new)))) }
    ensures are_bytes { OnSome result ((i : ℕ) → slice_index (take len (drop start (A.bytes_of block.new))) i < 256) }
    ensures len { length (A.bytes_of block.new) ≡ length (A.bytes_of block.old) }
    ensures copied { A.copied block.new ≡ A.copied block.old }
    ensures none { IfNone result ((A.bytes_of block.new ≡ A.bytes_of block.old) × (edit.new ≡ edit.old)) }
{
    match A::alone_mut(block) {
        Some(body) => {
            let bytes = body.bytes_mut();
            Some(lend(&mut bytes[start..start + len], edit))
        }
        None => None,
    }
}

// Passes bytes to `edit`. Afterwards each is less than 256, by its type.
fn lend<R, E: FnMut(&mut [u8]) -> R>(bytes: &mut [u8], edit: &mut E) -> R
    requires { TakesAtMut E.FnMut edit.old bytes.old }
    ensures bytes { CalledAtMut E.FnMut edit.old bytes.old result edit.new bytes.new }
    ensures are_bytes { (i : ℕ) → slice_index bytes.new i < 256 }
{
    edit(bytes)
}

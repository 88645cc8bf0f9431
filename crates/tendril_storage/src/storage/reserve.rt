//! Spare capacity.
ghost use Rattle.std.specs.Prelude.{◌≡◌, ◌<◌, ◌≤◌, ◌+◌, length, max, IfErr, OnOk, OnErr};
ghost use Rattle.tendril_errors.specs.Outcomes.{MemoryMay};

use crate::storage::{Held, Storage};
use tendril_block::{Atomicity, INLINE_LEN, MAX_LEN, Refusal, Tail};

impl<A: Atomicity> Storage<A> {
    /// Reserves capacity for `more` further bytes. Does nothing if `is_shared`. Returns `Memory` if an allocation
    /// fails; then nothing has changed.
    pub fn reserve(&mut self, more: usize) -> Result<(), Refusal>
        requires { length self.old.bytes + more ≤ MAX_LEN }
        ensures bytes { self.new.bytes ≡ self.old.bytes }
        ensures copied { self.new.copied ≤ max self.old.copied (length self.old.bytes) }
        ensures refusal { IfErr result (MemoryMay (length self.old.bytes + more)) }
        ensures err { OnErr result (self.new ≡ self.old) }
    {
        let len = self.as_slice().len();
        let total = len + more;
        if total <= INLINE_LEN || self.is_shared() {
            return Ok(());
        }
        if self.is_mostly_dropped()
            && (self.try_compact(len, Tail::Room(more)) || self.spill(total).is_ok())
        {
            return Ok(());
        }
        match &mut self.held {
            Held::Inline { .. } => self.spill(total),
            Held::View { block, offset, .. } => {
                reserve_in_block::<A>(block, *offset as usize + total)
            }
        }
    }

    // Moves the bytes to a new block with this capacity.
    fn spill(&mut self, capacity: usize) -> Result<(), Refusal>
        ensures bytes { self.new.bytes ≡ self.old.bytes }
        ensures copied { OnOk result (self.new.copied ≡ length self.old.bytes) }
        ensures refusal { IfErr result (λ r. r ≡ Refusal.Memory) }
        ensures err { OnErr result (self.new ≡ self.old) }
    {
        let copy = Self::copied(self.alloc, self.as_slice(), capacity)?;
        *self = copy;
        Ok(())
    }
}

// Makes the capacity of a block at least `capacity`, if this is the only reference.
fn reserve_in_block<A: Atomicity>(block: &mut A::Block, capacity: usize) -> Result<(), Refusal>
    ensures bytes { A.bytes_of block.new ≡ A.bytes_of block.old }
    ensures copied { A.copied block.new ≡ A.copied block.old }
    ensures refusal { IfErr result (λ r. r ≡ Refusal.Memory) }
{
    let missing = capacity.saturating_sub(A::bytes(block).len());
    match A::alone_mut(block) {
        Some(body) => body.reserve(missing),
        None => Ok(()),
    }
}

//! The bytes of a block, which its only reference may change.
ghost use Rattle.std.specs.Prelude.{◌≡◌, ◌+◌, ◌<◌, ◌≤◌, ◌++◌, [], length, take, drop, replicate, slice_set, true};
ghost use Rattle.std.specs.Prelude.{false, IfOk, IfErr, OnOk, OnErr};
ghost use Rattle.tendril_block.specs.Tail.{tail_bytes};

use crate::copied::Copied;
use crate::inline_bytes::InlineBytes;
use crate::stored::Stored;
use crate::tail::Tail;
use std::alloc::Global;
use std::marker::Model;
use tendril_errors::Refusal;

/// The bytes of a block and how many were copied into it. Only a block's only reference borrows it mutably.
#[derive(Drop)]
pub struct Body {
    stored: Stored,
    took: Copied,
}

impl Model for Body {
    ghost use Rattle.tendril_block.specs.Filled.{Filled};
    ghost use Rattle.tendril_block.specs.Stored.{stored_bytes};

    ghost Value = { Filled };

    ghost view = { λ b. record { bytes = stored_bytes b.stored; took = b.took.bytes } };
}

impl Body {
    ghost use Rattle.tendril_block.specs.Filled.{overwritten};
    ghost use Rattle.tendril_block.specs.contracts.body.Body.{the_row};
    ghost use Rattle.std.specs.Borrow.{Lends, Array, u8, sem};

    /// A body of no bytes. Allocates nothing.
    pub(crate) fn empty(alloc: Global) -> Self
        ensures bytes { result.bytes ≡ [] }
        ensures took { result.took ≡ 0 }
    {
        Body {
            stored: Stored::Small(InlineBytes::new(alloc)),
            took: Copied::zero(),
        }
    }

    /// A copy of these bytes in a vector with at least this capacity.
    pub(crate) fn in_vector(alloc: Global, bytes: &[u8], capacity: usize) -> Result<Self, Refusal>
        ensures bytes { IfOk result (λ b. b.bytes ≡ bytes.now) }
        ensures took { IfOk result (λ b. b.took ≡ length bytes.now) }
        ensures refusal { IfErr result (λ r. r ≡ Refusal.Memory) }
    {
        let none = Copied::zero();
        Ok(Body {
            stored: Stored::in_vector(alloc, bytes, capacity)?,
            took: none.plus(&none, &none, bytes.len()),
        })
    }

    /// Counts each byte as copied once.
    pub(crate) fn recount(&mut self)
        ensures bytes { self.new.bytes ≡ self.old.bytes }
        ensures took { self.new.took ≡ length self.old.bytes }
    {
        let none = Copied::zero();
        let len = self.stored.as_slice().len();
        self.took = none.plus(&none, &none, len);
    }

    /// Replaces all bytes by those of a vector, which is moved in.
    pub(crate) fn adopt(&mut self, bytes: Vec<u8>)
        ensures bytes { self.new.bytes ≡ bytes.items }
        ensures took { self.new.took ≡ self.old.took + length bytes.items }
    {
        self.took = self.took.plus(&self.took, &self.took, bytes.len());
        self.stored = Stored::Large(bytes);
    }

    pub(crate) fn as_slice(&self) -> &[u8]
        ensures { result.now ≡ self.now.bytes }
    {
        self.stored.as_slice()
    }

    pub(crate) fn allocator(&self) -> Global {
        self.stored.allocator()
    }

    pub(crate) fn took(&self) -> &Copied
        ensures { result.now.bytes ≡ self.now.took }
    {
        &self.took
    }

    /// Makes spare capacity for `more` bytes.
    pub fn reserve(&mut self, more: usize) -> Result<(), Refusal>
        ensures same { self.new ≡ self.old }
        ensures refusal { IfErr result (λ r. r ≡ Refusal.Memory) }
    {
        let count = self
            .as_slice()
            .len()
            .checked_add(more)
            .ok_or(Refusal::Memory)?;
        self.stored.make_room(count)
    }

    /// Appends bytes, in amortized time linear in their number.
    pub fn append(&mut self, more: &[u8]) -> Result<(), Refusal>
        ensures bytes { OnOk result (self.new.bytes ≡ self.old.bytes ++ more.now) }
        ensures took { OnOk result (self.new.took ≡ self.old.took + length more.now) }
        ensures refusal { IfErr result (λ r. r ≡ Refusal.Memory) }
        ensures err { OnErr result (self.new ≡ self.old) }
    {
        self.stored.append(more)?;
        self.took = self.took.plus(&self.took, &self.took, more.len());
        Ok(())
    }

    /// Appends few bytes to few in the node, if they fit there; returns whether it did.
    #[inline(always)]
    pub(crate) fn append_few(&mut self, more: &[u8]) -> bool
        ensures bytes { result ≡ true → self.new.bytes ≡ self.old.bytes ++ more.now }
        ensures took { result ≡ true → self.new.took ≡ self.old.took + length more.now }
        ensures unchanged { result ≡ false → self.new ≡ self.old }
    {
        if !self.stored.append_few(more) {
            return false;
        }
        self.took = self.took.plus(&self.took, &self.took, more.len());
        true
    }

    /// Appends bytes if there are exactly `at` bytes, in a vector with enough spare capacity; returns whether it did.
    /// Never allocates.
    #[inline(always)]
    pub fn append_at(&mut self, at: usize, more: &[u8]) -> bool
        ensures bytes { result ≡ true → self.new.bytes ≡ self.old.bytes ++ more.now }
        ensures took { result ≡ true → self.new.took ≡ self.old.took + length more.now }
        ensures at { result ≡ true → length self.old.bytes ≡ at }
        ensures unchanged { result ≡ false → self.new ≡ self.old }
    {
        if !self.stored.append_at(at, more) {
            return false;
        }
        self.took = self.took.plus(&self.took, &self.took, more.len());
        true
    }

    /// Appends `count` zeros, in amortized time linear in their number.
    pub fn append_zeros(&mut self, count: usize) -> Result<(), Refusal>
        ensures bytes { OnOk result (self.new.bytes ≡ self.old.bytes ++ replicate count 0) }
        ensures took { OnOk result (self.new.took ≡ self.old.took + count) }
        ensures refusal { IfErr result (λ r. r ≡ Refusal.Memory) }
        ensures err { OnErr result (self.new ≡ self.old) }
    {
        let len = self.as_slice().len();
        self.replace_end(len, Tail::Zeros(count))
    }

    /// Replaces all bytes from `keep` on by a tail, in amortized time linear in the number of new bytes. On an error,
    /// nothing changes.
    pub fn replace_end(&mut self, keep: usize, tail: Tail) -> Result<(), Refusal>
        ensures bytes { OnOk result (self.new.bytes ≡ take keep self.old.bytes ++ tail_bytes tail.entry) }
        ensures took { OnOk result (self.new.took ≡ self.old.took + length (tail_bytes tail.entry)) }
        ensures refusal { IfErr result (λ r. r ≡ Refusal.Memory) }
        ensures err { OnErr result (self.new ≡ self.old) }
    {
        let len = self.as_slice().len();
        match tail {
            Tail::Parts(middle, more) if middle.is_empty() && len <= keep => {
                return self.append(more);
            }
            _ => {}
        }
        let kept = len.min(keep);
        let count = tail.total(kept).ok_or(Refusal::Memory)?;
        self.stored.make_room(count)?;
        self.stored.replace_end(keep, tail);
        let added = self.stored.as_slice().len() - kept;
        self.took = self.took.plus(&self.took, &self.took, added);
        Ok(())
    }

    /// Moves the `keep` bytes from `start` on to the front and appends a tail, if the two ranges don't overlap and the
    /// capacity is enough; returns whether it did. Takes time linear in the block's new length.
    pub(crate) fn compact(&mut self, start: usize, keep: usize, tail: Tail) -> bool
        requires { start + keep ≤ length self.old.bytes }
        ensures bytes { result ≡ true →
            self.new.bytes ≡ take keep (drop start self.old.bytes) ++ tail_bytes tail.entry }
        ensures took { result ≡ true → self.new.took ≡ self.old.took + length self.new.bytes }
        ensures unchanged { result ≡ false → self.new ≡ self.old }
    {
        let Some(total) = tail.total(keep) else {
            return false;
        };
        if !self.stored.keep_part(start, keep, total) {
            return false;
        }
        self.stored.replace_end(keep, tail);
        let len = self.stored.as_slice().len();
        self.took = self.took.plus(&self.took, &self.took, len);
        true
    }

    /// Cuts off all bytes from `len` on. If there are at most `len`, nothing is done.
    pub fn truncate(&mut self, len: usize)
        ensures bytes { self.new.bytes ≡ take len self.old.bytes }
        ensures took { self.new.took ≡ self.old.took }
    {
        self.stored.truncate(len);
    }

    /// Writes one byte.
    pub fn set(&mut self, index: usize, byte: u8)
        requires { index < length self.old.bytes }
        ensures bytes { self.new.bytes ≡ slice_set self.old.bytes index byte }
        ensures took { self.new.took ≡ self.old.took }
    {
        self.bytes_mut()[index] = byte;
    }

    /// Borrows the bytes mutably, to overwrite them in place.
    pub fn bytes_mut(&mut self) -> &mut [u8]
        ensures* lends { sem 𝓛 (Lends the_row (Array u8 0) self.entry result (overwritten self.old)) }
        ensures bytes { result.now ≡ self.old.bytes }
    {
        match &mut self.stored {
            Stored::Small(few) => few.as_mut_slice(),
            Stored::Large(bytes) => bytes.as_mut_slice(),
        }
    }
}

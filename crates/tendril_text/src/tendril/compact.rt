//! Keeping no larger block alive than a text needs.
ghost use Rattle.std.specs.Prelude.{◌≡◌, ◌⊎◌, length, IfErr, OnErr};
ghost use Rattle.tendril_errors.specs.Outcomes.{MemoryMay, NoneMust, Gives};
ghost use Rattle.tendril_text.specs.Making.{IsTextOf};

use crate::tendril::Tendril;
use std::marker::PhantomData;
use tendril_block::{Atomicity, Refusal};
use tendril_fmt::fmt::Format;

impl<F: Format, A: Atomicity> Tendril<F, A> {
    /// Makes the text keep no larger block alive: copies it into a block of its own if it is a small part of its block,
    /// or if another text shares that.
    ///
    /// A slice keeps its whole block alive, as does what a pop or a split leaves. Call this on a text that you keep
    /// longer than the one that it was cut from.
    ///
    /// Does nothing if the text is stored inline, or if no other text shares its block and the block has at most twice
    /// as many other bytes plus 64; spare capacity stays. Else takes one pass, and allocates only for more than 8
    /// bytes. Returns `Memory` if that fails; then nothing has changed.
    ///
    /// ```
    /// let page = StrTendril::from_slice(alloc, "a long page, and a part is kept")?;
    /// let mut part = page.try_subtendril(17, 14)?;
    /// part.compact()?;
    /// assert_eq!(rt; part.as_str(), "a part is kept");
    /// assert_eq!(rt; part.is_shared(), false);
    /// ```
    pub fn compact(&mut self) -> Result<(), Refusal>
        ensures bytes { self.new.bytes ≡ self.old.bytes }
        ensures copied { (self.new.copied ≡ self.old.copied) ⊎ (self.new.copied ≡ length self.old.bytes) }
        ensures refusal { IfErr result (MemoryMay (length self.old.bytes)) }
        ensures err { OnErr result (self.new ≡ self.old) }
    {
        self.storage.compact()
    }

    /// Returns a text with the same bytes that shares no block: up to 8 bytes are inline, more are in a block of their
    /// own, without spare capacity.
    ///
    /// Takes one pass, and allocates only for more than 8 bytes. Returns `Memory` if that fails. `clone` copies
    /// nothing.
    ///
    /// ```
    /// let page = StrTendril::from_slice(alloc, "a page to keep")?;
    /// let copy = page.to_compact()?;
    /// assert_eq!(rt; copy.as_str(), "a page to keep");
    /// assert_eq!(rt; page.is_shared(), false);
    /// ```
    pub fn to_compact(&self) -> Result<Self, Refusal>
        ensures { Gives NoneMust (MemoryMay (length self.now.bytes)) (IsTextOf self.now.bytes) result }
    {
        Ok(Tendril {
            storage: self.storage.to_compact()?,
            format: PhantomData,
        })
    }
}

//! Pushes, `reserve` and `clear`.
ghost use Rattle.std.specs.Prelude.{◌≡◌, ◌≤◌, ◌+◌, ◌++◌, [], true, false, length};
ghost use Rattle.tendril_text.specs.Pushes.{Joins, JoinsValid, PushesZeros, Reserves};

use crate::tendril::Tendril;
use tendril_block::{Atomicity, INLINE_LEN, MAX_LEN, Refusal};
use tendril_fmt::fmt::{Bytes, Format, UTF8};

impl<F: Format, A: Atomicity> Tendril<F, A> {
    /// Appends bytes by the format's join if they are valid by themselves.
    ///
    /// Returns `Invalid` if they aren't, else `TooLong` if the text would have more than 4294967295 bytes, else
    /// `Memory` if an allocation fails; then nothing has changed. In most formats the join is concatenation. In WTF-8 a
    /// trail surrogate that follows a lead becomes one character with it (the WTF-8 specification, 'Concatenating').
    ///
    /// A text that is its block's only reference grows in place; if far more bytes were popped off its start than are
    /// left, it moves to the start of the block. Any other text is copied to a new block first. n pushes of one byte
    /// take O(n) time, and so do n alternating pushes and pops.
    ///
    /// ```
    /// let mut text = StrTendril::from_slice(alloc, "a")?;
    /// text.try_push_bytes("é".as_bytes())?;
    /// assert_eq!(rt; text.as_str(), "aé");
    /// assert_eq!(rt; text.try_push_bytes(b"\xC3").err(), Some(Refusal::Invalid));
    /// ```
    pub fn try_push_bytes(&mut self, more: &[u8]) -> Result<(), Refusal>
        ensures { JoinsValid F.valid F.join more.now self.old result self.new }
    {
        if !F::validate(more) {
            return Err(Refusal::Invalid);
        }
        self.push_bytes_without_validating(more)
    }

    /// Appends bytes by the format's join, which the caller proves to be valid by themselves.
    ///
    /// Returns `TooLong` if the text would have more than 4294967295 bytes, else `Memory` if an allocation fails; then
    /// nothing has changed. Costs what `try_push_bytes` costs, without the validation.
    pub fn push_bytes_without_validating(&mut self, more: &[u8]) -> Result<(), Refusal>
        requires { F.valid more.now }
        ensures { Joins F.join more.now self.old result self.new }
    {
        let text = self.storage.as_slice();
        let fixup = F::fixup(text, more);
        let keep = text.len() - fixup.drop_left as usize;
        let middle = &fixup.insert_bytes[..fixup.insert_len as usize];
        let right = &more[fixup.drop_right as usize..];
        if right.len() > MAX_LEN as usize - keep
            || middle.len() > MAX_LEN as usize - keep - right.len()
        {
            return Err(Refusal::TooLong);
        }
        self.storage.replace_end(keep, middle, right)
    }

    /// Appends another text by the format's join.
    ///
    /// Returns `TooLong` if the text would have more than 4294967295 bytes, else `Memory` if an allocation fails; then
    /// nothing has changed. If both texts are shared, and the bytes after this one in its block equal the other's, this
    /// text is extended over them: nothing is allocated or copied. Else it costs what `try_push_bytes` costs, without
    /// the validation.
    ///
    /// ```
    /// let mut text = StrTendril::from_slice(alloc, "one, ")?;
    /// text.push_tendril(&StrTendril::from_slice(alloc, "two")?)?;
    /// assert_eq!(rt; text.as_str(), "one, two");
    /// ```
    #[inline(always)]
    pub fn push_tendril(&mut self, other: &Tendril<F, A>) -> Result<(), Refusal>
        ensures { Joins F.join other.now.bytes self.old result self.new }
    {
        let more = other.as_byte_slice();
        if self.is_shared() && other.is_shared() && self.try_grow_over(more) {
            return Ok(());
        }
        self.push_bytes_without_validating(more)
    }

    // Extends the text over the bytes that follow it in its block, if both texts have more than 8 bytes, those bytes
    // equal `more`, and the join is concatenation; returns whether it did. The caller calls it only if both texts are
    // shared: a text that isn't is its block's only reference, so the two can't be neighbours. The comparison reads all
    // bytes, which costs about what a copy costs without its writes.
    #[inline(always)]
    fn try_grow_over(&mut self, more: &[u8]) -> bool
        requires { F.valid more.now }
        ensures bytes { result ≡ true → self.new.bytes ≡ F.join self.old.bytes more.now }
        ensures fits { result ≡ true → length (F.join self.old.bytes more.now) ≤ length self.old.bytes + length
            more.now }
        ensures within { result ≡ true → length (F.join self.old.bytes more.now) ≤ MAX_LEN }
        ensures copied { self.new.copied ≡ self.old.copied }
        ensures unchanged { result ≡ false → self.new ≡ self.old }
    {
        let text = self.storage.as_slice();
        if text.len() <= INLINE_LEN
            || more.len() <= INLINE_LEN
            || more.len() > MAX_LEN as usize - text.len()
        {
            return false;
        }
        if !F::fixup(text, more).is_nothing() {
            return false;
        }
        self.storage.try_grow_over(more)
    }

    /// Reserves capacity for `more` further bytes. The text's bytes don't change.
    ///
    /// Returns `TooLong` if the text would have more than 4294967295 bytes with them, else `Memory` if an allocation
    /// fails. Does nothing for a shared text, whose next push may copy it. Contracts don't see capacity.
    ///
    /// ```
    /// let mut text = StrTendril::from_slice(alloc, "abc")?;
    /// text.reserve(100)?;
    /// assert_eq!(rt; text.as_str(), "abc");
    /// ```
    pub fn reserve(&mut self, more: u32) -> Result<(), Refusal>
        ensures { Reserves more self.old result self.new }
    {
        if more > MAX_LEN - self.len32() {
            return Err(Refusal::TooLong);
        }
        self.storage.reserve(more as usize)
    }

    /// Makes the text empty. It keeps its block for the next bytes if it is the block's only reference.
    ///
    /// ```
    /// let mut text = StrTendril::from_slice(alloc, "a text of 19 bytes.")?;
    /// text.clear();
    /// assert_eq!(rt; text.is_empty(), true);
    /// ```
    pub fn clear(&mut self)
        ensures bytes { self.new.bytes ≡ [] }
        ensures copied { self.new.copied ≤ self.old.copied }
    {
        self.storage.clear();
    }
}

impl<A: Atomicity> Tendril<Bytes, A> {
    /// Appends bytes.
    ///
    /// Returns `TooLong` if the text would have more than 4294967295 bytes, else `Memory` if an allocation fails; then
    /// nothing has changed. Grows in place or copies as `try_push_bytes` does.
    ///
    /// ```
    /// let mut text = ByteTendril::from_slice(alloc, b"ab")?;
    /// text.push_slice(b"\xFF")?;
    /// assert_eq!(rt; text.as_byte_slice(), b"ab\xFF".as_slice());
    /// ```
    pub fn push_slice(&mut self, slice: &[u8]) -> Result<(), Refusal>
        ensures { Joins ◌++◌ slice.now self.old result self.new }
    {
        self.push_bytes_without_validating(slice)
    }

    /// Appends `count` zeros, to be written over.
    ///
    /// Returns `TooLong` if the text would have more than 4294967295 bytes, else `Memory` if an allocation fails; then
    /// nothing has changed. Grows in place or copies as `try_push_bytes` does.
    ///
    /// ```
    /// let mut text = ByteTendril::from_slice(alloc, b"ab")?;
    /// text.push_uninitialized(2)?;
    /// assert_eq!(rt; text.as_byte_slice(), b"ab\0\0".as_slice());
    /// ```
    pub fn push_uninitialized(&mut self, count: u32) -> Result<(), Refusal>
        ensures { PushesZeros count self.old result self.new }
    {
        if count > MAX_LEN - self.len32() {
            return Err(Refusal::TooLong);
        }
        self.storage.push_zeros(count as usize)
    }
}

impl<A: Atomicity> Tendril<UTF8, A> {
    /// Appends a string.
    ///
    /// Returns `TooLong` if the text would have more than 4294967295 bytes, else `Memory` if an allocation fails; then
    /// nothing has changed. Grows in place or copies as `try_push_bytes` does, and validates nothing.
    ///
    /// ```
    /// let mut text = StrTendril::from_slice(alloc, "hello, ")?;
    /// text.push_slice("world")?;
    /// assert_eq!(rt; text.as_str(), "hello, world");
    /// ```
    pub fn push_slice(&mut self, more: &str) -> Result<(), Refusal>
        ensures { Joins ◌++◌ more.now self.old result self.new }
    {
        self.push_bytes_without_validating(more.as_bytes())
    }
}

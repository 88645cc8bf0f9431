//! Calls that read a text.
ghost use Rattle.std.specs.Prelude.{◌≡◌, ◌≤◌, ◌↔◌, [], length, string_bytes, IfOk, IfErr, IsTrue};

use crate::tendril::Tendril;
use std::convert::{AsSlice, AsStr};
use std::ops::{DerefSlice, DerefStr};
use tendril_block::{Atomicity, MAX_LEN, Refusal};
use tendril_fmt::fmt::{Bytes, Format, UTF8};

impl<F: Format, A: Atomicity> Tendril<F, A> {
    /// Returns the number of bytes, which fits in 32 bits.
    ///
    /// ```
    /// assert_eq!(rt; StrTendril::from_slice(alloc, "é")?.len32(), 2);
    /// ```
    pub fn len32(&self) -> u32
        ensures { result ≡ length self.now.bytes }
    {
        self.storage.len32()
    }

    /// Returns the number of bytes, as `usize`.
    ///
    /// ```
    /// assert_eq!(rt; StrTendril::from_slice(alloc, "abc")?.len(), 3);
    /// ```
    pub fn len(&self) -> usize
        ensures { result ≡ length self.now.bytes }
    {
        self.len32() as usize
    }

    /// Whether the text has no bytes.
    ///
    /// ```
    /// assert_eq!(rt; StrTendril::new(alloc).is_empty(), true);
    /// ```
    pub fn is_empty(&self) -> bool
        ensures { IsTrue result ↔ (self.now.bytes ≡ []) }
    {
        self.len32() == 0
    }

    /// Whether the text may share its block.
    ///
    /// It may after a clone, a slice, a split or a pop that left more than 8 bytes in the block, until its bytes are
    /// next written or `compact` is called.
    ///
    /// A text stored inline is never shared. Contracts don't say when this is true.
    ///
    /// ```
    /// let text = StrTendril::from_slice(alloc, "shared by both")?;
    /// let _copy = text.clone()?;
    /// assert_eq!(rt; text.is_shared(), true);
    /// ```
    pub fn is_shared(&self) -> bool {
        self.storage.is_shared()
    }

    /// Borrows the text's bytes.
    ///
    /// ```
    /// let text = StrTendril::from_slice(alloc, "é")?;
    /// assert_eq!(rt; text.as_byte_slice(), b"\xC3\xA9".as_slice());
    /// ```
    pub fn as_byte_slice(&self) -> &[u8]
        ensures value { result.now ≡ self.now.bytes }
        ensures valid { F.valid self.now.bytes }
        ensures short { length self.now.bytes ≤ MAX_LEN }
    {
        self.storage.as_slice()
    }
}

impl<A: Atomicity> Tendril<UTF8, A> {
    /// Borrows the text as a string. It isn't validated again.
    ///
    /// ```
    /// let text = StrTendril::from_slice(alloc, "abc")?;
    /// assert_eq!(rt; text.as_str(), "abc");
    /// ```
    pub fn as_str(&self) -> &str
        ensures value { result.now ≡ self.now.bytes }
        ensures short { length self.now.bytes ≤ MAX_LEN }
    {
        unsafe { str::from_utf8_unchecked(self.as_byte_slice()) }
    }

    /// Returns a `String` with a copy of the text, in one pass.
    ///
    /// Returns `Memory` if the allocation fails.
    ///
    /// ```
    /// let string = StrTendril::from_slice(alloc, "abc")?.to_string_value()?;
    /// assert_eq!(rt; string.as_str(), "abc");
    /// ```
    pub fn to_string_value(&self) -> Result<String, Refusal>
        ensures bytes { IfOk result (λ s. string_bytes s ≡ self.now.bytes) }
        ensures refusal { IfErr result (λ r. r ≡ Refusal.Memory) }
    {
        Ok(String::from_str(self.storage.allocator(), self.as_str())?)
    }
}

impl<A: Atomicity> AsStr for Tendril<UTF8, A> {
    ghost text = { λ t. t.bytes };

    fn as_str(&self) -> &str {
        Tendril::as_str(self)
    }
}

impl<A: Atomicity> AsSlice<u8> for Tendril<Bytes, A> {
    ghost items = { λ t. t.bytes };

    fn as_slice(&self) -> &[u8] {
        Tendril::as_byte_slice(self)
    }
}

impl<A: Atomicity> DerefStr for Tendril<UTF8, A> {
    ghost deref_gives = { λ t text. text ≡ t.bytes };

    fn deref(&self) -> &str {
        Tendril::as_str(self)
    }
}

impl<A: Atomicity> DerefSlice for Tendril<Bytes, A> {
    type Elem = u8;

    ghost deref_gives = { λ t items. items ≡ t.bytes };

    fn deref(&self) -> &[u8] {
        Tendril::as_byte_slice(self)
    }
}

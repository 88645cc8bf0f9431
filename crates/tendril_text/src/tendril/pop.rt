//! Pops, which drop bytes at an end of a text.
ghost use Rattle.std.specs.Prelude.{◌≡◌, ◌≤◌, ◌-◌, length, take, drop};
ghost use Rattle.tendril_text.specs.Parts.{IsTruncated, PopsValid, Truncates};

use crate::tendril::Tendril;
use tendril_block::{Atomicity, SubtendrilError};
use tendril_fmt::cuts::{is_end_valid, is_front_valid};
use tendril_fmt::fmt::Format;

impl<F: Format, A: Atomicity> Tendril<F, A> {
    ghost use Rattle.tendril_storage.specs.Texts.{PopCost};

    /// Drops the first `count` bytes, if they are there and the remainder is valid in the format.
    ///
    /// Returns `OutOfBounds` if the text has fewer, else `ValidationFailed` if the remainder isn't valid; then nothing
    /// has changed. Takes constant time and allocates nothing.
    ///
    /// ```
    /// let mut text = StrTendril::from_slice(alloc, "é!")?;
    /// assert_eq!(rt; text.try_pop_front(1).err(), Some(SubtendrilError::ValidationFailed));
    /// text.try_pop_front(2)?;
    /// assert_eq!(rt; text.as_str(), "!");
    /// ```
    pub fn try_pop_front(&mut self, count: u32) -> Result<(), SubtendrilError>
        ensures { PopsValid F.valid count (drop count self.old.bytes) self.old result self.new }
    {
        let text = self.as_byte_slice();
        if count as usize > text.len() {
            return Err(SubtendrilError::OutOfBounds);
        }
        if !is_end_valid::<F>(text, count as usize) {
            return Err(SubtendrilError::ValidationFailed);
        }
        self.pop_front(count);
        Ok(())
    }

    /// Drops the last `count` bytes, if they are there and the remainder is valid in the format.
    ///
    /// Returns `OutOfBounds` if the text has fewer, else `ValidationFailed` if the remainder isn't valid; then nothing
    /// has changed. Takes constant time and allocates nothing.
    ///
    /// ```
    /// let mut text = StrTendril::from_slice(alloc, "hello!")?;
    /// text.try_pop_back(1)?;
    /// assert_eq!(rt; text.as_str(), "hello");
    /// ```
    pub fn try_pop_back(&mut self, count: u32) -> Result<(), SubtendrilError>
        ensures { let rest = take (length self.old.bytes - count) self.old.bytes in
            PopsValid F.valid count rest self.old result self.new }
    {
        let text = self.as_byte_slice();
        let Some(end) = text.len().checked_sub(count as usize) else {
            return Err(SubtendrilError::OutOfBounds);
        };
        if !is_front_valid::<F>(text, end) {
            return Err(SubtendrilError::ValidationFailed);
        }
        self.pop_back(count);
        Ok(())
    }

    /// Drops the first `count` bytes, which the caller proves to be there and to leave a valid text.
    ///
    /// Takes constant time and allocates nothing.
    ///
    /// ```
    /// let mut text = StrTendril::from_slice(alloc, "/path")?;
    /// text.pop_front(1);
    /// assert_eq!(rt; text.as_str(), "path");
    /// ```
    pub fn pop_front(&mut self, count: u32)
        requires within { count ≤ length self.old.bytes }
        requires valid { F.valid (drop count self.old.bytes) }
        ensures bytes { self.new.bytes ≡ drop count self.old.bytes }
        ensures copied { PopCost self.old self.new }
    {
        self.unsafe_pop_front(count);
    }

    /// Drops the last `count` bytes, which the caller proves to be there and to leave a valid text.
    ///
    /// Takes constant time and allocates nothing.
    ///
    /// ```
    /// let mut text = StrTendril::from_slice(alloc, "line\n")?;
    /// text.pop_back(1);
    /// assert_eq!(rt; text.as_str(), "line");
    /// ```
    pub fn pop_back(&mut self, count: u32)
        requires within { count ≤ length self.old.bytes }
        requires valid { F.valid (take (length self.old.bytes - count) self.old.bytes) }
        ensures bytes { self.new.bytes ≡ take (length self.old.bytes - count) self.old.bytes }
        ensures copied { PopCost self.old self.new }
    {
        self.unsafe_pop_back(count);
    }

    /// Drops all bytes from `len` on, if those before them are valid in the format. Does nothing if the text has no
    /// more than `len` bytes.
    ///
    /// Returns `ValidationFailed` if they aren't valid; then nothing has changed. Takes constant time and allocates
    /// nothing.
    ///
    /// ```
    /// let mut text = StrTendril::from_slice(alloc, "café")?;
    /// assert_eq!(rt; text.try_truncate(4).err(), Some(SubtendrilError::ValidationFailed));
    /// text.try_truncate(3)?;
    /// assert_eq!(rt; text.as_str(), "caf");
    /// text.try_truncate(100)?;
    /// assert_eq!(rt; text.as_str(), "caf");
    /// ```
    pub fn try_truncate(&mut self, len: u32) -> Result<(), SubtendrilError>
        ensures { Truncates F.valid len self.old result self.new }
    {
        let text = self.as_byte_slice();
        if text.len() <= len as usize {
            return Ok(());
        }
        if !is_front_valid::<F>(text, len as usize) {
            return Err(SubtendrilError::ValidationFailed);
        }
        self.truncate(len);
        Ok(())
    }

    /// Drops all bytes from `len` on. The caller proves that those before them are valid in the format. Does nothing if
    /// the text has no more than `len` bytes.
    ///
    /// Takes constant time and allocates nothing.
    ///
    /// ```
    /// let mut text = StrTendril::from_slice(alloc, "a long line")?;
    /// text.truncate(6);
    /// assert_eq!(rt; text.as_str(), "a long");
    /// ```
    pub fn truncate(&mut self, len: u32)
        requires { F.valid (take len self.old.bytes) }
        ensures { IsTruncated len self.old self.new }
    {
        if len < self.len32() {
            self.storage.keep_part(0, len);
        }
    }

    /// Drops the first `count` bytes, as `pop_front` does. The caller proves its conditions, so no call is unsafe.
    pub fn unsafe_pop_front(&mut self, count: u32)
        requires within { count ≤ length self.old.bytes }
        requires valid { F.valid (drop count self.old.bytes) }
        ensures bytes { self.new.bytes ≡ drop count self.old.bytes }
        ensures copied { PopCost self.old self.new }
    {
        let rest = self.len32() - count;
        self.storage.keep_part(count, rest);
    }

    /// Drops the last `count` bytes, as `pop_back` does. The caller proves its conditions, so no call is unsafe.
    pub fn unsafe_pop_back(&mut self, count: u32)
        requires within { count ≤ length self.old.bytes }
        requires valid { F.valid (take (length self.old.bytes - count) self.old.bytes) }
        ensures bytes { self.new.bytes ≡ take (length self.old.bytes - count) self.old.bytes }
        ensures copied { PopCost self.old self.new }
    {
        let rest = self.len32() - count;
        self.storage.keep_part(0, rest);
    }
}

//! Slices and splits.
ghost use Rattle.std.specs.Prelude.{◌≡◌, ◌≤◌, ◌+◌, ◌++◌, [], length, take, drop, IfOk, IsUtf8};
ghost use Rattle.tendril_storage.specs.Partings.{TakesFew};
ghost use Rattle.tendril_storage.specs.Texts.{PopCost};
ghost use Rattle.tendril_text.specs.Parts.{Slices, SlicesValid, Splits, SplitsValid};

use crate::tendril::Tendril;
use crate::tendril::view::View;
use std::marker::PhantomData;
use std::mem;
use tendril_block::{Atomicity, INLINE_LEN, Refusal, SubtendrilError};
use tendril_fmt::cuts::are_parts_valid;
use tendril_fmt::fmt::{Bytes, Format, UTF8};
use tendril_storage::Storage;

impl<F: Format, A: Atomicity> Tendril<F, A> {
    ghost use Rattle.tendril_storage.specs.Partings.{TakesFront};

    /// Returns a text of the `count` bytes from `offset` on, if they are there and valid in the format.
    ///
    /// Returns `OutOfBounds` if the text is too short, else `ValidationFailed` if the slice isn't valid, else `Count`
    /// if it has more than 8 bytes and the block as many references as it can have. Takes constant time and allocates
    /// nothing: more than 8 bytes are shared.
    ///
    /// ```
    /// let text = StrTendril::from_slice(alloc, "a slice shares the block")?;
    /// assert_eq!(rt; text.try_subtendril(2, 12)?.as_str(), "slice shares");
    /// assert_eq!(rt; text.try_subtendril(20, 5).err(), Some(SubtendrilError::OutOfBounds));
    /// ```
    #[inline(always)]
    pub fn try_subtendril(&self, offset: u32, count: u32) -> Result<Self, SubtendrilError>
        ensures { SlicesValid F.valid self.now.bytes offset count result }
    {
        View::<F, A>::new(&self.storage).try_subtendril(offset, count)
    }

    /// Returns a text of the `count` bytes from `offset` on, which the caller proves to be there and valid in the
    /// format.
    ///
    /// Returns `Count` if the slice has more than 8 bytes and the block as many references as it can have. Takes
    /// constant time and allocates nothing: more than 8 bytes are shared.
    ///
    /// ```
    /// let text = StrTendril::from_slice(alloc, "0123456789")?;
    /// assert_eq!(rt; text.subtendril(2, 3)?.as_str(), "234");
    /// ```
    pub fn subtendril(&self, offset: u32, count: u32) -> Result<Self, SubtendrilError>
        requires within { offset + count ≤ length self.now.bytes }
        requires valid { F.valid (take count (drop offset self.now.bytes)) }
        ensures { Slices self.now.bytes offset count result }
    {
        valid_part(&self.storage, offset, count)
    }

    /// Returns a text of the `count` bytes from `offset` on, as `subtendril` does. The caller proves its conditions, so
    /// no call is unsafe.
    pub fn unsafe_subtendril(&self, offset: u32, count: u32) -> Result<Self, SubtendrilError>
        requires within { offset + count ≤ length self.now.bytes }
        requires valid { F.valid (take count (drop offset self.now.bytes)) }
        ensures { Slices self.now.bytes offset count result }
    {
        self.subtendril(offset, count)
    }

    /// Removes the first `count` bytes and returns them, if they are there and both sides are valid in the format.
    ///
    /// Returns `OutOfBounds` if the text has fewer, else `ValidationFailed` if either side isn't valid, else `Count` if
    /// both have more than 8 bytes and the block as many references as it can have; then nothing has changed. Takes
    /// constant time and allocates nothing: sides of more than 8 bytes keep sharing the block.
    ///
    /// ```
    /// let mut text = StrTendril::from_slice(alloc, "key=value")?;
    /// let key = text.try_split_to(3)?;
    /// assert_eq!(rt; key.as_str(), "key");
    /// assert_eq!(rt; text.as_str(), "=value");
    /// ```
    pub fn try_split_to(&mut self, count: u32) -> Result<Self, SubtendrilError>
        ensures parts { SplitsValid F.valid count self.old result self.new }
        ensures joined { IfOk result (λ front. self.old.bytes ≡ front.bytes ++ self.new.bytes) }
    {
        let text = self.as_byte_slice();
        if text.len() < count as usize {
            return Err(SubtendrilError::OutOfBounds);
        }
        if !are_parts_valid::<F>(text, count as usize) {
            return Err(SubtendrilError::ValidationFailed);
        }
        self.split_to(count)
    }

    /// Removes the first `count` bytes and returns them. The caller proves that they are there and that both sides are
    /// valid.
    ///
    /// Returns `Count` if both have more than 8 bytes and the block as many references as it can have; then nothing has
    /// changed. Takes constant time and allocates nothing.
    ///
    /// ```
    /// let mut text = StrTendril::from_slice(alloc, "key=value")?;
    /// let key = text.split_to(3)?;
    /// assert_eq!(rt; key.as_str(), "key");
    /// ```
    pub fn split_to(&mut self, count: u32) -> Result<Self, SubtendrilError>
        requires within { count ≤ length self.old.bytes }
        requires front_valid { F.valid (take count self.old.bytes) }
        requires rest_valid { F.valid (drop count self.old.bytes) }
        ensures parts { Splits count self.old result self.new }
        ensures joined { IfOk result (λ front. self.old.bytes ≡ front.bytes ++ self.new.bytes) }
    {
        match self.take_front(count) {
            Ok(front) => Ok(front),
            Err(_) => Err(SubtendrilError::Count),
        }
    }

    /// Returns the whole text, and leaves an empty one. Allocates nothing and can't fail.
    ///
    /// ```
    /// let mut text = StrTendril::from_slice(alloc, "taken")?;
    /// assert_eq!(rt; text.take().as_str(), "taken");
    /// assert_eq!(rt; text.as_str(), "");
    /// ```
    pub fn take(&mut self) -> Self
        ensures text { result ≡ self.old }
        ensures empty { self.new.bytes ≡ [] }
        ensures copied { self.new.copied ≤ INLINE_LEN }
    {
        let empty = Tendril::new(self.storage.allocator());
        mem::replace(self, empty)
    }

    // `split_to`, with `Refusal` as the type of its error.
    #[inline(always)]
    pub(crate) fn take_front(&mut self, count: u32) -> Result<Self, Refusal>
        requires within { count ≤ length self.old.bytes }
        requires front_valid { F.valid (take count self.old.bytes) }
        requires rest_valid { F.valid (drop count self.old.bytes) }
        ensures { TakesFront count self.old result self.new }
    {
        Ok(Tendril {
            storage: self.storage.take_front(count)?,
            format: PhantomData,
        })
    }
}

impl<A: Atomicity> Tendril<Bytes, A> {
    // Removes the first `count` bytes, which are UTF-8, and returns them, and drops the `skip` bytes after them, if
    // `count` is at most 8 and more than 8 bytes are left. Else returns `None`, and nothing has changed.
    #[inline(always)]
    pub(crate) fn take_few_text(&mut self, count: u32, skip: u32) -> Option<Tendril<UTF8, A>>
        requires within { count + skip ≤ length self.old.bytes }
        requires text { IsUtf8 (take count self.old.bytes) }
        ensures { TakesFew count skip self.old result self.new }
    {
        let storage = self.storage.take_few(count, skip)?;
        Some(Tendril {
            storage,
            format: PhantomData,
        })
    }

    // Drops the first `count` bytes. Any remainder is valid in `Bytes`.
    #[inline(always)]
    pub(crate) fn skip(&mut self, count: u32)
        requires { count ≤ length self.old.bytes }
        ensures bytes { self.new.bytes ≡ drop count self.old.bytes }
        ensures copied { PopCost self.old self.new }
    {
        let rest = self.len32() - count;
        self.storage.keep_part(count, rest);
    }
}

// Returns a text of a slice that is there and valid in the format.
#[inline(always)]
pub(crate) fn valid_part<F: Format, A: Atomicity>(
    storage: &Storage<A>,
    offset: u32,
    count: u32,
) -> Result<Tendril<F, A>, SubtendrilError>
    requires within { offset + count ≤ length storage.now.bytes }
    requires valid { F.valid (take count (drop offset storage.now.bytes)) }
    ensures { Slices storage.now.bytes offset count result }
{
    match storage.part(offset, count) {
        Ok(storage) => Ok(Tendril {
            storage,
            format: PhantomData,
        }),
        Err(_) => Err(SubtendrilError::Count),
    }
}

//! Constructors: empty texts, and copies of bytes, strings and other texts.
ghost use Rattle.std.specs.Prelude.{◌≡◌, ◌≤◌, [], length, string_bytes};
ghost use Rattle.tendril_text.specs.Making.{IsTextOf, MakesText, MakesValidText};
ghost use Rattle.tendril_text.specs.Parts.{Clones};
ghost use Rattle.tendril_errors.specs.Outcomes.{NoneMust, MemoryMay, Gives};

use crate::tendril::view::View;
use crate::tendril::{ByteTendril, StrTendril, Tendril};
use std::alloc::{AllocError, Global};
use std::default::MadeWith;
use std::marker::PhantomData;
use tendril_block::{Atomicity, INLINE_LEN, MAX_LEN, Refusal};
use tendril_fmt::copies::{PIECE, copy_if_valid};
use tendril_fmt::fmt::{Bytes, Format, UTF8};
use tendril_storage::Storage;

impl<F: Format, A: Atomicity> Tendril<F, A> {
    /// Returns the empty text. Allocates nothing.
    ///
    /// ```
    /// let text = StrTendril::new(alloc);
    /// assert_eq!(rt; text.as_str(), "");
    /// ```
    pub fn new(alloc: Global) -> Self
        ensures bytes { result.bytes ≡ [] }
        ensures copied { result.copied ≡ 0 }
    {
        Tendril {
            storage: Storage::new(alloc),
            format: PhantomData,
        }
    }

    /// Returns the empty text, with capacity for `capacity` bytes.
    ///
    /// Returns `Memory` if the allocation fails. Up to 8 bytes it allocates nothing.
    ///
    /// ```
    /// let mut text = StrTendril::with_capacity(alloc, 100)?;
    /// text.push_slice("the first push allocates nothing")?;
    /// assert_eq!(rt; text.len32(), 32);
    /// ```
    pub fn with_capacity(alloc: Global, capacity: u32) -> Result<Self, Refusal>
        ensures { Gives NoneMust (MemoryMay capacity) (IsTextOf []) result }
    {
        Ok(Tendril {
            storage: Storage::with_capacity(alloc, capacity)?,
            format: PhantomData,
        })
    }

    /// Returns a text with a copy of the bytes if they are valid in the format.
    ///
    /// Returns `Invalid` if they aren't, else `TooLong` if there are more than 4294967295, else `Memory` if an
    /// allocation fails. Allocates only for more than 8 bytes. More than 1 KB are validated and copied piece by piece,
    /// so that each piece is read from the cache when it is copied; if they are invalid, they are read up to twice.
    ///
    /// ```
    /// let text = StrTendril::try_from_byte_slice(alloc, b"abc")?;
    /// assert_eq!(rt; text.as_str(), "abc");
    /// assert_eq!(rt; StrTendril::try_from_byte_slice(alloc, b"\xFF").err(), Some(Refusal::Invalid));
    /// ```
    pub fn try_from_byte_slice(alloc: Global, bytes: &[u8]) -> Result<Self, Refusal>
        ensures { MakesValidText F.valid bytes.now result }
    {
        if PIECE < bytes.len() && bytes.len() <= MAX_LEN as usize {
            return match copy_if_valid::<F>(alloc, bytes) {
                Ok(Some(copy)) => Ok(Tendril {
                    storage: Storage::from_vec(alloc, copy)?,
                    format: PhantomData,
                }),
                Ok(None) => Err(Refusal::Invalid),
                Err(_) => Err(Refusal::Memory),
            };
        }
        if !F::validate(bytes) {
            return Err(Refusal::Invalid);
        }
        Self::from_byte_slice_without_validating(alloc, bytes)
    }

    /// Returns a text with a copy of the bytes, which the caller proves to be valid in the format.
    ///
    /// Returns `TooLong` if there are more than 4294967295, else `Memory` if an allocation fails.
    #[inline(always)]
    pub fn from_byte_slice_without_validating(alloc: Global, bytes: &[u8]) -> Result<Self, Refusal>
        requires { F.valid bytes.now }
        ensures { MakesText bytes.now result }
    {
        if bytes.len() > MAX_LEN as usize {
            return Err(Refusal::TooLong);
        }
        Ok(Tendril {
            storage: Storage::from_slice(alloc, bytes)?,
            format: PhantomData,
        })
    }

    /// Returns another text with the same bytes. More than 8 bytes are shared, not copied.
    ///
    /// Takes constant time and allocates nothing. Returns `Count` if the block has as many references as it can have,
    /// which is possible only for more than 8 bytes.
    ///
    /// ```
    /// let text = StrTendril::from_slice(alloc, "shared by both")?;
    /// let copy = text.clone()?;
    /// assert_eq!(rt; copy.as_str(), "shared by both");
    /// ```
    #[inline(always)]
    pub fn clone(&self) -> Result<Self, Refusal>
        ensures { Clones self.now.bytes result }
    {
        View::<F, A>::new(&self.storage).to_tendril()
    }

    #[inline(always)]
    pub(crate) fn allocator(&self) -> Global {
        self.storage.allocator()
    }
}

/// `clone` is `Tendril::clone` for derives and generic code, which call std's `Clone`. Its error is std's `AllocError`,
/// as for an `Rc`; for at most 8 bytes it doesn't fail.
impl<F: Format, A: Atomicity> Clone for Tendril<F, A> {
    ghost use Rattle.std.specs.Prelude.{◌≤◌, length};
    ghost use Rattle.tendril_errors.specs.declared.limits.TheConstants.{INLINE_LEN};
    ghost use Rattle.tendril_text.specs.Parts.{IsShareOf};

    ghost is_clone = { λ t copy. IsShareOf t.bytes copy };

    ghost is_infallible = { λ t. length t.bytes ≤ INLINE_LEN };

    fn clone(&self) -> Result<Self, AllocError> {
        match Tendril::clone(self) {
            Ok(text) => Ok(text),
            Err(_) => Err(AllocError),
        }
    }
}

impl<F: Format, A: Atomicity> MadeWith<Global> for Tendril<F, A> {
    ghost is_made_with = { λ t. (t.bytes ≡ []) × (t.copied ≡ 0) };

    fn made_with(alloc: Global) -> Self {
        Tendril::new(alloc)
    }
}

impl<A: Atomicity> Tendril<Bytes, A> {
    /// Returns a text with a copy of the bytes.
    ///
    /// Returns `TooLong` if there are more than 4294967295, else `Memory` if an allocation fails. Allocates only for
    /// more than 8 bytes.
    ///
    /// ```
    /// let text = ByteTendril::from_slice(alloc, b"\xFF\x00")?;
    /// assert_eq!(rt; text.as_byte_slice(), b"\xFF\x00".as_slice());
    /// ```
    #[inline(always)]
    pub fn from_slice(alloc: Global, bytes: &[u8]) -> Result<Self, Refusal>
        ensures { MakesText bytes.now result }
    {
        Tendril::from_byte_slice_without_validating(alloc, bytes)
    }
}

impl<A: Atomicity> Tendril<UTF8, A> {
    /// Returns a text with a copy of the string.
    ///
    /// Returns `TooLong` if it has more than 4294967295 bytes, else `Memory` if an allocation fails. Allocates only for
    /// more than 8 bytes.
    ///
    /// ```
    /// let text = StrTendril::from_slice(alloc, "a copy of the string")?;
    /// assert_eq!(rt; text.as_str(), "a copy of the string");
    /// ```
    #[inline(always)]
    pub fn from_slice(alloc: Global, text: &str) -> Result<Self, Refusal>
        ensures { MakesText text.now result }
    {
        Self::from_byte_slice_without_validating(alloc, text.as_bytes())
    }

    /// Returns a text with a copy of a string of at most 8 bytes, and can't fail.
    ///
    /// Allocates nothing. Called with a literal it compiles to a constant of one word.
    ///
    /// ```
    /// let text = StrTendril::from_short_str(alloc, "script");
    /// assert_eq!(rt; text.as_str(), "script");
    /// ```
    #[inline(always)]
    pub fn from_short_str(alloc: Global, text: &str) -> Self
        requires { length text.now ≤ INLINE_LEN }
        ensures bytes { result.bytes ≡ text.now }
        ensures copied { result.copied ≡ length text.now }
    {
        Tendril {
            storage: Storage::few(alloc, text.as_bytes()),
            format: PhantomData,
        }
    }

    /// Turns a `String` into a text. More than 8 bytes aren't copied: the text keeps the string's allocation and its
    /// capacity.
    ///
    /// Takes constant time, and allocates only the block's header. Returns `TooLong` if the string has more than
    /// 4294967295 bytes, else `Memory` if that allocation fails.
    ///
    /// ```
    /// let string = String::from_str(alloc, "not copied again")?;
    /// let text = StrTendril::from_string(alloc, string)?;
    /// assert_eq!(rt; text.as_str(), "not copied again");
    /// ```
    pub fn from_string(alloc: Global, string: String) -> Result<Self, Refusal>
        ensures { MakesText (string_bytes string) result }
    {
        if string.len() > MAX_LEN as usize {
            return Err(Refusal::TooLong);
        }
        Ok(Tendril {
            storage: Storage::from_vec(alloc, string.into_bytes())?,
            format: PhantomData,
        })
    }

    /// Returns a text with a copy of the string, as `from_slice` does.
    ///
    /// Returns `TooLong` if it has more than 4294967295 bytes, else `Memory` if an allocation fails.
    ///
    /// ```
    /// let text = StrTendril::from_str(alloc, "abc")?;
    /// assert_eq!(rt; text.as_str(), "abc");
    /// ```
    pub fn from_str(alloc: Global, text: &str) -> Result<Self, Refusal>
        ensures { MakesText text.now result }
    {
        Self::from_slice(alloc, text)
    }
}

/// Returns a text in UTF-8 with a copy of the string, over `NonAtomic` blocks.
///
/// Returns `TooLong` if it has more than 4294967295 bytes, else `Memory` if an allocation fails.
///
/// ```
/// let text = str_to_tendril(alloc, "abc")?;
/// assert_eq!(rt; text.as_str(), "abc");
/// ```
pub fn str_to_tendril(alloc: Global, text: &str) -> Result<StrTendril, Refusal>
    ensures { MakesText text.now result }
{
    StrTendril::from_slice(alloc, text)
}

/// Returns a text of any bytes with a copy of these, over `NonAtomic` blocks.
///
/// Returns `TooLong` if there are more than 4294967295, else `Memory` if an allocation fails.
///
/// ```
/// let text = slice_to_tendril(alloc, b"abc")?;
/// assert_eq!(rt; text.as_byte_slice(), b"abc".as_slice());
/// ```
pub fn slice_to_tendril(alloc: Global, bytes: &[u8]) -> Result<ByteTendril, Refusal>
    ensures { MakesText bytes.now result }
{
    ByteTendril::from_slice(alloc, bytes)
}

//! Borrowed texts, seen in another format.
ghost use Rattle.std.specs.Prelude.{◌≡◌, ◌≤◌, length};
ghost use Rattle.tendril_text.specs.Parts.{Clones, SlicesValid};

use crate::tendril::Tendril;
use crate::tendril::part::valid_part;
use crate::tendril::print::debug;
use std::fmt::{self, Debug, Formatter, Write};
use std::marker::{Model, PhantomData};
use tendril_block::{Atomicity, MAX_LEN, Refusal, SubtendrilError};
use tendril_fmt::cuts::is_slice_valid;
use tendril_fmt::fmt::{Bytes, Format, UTF8};
use tendril_storage::Storage;

// Not `Copy`: a struct with a lifetime parameter and its own `Model` can't be.
/// A borrowed text, seen in the format `F`, in which it is valid. It takes the place of a `&Tendril<F, A>`.
#[derive(Drop)]
pub struct View<'a, F: Format, A: Atomicity> {
    storage: &'a Storage<A>,
    format: PhantomData<F>,
}

impl<'a, F: Format, A: Atomicity> Model for View<'a, F, A> {
    ghost use Rattle.tendril_storage.specs.Texts.{Text};

    ghost Value = { Text };

    ghost view = { λ v. v.storage.now };

    ghost invariant = { λ v. F.valid v.storage.now.bytes };
}

impl<'a, F: Format, A: Atomicity> View<'a, F, A> {
    /// Returns the view of bytes that are valid in the format.
    pub(crate) fn new(storage: &'a Storage<A>) -> Self
        requires { F.valid storage.now.bytes }
        ensures { result ≡ storage.now }
    {
        View {
            storage,
            format: PhantomData,
        }
    }

    /// Returns the number of bytes, which fits in 32 bits.
    ///
    /// ```
    /// assert_eq!(rt; StrTendril::from_slice(alloc, "é")?.as_bytes().len32(), 2);
    /// ```
    pub fn len32(&self) -> u32
        ensures { result ≡ length self.now.bytes }
    {
        self.storage.len32()
    }

    /// Borrows the bytes, for as long as the text is borrowed.
    ///
    /// ```
    /// let text = StrTendril::from_slice(alloc, "é")?;
    /// assert_eq!(rt; text.as_bytes().as_byte_slice(), b"\xC3\xA9".as_slice());
    /// ```
    pub fn as_byte_slice(&self) -> &'a [u8]
        ensures value { result.now ≡ self.now.bytes }
        ensures valid { F.valid self.now.bytes }
        ensures short { length self.now.bytes ≤ MAX_LEN }
    {
        self.storage.as_slice()
    }

    /// Returns a text of the `count` bytes from `offset` on, if they are there and valid in the view's format.
    ///
    /// Returns `OutOfBounds` if the text is too short, else `ValidationFailed` if the slice isn't valid, else `Count`
    /// if it has more than 8 bytes and the block as many references as it can have. Takes constant time and allocates
    /// nothing: more than 8 bytes are shared.
    ///
    /// ```
    /// let text = StrTendril::from_slice(alloc, "é")?;
    /// assert_eq!(rt; text.as_bytes().try_subtendril(0, 1)?.as_byte_slice(), b"\xC3".as_slice());
    /// ```
    #[inline(always)]
    pub fn try_subtendril(&self, offset: u32, count: u32) -> Result<Tendril<F, A>, SubtendrilError>
        ensures { SlicesValid F.valid self.now.bytes offset count result }
    {
        let bytes = self.storage.as_slice();
        if offset as usize + count as usize > bytes.len() {
            return Err(SubtendrilError::OutOfBounds);
        }
        if !is_slice_valid::<F>(bytes, offset as usize, count as usize) {
            return Err(SubtendrilError::ValidationFailed);
        }
        valid_part(self.storage, offset, count)
    }

    /// Returns a text with the same bytes in the view's format. More than 8 bytes are shared, not copied.
    ///
    /// Takes constant time and allocates nothing. Returns `Count` if the block has as many references as it can have,
    /// which is possible only for more than 8 bytes.
    ///
    /// ```
    /// let text = StrTendril::from_slice(alloc, "abc")?;
    /// let bytes = text.as_bytes().to_tendril()?;
    /// assert_eq!(rt; bytes.as_byte_slice(), b"abc".as_slice());
    /// ```
    #[inline(always)]
    pub fn to_tendril(&self) -> Result<Tendril<F, A>, Refusal>
        ensures { Clones self.now.bytes result }
    {
        Ok(Tendril {
            storage: self.storage.whole()?,
            format: PhantomData,
        })
    }
}

impl<'a, A: Atomicity> View<'a, UTF8, A> {
    /// Borrows the text as a string, for as long as the text is borrowed. It isn't validated again.
    ///
    /// ```
    /// let text = StrTendril::from_slice(alloc, "abc")?.into_bytes();
    /// assert_eq!(rt; text.try_reinterpret_view::<UTF8>()?.as_str(), "abc");
    /// ```
    pub fn as_str(&self) -> &'a str
        ensures { result.now ≡ self.now.bytes }
    {
        unsafe { str::from_utf8_unchecked(self.as_byte_slice()) }
    }
}

/// Prints the text as `Tendril` does.
impl<'a, A: Atomicity> Debug for View<'a, UTF8, A> {
    fn fmt<W: Write>(&self, f: &mut Formatter<W>) -> fmt::Result {
        debug::<UTF8, A, &str, W>(self.storage, &self.as_str(), f)
    }
}

/// Prints the text as `Tendril` does.
impl<'a, A: Atomicity> Debug for View<'a, Bytes, A> {
    fn fmt<W: Write>(&self, f: &mut Formatter<W>) -> fmt::Result {
        debug::<Bytes, A, &[u8], W>(self.storage, &self.as_byte_slice(), f)
    }
}

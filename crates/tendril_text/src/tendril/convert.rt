//! Conversions: texts that change their format and keep their bytes.
ghost use Rattle.std.specs.Prelude.{◌≡◌, IfOk, IfErr, OnOk, OnErr};
ghost use Rattle.tendril_errors.specs.Outcomes.{ValidMust, NoneMay, Gives};

use crate::tendril::Tendril;
use crate::tendril::view::View;
use std::marker::PhantomData;
use tendril_block::{Atomicity, Refusal};
use tendril_fmt::fmt::{Bytes, Format, SubsetOf};

impl<F: Format, A: Atomicity> Tendril<F, A> {
    /// Turns the text into one of bytes. Copies nothing.
    ///
    /// ```
    /// let bytes = StrTendril::from_slice(alloc, "abc")?.into_bytes();
    /// assert_eq!(rt; bytes.as_byte_slice(), b"abc".as_slice());
    /// ```
    pub fn into_bytes(self) -> Tendril<Bytes, A>
        ensures { result ≡ self }
    {
        self.reinterpret_without_validating() // any bytes are valid in `Bytes`
    }

    /// Turns the text into one of a format that contains its own. Copies nothing.
    ///
    /// ```
    /// let text = Tendril::<ASCII>::try_from_byte_slice(alloc, b"abc")?;
    /// assert_eq!(rt; text.into_superset::<UTF8>().as_str(), "abc");
    /// ```
    pub fn into_superset<Super: Format>(self) -> Tendril<Super, A>
    where
        F: SubsetOf<Super>,
        ensures { result ≡ self }
    {
        let Tendril { storage, format: _ } = self; // what is valid in a subset is valid in the superset
        Tendril {
            storage,
            format: PhantomData,
        }
    }

    /// Turns the text into one of a format that its own contains, or returns the text unchanged if it isn't valid
    /// there.
    ///
    /// Validates in one pass, and copies nothing.
    ///
    /// ```
    /// let text = StrTendril::from_slice(alloc, "é")?;
    /// let Err(text) = text.try_into_subset::<ASCII>() else { return Err(Fail::new("é isn't ASCII")) };
    /// assert_eq!(rt; text.as_str(), "é");
    /// ```
    pub fn try_into_subset<Sub: SubsetOf<F>>(self) -> Result<Tendril<Sub, A>, Self>
        ensures valid { OnOk result (Sub.valid self.bytes) }
        ensures ok { IfOk result (λ t. t ≡ self) }
        ensures invalid { OnErr result (Sub.valid self.bytes → ⊥) }
        ensures back { IfErr result (λ t. t ≡ self) }
    {
        if !Sub::revalidate_subset(self.as_byte_slice()) {
            return Err(self);
        }
        Ok(self.reinterpret_without_validating())
    }

    /// Turns the text into one of another format, or returns the text unchanged if it isn't valid there.
    ///
    /// Validates in one pass, and copies nothing.
    ///
    /// ```
    /// let bytes = ByteTendril::from_slice(alloc, b"abc")?;
    /// let text = bytes.try_reinterpret::<UTF8>()?;
    /// assert_eq!(rt; text.as_str(), "abc");
    /// ```
    pub fn try_reinterpret<Other: Format>(self) -> Result<Tendril<Other, A>, Self>
        ensures valid { OnOk result (Other.valid self.bytes) }
        ensures ok { IfOk result (λ t. t ≡ self) }
        ensures invalid { OnErr result (Other.valid self.bytes → ⊥) }
        ensures back { IfErr result (λ t. t ≡ self) }
    {
        if !Other::validate(self.as_byte_slice()) {
            return Err(self);
        }
        Ok(self.reinterpret_without_validating())
    }

    /// Turns the text into one of another format, in which the caller proves it to be valid. Copies nothing.
    pub fn reinterpret_without_validating<Other: Format>(self) -> Tendril<Other, A>
        requires { Other.valid self.bytes }
        ensures { result ≡ self }
    {
        let Tendril { storage, format: _ } = self; // valid in `Other`, as the caller proves
        Tendril {
            storage,
            format: PhantomData,
        }
    }

    /// Borrows the text as one of bytes. Copies nothing.
    ///
    /// ```
    /// let text = StrTendril::from_slice(alloc, "é")?;
    /// assert_eq!(rt; text.as_bytes().as_byte_slice(), b"\xC3\xA9".as_slice());
    /// ```
    pub fn as_bytes(&self) -> View<'_, Bytes, A>
        ensures { result ≡ self.now }
    {
        View::new(&self.storage) // any bytes are valid in `Bytes`
    }

    /// Borrows the text as one of a format that contains its own. Copies nothing.
    ///
    /// ```
    /// let text = Tendril::<ASCII>::try_from_byte_slice(alloc, b"abc")?;
    /// assert_eq!(rt; text.as_superset::<UTF8>().as_str(), "abc");
    /// ```
    pub fn as_superset<Super: Format>(&self) -> View<'_, Super, A>
    where
        F: SubsetOf<Super>,
        ensures { result ≡ self.now }
    {
        View::new(&self.storage) // what is valid in a subset is valid in the superset
    }

    /// Borrows the text as one of a format that its own contains, if it is valid there.
    ///
    /// Returns `Invalid` if it isn't. Validates in one pass, and copies nothing.
    ///
    /// ```
    /// let text = StrTendril::from_slice(alloc, "abc")?;
    /// assert_eq!(rt; text.try_as_subset::<ASCII>()?.len32(), 3);
    /// ```
    pub fn try_as_subset<Sub: SubsetOf<F>>(&self) -> Result<View<'_, Sub, A>, Refusal>
        ensures { Gives (ValidMust Sub.valid self.now.bytes) NoneMay (λ v. v ≡ self.now) result }
    {
        if Sub::revalidate_subset(self.as_byte_slice()) {
            Ok(View::new(&self.storage))
        } else {
            Err(Refusal::Invalid)
        }
    }

    /// Borrows the text as one of another format, if it is valid there.
    ///
    /// Returns `Invalid` if it isn't. Validates in one pass, and copies nothing.
    ///
    /// ```
    /// let bytes = ByteTendril::from_slice(alloc, b"abc")?;
    /// assert_eq!(rt; bytes.try_reinterpret_view::<UTF8>()?.as_str(), "abc");
    /// ```
    pub fn try_reinterpret_view<Other: Format>(&self) -> Result<View<'_, Other, A>, Refusal>
        ensures { Gives (ValidMust Other.valid self.now.bytes) NoneMay (λ v. v ≡ self.now) result }
    {
        if Other::validate(self.as_byte_slice()) {
            Ok(View::new(&self.storage))
        } else {
            Err(Refusal::Invalid)
        }
    }

    /// Borrows the text as one of another format, in which the caller proves it to be valid. Copies nothing.
    pub fn reinterpret_view_without_validating<Other: Format>(&self) -> View<'_, Other, A>
        requires { Other.valid self.now.bytes }
        ensures { result ≡ self.now }
    {
        View::new(&self.storage) // valid in `Other`, as the caller proves
    }
}

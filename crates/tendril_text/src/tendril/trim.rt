//! Texts without the white space, or the line ending, at their ends.
ghost use Rattle.std.specs.Prelude.{IfOk};
ghost use Rattle.tendril_fmt.specs.Cuts.{IsWithoutEnding, IsTrimOf};
ghost use Rattle.tendril_text.specs.Trims.{Trims};

use crate::tendril::Tendril;
use std::marker::PhantomData;
use tendril_block::{Atomicity, Refusal};
use tendril_fmt::cuts::{line_ending_len, trimmed_range};
use tendril_fmt::fmt::CutsAtAscii;

impl<F: CutsAtAscii, A: Atomicity> Tendril<F, A> {
    ghost use Rattle.tendril_storage.specs.Texts.{PopCost};

    /// Returns the text without the ASCII white space at both ends, as `str::trim_ascii` does: tabs, line feeds, form
    /// feeds, carriage returns and spaces.
    ///
    /// `str::trim` leaves out all Unicode white space. Returns `Count` if the result has more than 8 bytes and the
    /// block as many references as it can have. Reads up to the first byte at each end that stays. Allocates nothing:
    /// more than 8 bytes are shared.
    ///
    /// ```
    /// let line = StrTendril::from_slice(alloc, "\t key = value \r\n")?;
    /// assert_eq!(rt; line.trimmed()?.as_str(), "key = value");
    /// ```
    pub fn trimmed(&self) -> Result<Self, Refusal>
        ensures trims { Trims self.now.bytes result }
        ensures joined { IfOk result (λ text. IsTrimOf self.now.bytes text.bytes) }
    {
        let (start, len) = trimmed_range::<F>(self.as_byte_slice());
        match self.storage.part(start as u32, len as u32) {
            Ok(storage) => Ok(Tendril {
                storage,
                format: PhantomData,
            }),
            Err(refusal) => Err(refusal),
        }
    }

    /// Turns the text into one without the ASCII white space at both ends, as `trimmed` does. Allocates nothing and
    /// can't fail.
    ///
    /// ```
    /// let line = StrTendril::from_slice(alloc, "\t key = value \r\n")?;
    /// assert_eq!(rt; line.into_trimmed().as_str(), "key = value");
    /// ```
    pub fn into_trimmed(self) -> Self
        ensures joined { IsTrimOf self.bytes result.bytes }
        ensures copied { PopCost self result }
    {
        let mut text = self;
        text.trim();
        text
    }

    /// Returns the text without the line ending at its end, an LF or a CR and an LF, if it has one. Takes constant
    /// time, allocates nothing and can't fail.
    ///
    /// ```
    /// let line = StrTendril::from_slice(alloc, "key = value \r\n")?;
    /// assert_eq!(rt; line.without_line_ending().as_str(), "key = value ");
    /// ```
    pub fn without_line_ending(self) -> Self
        ensures bytes { IsWithoutEnding self.bytes result.bytes }
        ensures copied { PopCost self result }
    {
        let mut text = self;
        let count = line_ending_len::<F>(text.as_byte_slice());
        text.pop_back(count as u32);
        text
    }

    // Drops the white space at both ends.
    fn trim(&mut self)
        ensures joined { IsTrimOf self.old.bytes self.new.bytes }
        ensures copied { PopCost self.old self.new }
    {
        let (start, len) = trimmed_range::<F>(self.as_byte_slice());
        self.storage.keep_part(start as u32, len as u32);
    }
}

//! The characters of a text, one by one.
ghost use Rattle.std.specs.Prelude.{◌≡◌};
ghost use Rattle.std.specs.Iterator.{YieldsFirst, item_count};
ghost use Rattle.tendril_text.specs.Iterators.{IsLeftBy};

use crate::tendril::Tendril;
use std::iter::FusedIterator;
use tendril_block::Atomicity;
use tendril_fmt::fmt::CharFormat;

/// The characters of a text, in order. Allocates nothing.
#[derive(Drop)]
pub struct IntoChars<F: CharFormat, A: Atomicity> {
    /// What is left of the text.
    pub rest: Tendril<F, A>,
}

impl<F: CharFormat, A: Atomicity> Iterator for IntoChars<F, A> {
    type Item = char;

    ghost next_gives = { λ chars found next.
        YieldsFirst (λ chars. F.chars chars.rest.bytes) chars found next × IsLeftBy found chars.rest next.rest };

    ghost remaining = { item_count (λ chars. F.chars chars.rest.bytes) };

    fn next(&mut self) -> Option<char> {
        self.rest.pop_front_char()
    }
}

impl<F: CharFormat, A: Atomicity> FusedIterator for IntoChars<F, A> {}

impl<F: CharFormat, A: Atomicity> Tendril<F, A> {
    /// Returns an iterator of the text's characters, in order. It owns the text and allocates nothing.
    ///
    /// ```
    /// let mut characters = StrTendril::from_slice(alloc, "aé")?.into_chars();
    /// assert_eq!(rt; characters.next(), Some('a'));
    /// assert_eq!(rt; characters.next(), Some('é'));
    /// assert_eq!(rt; characters.next(), None);
    /// ```
    pub fn into_chars(self) -> IntoChars<F, A>
        ensures { result.rest ≡ self }
    {
        IntoChars { rest: self }
    }
}

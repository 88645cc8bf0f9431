//! The texts between the bytes of a set, one by one.
ghost use Rattle.std.specs.Prelude.{◌≡◌, false};
ghost use Rattle.std.specs.Iterator.{at_most};
ghost use Rattle.tendril_text.specs.Iterators.{parts_left};
ghost use Rattle.tendril_fmt.specs.Sets.{has_byte};
ghost use Rattle.tendril_text.specs.Splits.{NextSplit};

use crate::tendril::Tendril;
use tendril_block::{Atomicity, Refusal};
use tendril_fmt::cuts::{ByteSet, first_part};
use tendril_fmt::fmt::{CutsAtAscii, Format};

/// The texts between the bytes of a set, in order, up to the first error.
#[derive(Drop)]
pub struct IntoSplit<'s, F: Format, A: Atomicity> {
    /// What is left of the text. After an error, the part is still in it.
    pub rest: Tendril<F, A>,
    set: &'s ByteSet,
    is_over: bool,
}

impl<'s, F: CutsAtAscii, A: Atomicity> Iterator for IntoSplit<'s, F, A> {
    type Item = Result<Tendril<F, A>, Refusal>;

    ghost next_gives = { λ parts found next. NextSplit (has_byte parts.set.now)
        parts.rest parts.is_over found next.rest next.is_over × (next.set ≡ parts.set) };

    ghost remaining = { λ parts. at_most (parts_left parts.is_over parts.rest.bytes) };

    fn next(&mut self) -> Option<Result<Tendril<F, A>, Refusal>> {
        if self.is_over {
            return None;
        }
        let piece = first_part::<F>(self.rest.as_byte_slice(), self.set);
        match self.rest.take_piece(piece) {
            Ok(part) => {
                self.is_over = piece.ending == 0;
                Some(Ok(part))
            }
            Err(refusal) => {
                self.is_over = true;
                Some(Err(refusal))
            }
        }
    }
}

impl<F: CutsAtAscii, A: Atomicity> Tendril<F, A> {
    /// Returns an iterator of the texts between the bytes of the set, empty ones too, as `str::split` does. It owns the
    /// text.
    ///
    /// Allocates nothing: parts of more than 8 bytes share the block. An item is `Count` only if the part and the text
    /// after it both have more than 8 bytes and the block as many references as it can have; no item follows it, and
    /// the remaining text is in `rest`.
    ///
    /// ```
    /// let set = ByteSet::new(b",");
    /// let mut parts = StrTendril::from_slice(alloc, "one,")?.into_split(&set);
    /// assert_eq!(rt; parts.next().transpose()?.is_some_and(|part| part.eq_str("one")), true);
    /// assert_eq!(rt; parts.next().transpose()?.is_some_and(|part| part.eq_str("")), true);
    /// assert_eq!(rt; parts.next().is_none(), true);
    /// ```
    pub fn into_split<'s>(self, set: &'s ByteSet) -> IntoSplit<'s, F, A>
        ensures rest { result.rest ≡ self }
        ensures set { result.set.now ≡ set.now }
        ensures begins { result.is_over ≡ false }
    {
        IntoSplit {
            rest: self,
            set,
            is_over: false,
        }
    }
}

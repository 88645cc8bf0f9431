//! The lines of a text, one by one.
ghost use Rattle.std.specs.Prelude.{◌≡◌, false};
ghost use Rattle.std.specs.Iterator.{at_most};
ghost use Rattle.tendril_text.specs.Iterators.{parts_left};
ghost use Rattle.tendril_text.specs.Splits.{NextLine};

use crate::tendril::Tendril;
use tendril_block::{Atomicity, Refusal};
use tendril_fmt::cuts::first_line;
use tendril_fmt::fmt::{CutsAtAscii, Format};

/// The lines of a text without their line endings, up to the first error.
#[derive(Drop)]
pub struct IntoLines<F: Format, A: Atomicity> {
    /// What is left of the text. After an error, the line is still in it.
    pub rest: Tendril<F, A>,
    is_refused: bool,
}

impl<F: CutsAtAscii, A: Atomicity> Iterator for IntoLines<F, A> {
    type Item = Result<Tendril<F, A>, Refusal>;

    ghost next_gives = { λ lines found next. NextLine lines.rest lines.is_refused found next.rest next.is_refused };

    ghost remaining = { λ lines. at_most (parts_left lines.is_refused lines.rest.bytes) };

    fn next(&mut self) -> Option<Result<Tendril<F, A>, Refusal>> {
        if self.is_refused || self.rest.is_empty() {
            return None;
        }
        let piece = first_line::<F>(self.rest.as_byte_slice());
        match self.rest.take_piece(piece) {
            Ok(line) => Some(Ok(line)),
            Err(refusal) => {
                self.is_refused = true;
                Some(Err(refusal))
            }
        }
    }
}

impl<F: CutsAtAscii, A: Atomicity> Tendril<F, A> {
    /// Returns an iterator of the text's lines without their line endings, as `str::lines` does. It owns the text.
    ///
    /// A line ends with an LF or with a CR and an LF; the last one may end with the text. Allocates nothing: lines of
    /// more than 8 bytes share the block. An item is `Count` only if the line and the text after it both have more than
    /// 8 bytes and the block as many references as it can have; no item follows it, and the remaining text is in
    /// `rest`.
    ///
    /// ```
    /// let mut lines = StrTendril::from_slice(alloc, "one\r\ntwo\n")?.into_lines();
    /// assert_eq!(rt; lines.next().transpose()?.is_some_and(|line| line.eq_str("one")), true);
    /// assert_eq!(rt; lines.next().transpose()?.is_some_and(|line| line.eq_str("two")), true);
    /// assert_eq!(rt; lines.next().is_none(), true);
    /// ```
    pub fn into_lines(self) -> IntoLines<F, A>
        ensures rest { result.rest ≡ self }
        ensures begins { result.is_refused ≡ false }
    {
        IntoLines {
            rest: self,
            is_refused: false,
        }
    }
}

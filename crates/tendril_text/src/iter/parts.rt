//! The characters of a set in a text and the texts between them, one by one.
ghost use Rattle.std.specs.Prelude.{◌≡◌, false};
ghost use Rattle.std.specs.Iterator.{at_most};
ghost use Rattle.tendril_text.specs.Iterators.{NextPart, parts_left};
ghost use Rattle.tendril_fmt.specs.Sets.{has_byte};

use crate::search::SetResult;
use crate::tendril::Tendril;
use tendril_block::{Atomicity, Refusal};
use tendril_fmt::cuts::ByteSet;
use tendril_fmt::fmt::{CharFormat, CutsAtAscii};

/// The characters of a set and the texts between them, in order, up to the first error.
#[derive(Drop)]
pub struct SplitAtAny<'s, F: CharFormat, A: Atomicity> {
    /// What is left of the text. After an error, the part is still in it.
    pub rest: Tendril<F, A>,
    set: &'s ByteSet,
    is_refused: bool,
}

impl<'s, F: CharFormat + CutsAtAscii, A: Atomicity> Iterator for SplitAtAny<'s, F, A> {
    type Item = Result<SetResult<F, A>, Refusal>;

    ghost next_gives = { λ parts found next. NextPart F.chars F.encoding (has_byte parts.set.now)
        parts.rest parts.is_refused found next.rest next.is_refused × (next.set ≡ parts.set) };

    ghost remaining = { λ parts. at_most (parts_left parts.is_refused parts.rest.bytes) };

    fn next(&mut self) -> Option<Result<SetResult<F, A>, Refusal>> {
        if self.is_refused {
            return None;
        }
        match self.rest.pop_except_from(self.set) {
            Ok(None) => None,
            Ok(Some(part)) => Some(Ok(part)),
            Err(refusal) => {
                self.is_refused = true;
                Some(Err(refusal))
            }
        }
    }
}

impl<F: CharFormat, A: Atomicity> Tendril<F, A> {
    /// Returns an iterator of the characters of the set and of the texts between them, each as `pop_except_from`
    /// returns it. It owns the text.
    ///
    /// Allocates nothing: parts of more than 8 bytes share the block. An item is `Count` only if the part and the text
    /// after it both have more than 8 bytes and the block as many references as it can have; no item follows it, and
    /// the remaining text is in `rest`.
    ///
    /// ```
    /// let set = ByteSet::new(b",");
    /// let mut parts = StrTendril::from_slice(alloc, "one,two")?.split_at_any(&set);
    /// assert_eq!(rt; matches!(parts.next().transpose()?, Some(SetResult::NotFromSet(_))), true);
    /// assert_eq!(rt; matches!(parts.next().transpose()?, Some(SetResult::FromSet(','))), true);
    /// assert_eq!(rt; parts.rest.as_str(), "two");
    /// ```
    pub fn split_at_any<'s>(self, set: &'s ByteSet) -> SplitAtAny<'s, F, A>
        ensures rest { result.rest ≡ self }
        ensures set { result.set.now ≡ set.now }
        ensures begins { result.is_refused ≡ false }
    {
        SplitAtAny {
            rest: self,
            set,
            is_refused: false,
        }
    }
}

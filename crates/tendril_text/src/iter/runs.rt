//! The runs of characters of a text, one by one.
ghost use Rattle.std.specs.Prelude.{◌≡◌, false};
ghost use Rattle.std.specs.Iterator.{at_most};
ghost use Rattle.tendril_text.specs.Iterators.{NextRun, parts_left};

use crate::tendril::Tendril;
use tendril_block::{Atomicity, Refusal};
use tendril_fmt::fmt::CharFormat;

/// The runs of characters of one class, each with its class, up to the first error.
#[derive(Drop)]
pub struct IntoCharRuns<F: CharFormat, A: Atomicity, C: Drop> {
    /// What is left of the text. After an error, the run is still in it.
    pub rest: Tendril<F, A>,
    classify: C,
    is_refused: bool,
}

impl<F: CharFormat, A: Atomicity, C: FnMut(char) -> R, R: PartialEq + Drop> Iterator
    for IntoCharRuns<F, A, C> {
    type Item = Result<(Tendril<F, A>, R), Refusal>;

    ghost can_next = { λ runs. C.IsAlwaysCallable runs.classify };

    ghost next_gives = { λ runs found next. NextRun C.step R.eq F.valid F.chars
        runs.rest runs.classify runs.is_refused found next.rest next.classify next.is_refused };

    ghost remaining = { λ runs. at_most (parts_left runs.is_refused runs.rest.bytes) };

    fn next(&mut self) -> Option<Result<(Tendril<F, A>, R), Refusal>> {
        if self.is_refused {
            return None;
        }
        match self.rest.pop_front_char_run_with(&mut self.classify) {
            Ok(None) => None,
            Ok(Some(run)) => Some(Ok(run)),
            Err(refusal) => {
                self.is_refused = true;
                Some(Err(refusal))
            }
        }
    }
}

impl<F: CharFormat, A: Atomicity> Tendril<F, A> {
    /// Returns an iterator of the runs of characters of one class, each with its class as `pop_front_char_run` returns
    /// it. It owns the text.
    ///
    /// Allocates nothing: runs of more than 8 bytes share the block. An item is `Count` only if the run and the text
    /// after it both have more than 8 bytes and the block as many references as it can have; no item follows it, and
    /// the remaining text is in `rest`.
    ///
    /// ```
    /// let mut words = 0;
    /// for run in StrTendril::from_slice(alloc, "two words")?.into_char_runs(char::is_whitespace) {
    ///     let (_, is_space) = run?;
    ///     words += if is_space { 0 } else { 1 };
    /// }
    /// assert_eq!(rt; words, 2);
    /// ```
    pub fn into_char_runs<C: Drop>(self, classify: C) -> IntoCharRuns<F, A, C>
        ensures rest { result.rest ≡ self }
        ensures classify { result.classify ≡ classify }
        ensures begins { result.is_refused ≡ false }
    {
        IntoCharRuns {
            rest: self,
            classify,
            is_refused: false,
        }
    }
}

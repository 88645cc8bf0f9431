//! The lines of a rope, one by one.
ghost use Rattle.std.specs.Prelude.{◌≡◌, false, ◌<◌, ◌≤◌, ◌+◌, ◌-◌, ◌↔◌, [], ℕ, length, take, drop, slice_index};
ghost use Rattle.std.specs.Prelude.{IsTrue, IsUtf8, IfSome, IfNone, OnSome, IfOk, IfErr, OnErr};
ghost use Rattle.std.specs.Iterator.{at_most};
ghost use Rattle.rope_text.specs.Fronts.{CutsLine, CutLineMay, NextCutLine};
ghost use Rattle.tendril_text.specs.Iterators.{parts_left};
ghost use Rattle.tendril_fmt.specs.Cuts.{TakesLine};
ghost use Rattle.tendril_text.specs.TextLists.{DropsFront};

use crate::rope::Rope;
use tendril_text::block::Refusal;
use tendril_text::{Atomicity, NonAtomic};

/// The lines of a rope without their line endings, up to the first error.
#[derive(Drop)]
pub struct RopeLines<A: Atomicity = NonAtomic> {
    /// What is left of the rope. A line that is returned as an error is still in it.
    pub rest: Rope<A>,
    is_refused: bool,
}

impl<A: Atomicity> Iterator for RopeLines<A> {
    type Item = Result<Rope<A>, Refusal>;

    ghost next_gives = { λ lines found next. NextCutLine lines.rest lines.is_refused found next.rest next.is_refused };

    ghost remaining = { λ lines. at_most (parts_left lines.is_refused lines.rest.bytes) };

    fn next(&mut self) -> Option<Result<Rope<A>, Refusal>> {
        if self.is_refused {
            return None;
        }
        match self.rest.pop_line() {
            Ok(None) => None,
            Ok(Some(line)) => Some(Ok(line)),
            Err(refusal) => {
                self.is_refused = true;
                Some(Err(refusal))
            }
        }
    }
}

impl<A: Atomicity> Rope<A> {
    /// Returns an iterator of the rope's lines without their line endings, as `str::lines` does. It owns the rope.
    ///
    /// Each item is what `pop_line` returns. No item follows an error, and what is left of the rope is in `rest`.
    ///
    /// ```
    /// let mut rope = Rope::new(alloc);
    /// rope.push_tendril(StrTendril::from_slice(alloc, "one\r\ntwo\n")?)?;
    /// let mut lines = rope.into_lines();
    /// assert_eq!(rt; lines.next().transpose()?.is_some_and(|line| line.len64() == 3), true);
    /// assert_eq!(rt; lines.next().transpose()?.is_some_and(|line| line.len64() == 3), true);
    /// assert_eq!(rt; lines.next().is_none(), true);
    /// ```
    pub fn into_lines(self) -> RopeLines<A>
        ensures rest { result.rest ≡ self }
        ensures begins { result.is_refused ≡ false }
    {
        RopeLines {
            rest: self,
            is_refused: false,
        }
    }

    /// Removes the first line and returns it without its line ending, or returns `None` if the rope is empty. Called
    /// until then, it returns the lines that `str::lines` does.
    ///
    /// A line ends with an LF, with a CR before it or not, and the last one may end with the rope. Returns `Memory` or
    /// `Count` where `try_split_to` does for the line; then nothing has changed. Takes one pass up to the LF, by
    /// `memchr`, and then what `try_split_to` takes.
    ///
    /// ```
    /// let mut rope = Rope::new(alloc);
    /// rope.push_tendril(StrTendril::from_slice(alloc, "one\r")?)?;
    /// rope.push_tendril(StrTendril::from_slice(alloc, "\ntwo")?)?;
    /// let Some(line) = rope.pop_line()? else { return Ok(()) };
    /// assert_eq!(rt; line.to_tendril()?.as_str(), "one");
    /// assert_eq!(rt; rope.to_tendril()?.as_str(), "two");
    /// ```
    pub fn pop_line(&mut self) -> Result<Option<Self>, Refusal>
        ensures line { IfOk result (λ found. IfSome found (λ line. CutsLine self.old line self.new)) }
        ensures shorter { IfOk result (λ found. OnSome found (length self.new.bytes < length self.old.bytes)) }
        ensures none { IfOk result (λ found. IfNone found ((self.old.bytes ≡ []) × (self.new ≡ self.old))) }
        ensures refusal { IfErr result (CutLineMay self.old) }
        ensures err { OnErr result (self.new ≡ self.old) }
    {
        if self.is_empty() {
            return Ok(None);
        }
        let (len, ending) = self.first_line();
        let line = self.try_split_to(len)?;
        self.drop_ascii(ending);
        Ok(Some(line))
    }

    // The length of the first line, and that of its line ending, which is 0 at the end.
    fn first_line(&self) -> (u64, u64)
        requires some { 0 < length self.now.bytes }
        ensures line { TakesLine self.now.bytes (take result.0 self.now.bytes)
            (drop (result.0 + result.1) self.now.bytes) }
        ensures within { result.0 + result.1 ≤ length self.now.bytes }
        ensures valid { IsUtf8 (take result.0 self.now.bytes) }
        ensures ascii { (k : ℕ) → result.0 ≤ k → k < result.0 + result.1 → slice_index self.now.bytes k < 128 }
        ensures some { 0 < result.0 + result.1 }
    {
        let Some(at) = self.find_byte(b'\n') else {
            return (self.total, 0);
        };
        if self.follows_cr(at) {
            return (at - 1, 2);
        }
        (at, 1)
    }

    // Whether the byte before an offset is a CR.
    fn follows_cr(&self, at: u64) -> bool
        requires { at ≤ length self.now.bytes }
        ensures { IsTrue result ↔ ((0 < at) × (slice_index self.now.bytes (at - 1) ≡ 13)) }
    {
        at > 0 && self.rest_at(at - 1)[0] == b'\r'
    }

    // Removes the first `count` bytes, which are ASCII.
    fn drop_ascii(&mut self, count: u64)
        requires within { count ≤ length self.old.bytes }
        requires ascii { (k : ℕ) → k < count → slice_index self.old.bytes k < 128 }
        ensures bytes { self.new.bytes ≡ drop count self.old.bytes }
        ensures pieces { DropsFront self.old.pieces self.new.pieces }
    {
        for _ in 0..count {
            self.pop_front_char();
        }
    }
}

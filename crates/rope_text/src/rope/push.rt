//! Pushes onto ropes.
ghost use Rattle.std.specs.Prelude.{◌≡◌, ◌+◌, ◌%◌, ◌^◌, ◌≤◌, ◌<◌, ◌++◌, length, map, IfErr, IsOk};
ghost use Rattle.std.specs.VecDeque.{deque_capacity, deque_len};
ghost use Rattle.rope_text.specs.Growth.{Grows, without_back};
ghost use Rattle.tendril_text.specs.TextLists.{unless_empty};

use crate::rope::Rope;
use std::collections::VecDeque;
use tendril_text::block::Refusal;
use tendril_text::fmt::UTF8;
use tendril_text::{Atomicity, Tendril};

impl<A: Atomicity> Rope<A> {
    /// Appends a text as a piece, without copying it. An empty text adds no piece.
    ///
    /// Returns the text with `TooLong` if the rope would have more than 18446744073709551615 bytes, or with `Memory` if
    /// an allocation fails; then nothing has changed. Takes amortized constant time.
    ///
    /// ```
    /// let mut rope = Rope::new(alloc);
    /// rope.push_tendril(StrTendril::from_slice(alloc, "one")?)?;
    /// assert_eq!(rt; rope.len64(), 3);
    /// ```
    pub fn push_tendril(
        &mut self,
        text: Tendril<UTF8, A>,
    ) -> Result<(), (Refusal, Tendril<UTF8, A>)>
        ensures grows { Grows text.bytes (unless_empty text) self.old (without_back result) self.new }
        ensures back { IfErr result (λ e. e.1 ≡ text) }
    {
        let len = text.as_byte_slice().len() as u64;
        let Some(total) = self.total.checked_add(len) else {
            return Err((Refusal::TooLong, text));
        };
        if len == 0 {
            return Ok(());
        }
        if self.ends.reserve(1).is_err() {
            return Err((Refusal::Memory, text));
        }
        match self.pieces.push_back(text) {
            Ok(()) => {
                self.ends.push_back_reserved(self.start.wrapping_add(total));
                self.total = total;
                Ok(())
            }
            Err(failed) => Err((Refusal::Memory, failed.value)),
        }
    }

    /// Appends the pieces of another rope, without copying their bytes.
    ///
    /// Returns the other rope with `TooLong` if this one would have more than 18446744073709551615 bytes, or with
    /// `Memory` if an allocation fails; then nothing has changed. Takes amortized constant time for each piece of the
    /// other rope.
    ///
    /// ```
    /// let mut rope = Rope::new(alloc);
    /// let mut other = Rope::new(alloc);
    /// other.push_tendril(StrTendril::from_slice(alloc, "one")?)?;
    /// let is_appended = rope.append(other).is_ok();
    /// assert_eq!(rt; is_appended, true);
    /// assert_eq!(rt; rope.len64(), 3);
    /// ```
    pub fn append(&mut self, mut rope: Rope<A>) -> Result<(), (Refusal, Rope<A>)>
        ensures grows { Grows rope.bytes rope.pieces self.old (without_back result) self.new }
        ensures back { IfErr result (λ e. e.1 ≡ rope) }
    {
        let Some(total) = self.total.checked_add(rope.total) else {
            return Err((Refusal::TooLong, rope));
        };
        if self.ends.reserve(rope.ends.len()).is_err() {
            return Err((Refusal::Memory, rope));
        }
        match self.pieces.append(&mut rope.pieces) {
            Ok(()) => {
                let end = self.start.wrapping_add(self.total);
                push_ends(&mut self.ends, &rope.ends, end.wrapping_sub(rope.start));
                self.total = total;
                Ok(())
            }
            Err(_) => Err((Refusal::Memory, rope)),
        }
    }
}

// Appends ends to others, which have the spare capacity for them, each increased by `by`.
fn push_ends(ends: &mut VecDeque<u64>, more: &VecDeque<u64>, by: u64)
    requires { deque_len ends.old + deque_len more.now ≤ deque_capacity ends.old }
    ensures { ends.new.items ≡ ends.old.items ++ map (λ e. (e + by) % 2 ^ 64) more.now.items }
{
    for index in 0..more.len() {
        ends.push_back_reserved(more[index].wrapping_add(by));
    }
}

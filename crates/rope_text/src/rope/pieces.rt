//! The pieces of ropes.
ghost use Rattle.std.specs.Prelude.{◌≡◌, ◌<◌, length, All};
ghost use Rattle.std.specs.Iterator.Runs.{YieldsRefsInOrder};
ghost use Rattle.std.specs.VecDeque.Iter.{deque_iter_steps, deque_iter_rest};
ghost use Rattle.rope_text.specs.Ropes.{IsPiece, piece_at};
ghost use Rattle.tendril_text.specs.TextLists.{bytes_of_all};
ghost use Rattle.tendril_text.specs.Texts.{Text};

use crate::rope::Rope;
use std::collections::vec_deque::Iter;
use tendril_text::fmt::UTF8;
use tendril_text::{Atomicity, Tendril};

impl<A: Atomicity> Rope<A> {
    /// Returns the number of pieces.
    ///
    /// ```
    /// let mut rope = Rope::new(alloc);
    /// rope.push_tendril(StrTendril::from_slice(alloc, "one")?)?;
    /// rope.push_tendril(StrTendril::from_slice(alloc, "two")?)?;
    /// assert_eq!(rt; rope.piece_count(), 2);
    /// ```
    pub fn piece_count(&self) -> usize
        ensures { result ≡ length self.now.pieces }
    {
        self.pieces.len()
    }

    /// Borrows the piece of an index, which the caller proves to be less than `piece_count`.
    ///
    /// ```
    /// let mut rope = Rope::new(alloc);
    /// rope.push_tendril(StrTendril::from_slice(alloc, "one")?)?;
    /// assert_eq!(rt; rope.piece(0).as_str(), "one");
    /// ```
    pub fn piece(&self, index: usize) -> &Tendril<UTF8, A>
        requires { index < length self.now.pieces }
        ensures { result.now ≡ piece_at self.now.pieces index }
    {
        &self.pieces[index]
    }

    /// Returns an iterator of the pieces, in order: to write a rope without copying it.
    ///
    /// ```
    /// let mut rope = Rope::new(alloc);
    /// rope.push_tendril(StrTendril::from_slice(alloc, "one")?)?;
    /// assert_eq!(rt; rope.pieces().next().is_some_and(|piece| piece.eq_str("one")), true);
    /// ```
    pub fn pieces(&self) -> Iter<'_, Tendril<UTF8, A>>
        ensures bytes { bytes_of_all self.now.pieces ≡ self.now.bytes }
        ensures each { All IsPiece self.now.pieces }
        ensures rest { deque_iter_rest result ≡ self.now.pieces }
        ensures runs { YieldsRefsInOrder (deque_iter_steps {X = Text}) deque_iter_rest }
    {
        self.pieces.iter()
    }
}

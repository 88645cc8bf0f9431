//! Splits of ropes.
ghost use Rattle.std.specs.Prelude.{◌≡◌, ◌<◌, ◌≤◌, ◌+◌, ◌↔◌, [], length, take, drop, IsTrue, IsUtf8};
ghost use Rattle.std.specs.Str.{IsCharBoundary};
ghost use Rattle.std.specs.VecDeque.{deque_capacity, deque_len};
ghost use Rattle.tendril_errors.specs.Outcomes.{NoneMust, Outcome};
ghost use Rattle.rope_text.specs.Ropes.{piece_at};
ghost use Rattle.rope_text.specs.Splits.{IsCutAt, SplitMay, SplitsOff};
ghost use Rattle.tendril_text.specs.Parts.{Slices};
ghost use Rattle.tendril_text.specs.TextLists.{bytes_of_all};

use crate::rope::Rope;
use std::alloc::Global;
use std::collections::VecDeque;
use tendril_text::block::Refusal;
use tendril_text::fmt::UTF8;
use tendril_text::{Atomicity, StrTendril, SubtendrilError, Tendril};

impl<A: Atomicity> Rope<A> {
    /// Whether the offset is 0, the end, or where a character begins: where `sub_rope` and `try_split_to` may cut.
    ///
    /// Takes logarithmic time to find the piece, and allocates nothing.
    ///
    /// ```
    /// let mut rope = Rope::new(alloc);
    /// rope.push_tendril(StrTendril::from_slice(alloc, "aé")?)?;
    /// assert_eq!(rt; rope.is_char_boundary(1), true);
    /// assert_eq!(rt; rope.is_char_boundary(2), false);
    /// ```
    pub fn is_char_boundary(&self, at: u64) -> bool
        ensures test { IsTrue result ↔ IsCharBoundary self.now.bytes at }
        ensures cut { IsTrue result ↔ ((at ≤ length self.now.bytes) × IsUtf8 (take at self.now.bytes)) }
        ensures valid { IsUtf8 self.now.bytes }
    {
        if at > self.total {
            return false;
        }
        let (whole, within) = self.place_of_cut(at);
        self.is_cut(whole, within)
    }

    /// Removes the first `count` bytes and returns them as a rope, if they are there and UTF-8.
    ///
    /// Returns `OutOfBounds` if the rope has fewer, else `ValidationFailed` if the split cuts a character, else
    /// `Memory` if an allocation fails, or `Count` if the block of the piece that is cut has as many references as it
    /// can have; then nothing has changed. Whole pieces move; a piece of more than 8 bytes that is cut is shared. Takes
    /// logarithmic time to find the last piece, and constant time for each piece that moves.
    ///
    /// ```
    /// let mut rope = Rope::new(alloc);
    /// rope.push_tendril(StrTendril::from_slice(alloc, "one, two")?)?;
    /// assert_eq!(rt; rope.try_split_to(5)?.to_tendril()?.as_str(), "one, ");
    /// assert_eq!(rt; rope.to_tendril()?.as_str(), "two");
    /// ```
    pub fn try_split_to(&mut self, count: u64) -> Result<Self, Refusal>
        ensures { SplitsOff count self.old result self.new }
    {
        if count > self.total {
            return Err(Refusal::OutOfBounds);
        }
        if count == 0 {
            return Ok(Rope::new(*self.pieces.allocator()));
        }
        let (whole, within) = self.place_of_cut(count);
        if !self.is_cut(whole, within) {
            return Err(Refusal::ValidationFailed);
        }
        self.split_to(whole, within, count)
    }

    // Removes the first `count` bytes, up to a character boundary: `whole` pieces, and `within` bytes of the next.
    fn split_to(&mut self, whole: usize, within: u32, count: u64) -> Result<Self, Refusal>
        requires some { 0 < count }
        requires there { count ≤ length self.old.bytes }
        requires cut { IsCharBoundary self.old.bytes count }
        requires piece { whole ≤ length self.old.pieces }
        requires next { 0 < within → whole < length self.old.pieces }
        requires within { 0 < within → within < length (piece_at self.old.pieces whole).bytes }
        requires place { length (bytes_of_all (take whole self.old.pieces)) + within ≡ count }
        ensures { Outcome NoneMust (SplitMay self.old.pieces count) (λ front rest. IsCutAt count self.old front rest)
            self.old result self.new }
    {
        let alloc = *self.pieces.allocator();
        let part = match front_at(alloc, &self.pieces, whole, within) {
            Ok(part) => part,
            Err(error) => return Err(Refusal::from(error)),
        };
        let Ok(mut pieces) = VecDeque::with_capacity(alloc, whole + 1) else {
            return Err(Refusal::Memory);
        };
        let Ok(mut ends) = VecDeque::with_capacity(alloc, whole + 1) else {
            return Err(Refusal::Memory);
        };
        move_front(&mut self.pieces, &mut pieces, whole);
        move_front(&mut self.ends, &mut ends, whole);
        let start = self.start;
        self.start = start.wrapping_add(count);
        self.total -= count;
        if within > 0 {
            pieces.push_back_reserved(part);
            ends.push_back_reserved(self.start);
            self.pieces[0].pop_front(within);
            return Ok(Rope {
                pieces,
                ends,
                start,
                total: count,
            });
        }
        Ok(Rope {
            pieces,
            ends,
            start,
            total: count,
        })
    }

    // How many pieces end at or before an offset, and how many bytes of the next are before it.
    fn place_of_cut(&self, at: u64) -> (usize, u32)
        requires { at ≤ length self.now.bytes }
        ensures piece { result.0 ≤ length self.now.pieces }
        ensures next { 0 < result.1 → result.0 < length self.now.pieces }
        ensures within { 0 < result.1 → result.1 < length (piece_at self.now.pieces result.0).bytes }
        ensures place { length (bytes_of_all (take result.0 self.now.pieces)) + result.1 ≡ at }
    {
        if at == self.total {
            return (self.pieces.len(), 0);
        }
        self.locate(at)
    }
}

// The first bytes of the piece of an index, or no bytes after the last piece.
fn front_at<A: Atomicity>(
    alloc: Global,
    pieces: &VecDeque<Tendril<UTF8, A>>,
    index: usize,
    count: u32,
) -> Result<Tendril<UTF8, A>, SubtendrilError>
    requires within { count ≤ length (piece_at pieces.now.items index).bytes }
    requires valid { IsUtf8 (take count (piece_at pieces.now.items index).bytes) }
    ensures { Slices (piece_at pieces.now.items index).bytes 0 count result }
{
    match pieces.get(index) {
        Some(piece) => piece.subtendril(0, count),
        None => Ok(Tendril::new(alloc)),
    }
}

// Moves the first `count` items of a list to an empty one, which has the capacity for them.
fn move_front<T>(from: &mut VecDeque<T>, to: &mut VecDeque<T>, count: usize)
    requires there { count ≤ deque_len from.old }
    requires room { count ≤ deque_capacity to.old }
    requires empty { to.old.items ≡ [] }
    requires no_len { deque_len to.old ≡ 0 }
    ensures moved { to.new.items ≡ take count from.old.items }
    ensures left { from.new.items ≡ drop count from.old.items }
    ensures len { deque_len to.new ≡ count }
    ensures capacity { deque_capacity to.new ≡ deque_capacity to.old }
{
    for _ in 0..count {
        match from.pop_front() {
            Some(item) => to.push_back_reserved(item),
            None => unreachable!(),
        }
    }
}

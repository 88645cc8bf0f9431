//! Slices and clones of ropes, which share the bytes of the rope's pieces.
ghost use Rattle.std.specs.Prelude.{◌≡◌, ◌≤◌, ◌<◌, ◌+◌, length, min, take, drop, All, IsUtf8};
ghost use Rattle.tendril_errors.specs.Outcomes.{Gives, NoneMust};
ghost use Rattle.rope_text.specs.Parts.{IsCloneOf, PartMay, SubRope, SharesPart};
ghost use Rattle.rope_text.specs.Ropes.{piece_at, IsPiece};
ghost use Rattle.tendril_text.specs.TextLists.{bytes_of_all};

use crate::rope::Rope;
use std::collections::VecDeque;
use tendril_text::block::Refusal;
use tendril_text::fmt::UTF8;
use tendril_text::{Atomicity, Tendril};

impl<A: Atomicity> Rope<A> {
    /// Returns a rope of the `count` bytes from `offset` on, if they are there and UTF-8.
    ///
    /// Returns `OutOfBounds` if the rope ends before, else `ValidationFailed` if the slice cuts a character, else
    /// `Memory` if an allocation fails, or `Count` if a block has as many references as it can have. Pieces of more
    /// than 8 bytes are shared. Takes logarithmic time to find the first and the last piece, and constant time for each
    /// piece of the result.
    ///
    /// ```
    /// let mut rope = Rope::new(alloc);
    /// rope.push_tendril(StrTendril::from_slice(alloc, "one, ")?)?;
    /// rope.push_tendril(StrTendril::from_slice(alloc, "two")?)?;
    /// assert_eq!(rt; rope.sub_rope(3, 4)?.to_tendril()?.as_str(), ", tw");
    /// ```
    pub fn sub_rope(&self, offset: u64, count: u64) -> Result<Self, Refusal>
        ensures { SubRope self.now offset count result }
    {
        if offset > self.total || count > self.total - offset {
            return Err(Refusal::OutOfBounds);
        }
        if count == 0 {
            return Ok(Rope::new(*self.pieces.allocator()));
        }
        let (first, from) = self.locate(offset);
        if !self.is_cut(first, from) {
            return Err(Refusal::ValidationFailed);
        }
        let (last, to) = self.locate_from(first, offset + (count - 1));
        if !self.is_cut(last, to + 1) {
            return Err(Refusal::ValidationFailed);
        }
        share(&self.pieces, first, from, count, last + 1 - first)
    }

    /// Returns another rope with the same pieces, which share their bytes.
    ///
    /// Returns `Memory` if an allocation fails, or `Count` if a block has as many references as it can have. Takes
    /// constant time for each piece.
    ///
    /// ```
    /// let mut rope = Rope::new(alloc);
    /// rope.push_tendril(StrTendril::from_slice(alloc, "one")?)?;
    /// assert_eq!(rt; rope.clone()? == rope, true);
    /// ```
    pub fn clone(&self) -> Result<Self, Refusal>
        ensures { Gives NoneMust (PartMay self.now.pieces 0 (length self.now.bytes)) (IsCloneOf self.now) result }
    {
        self.sub_rope(0, self.total)
    }
}

// Returns a rope of the `count` bytes from an offset in a piece on, which are there and UTF-8. It allocates once for
// `room` pieces.
fn share<A: Atomicity>(
    pieces: &VecDeque<Tendril<UTF8, A>>,
    first: usize,
    from: u32,
    count: u64,
    room: usize,
) -> Result<Rope<A>, Refusal>
    requires some { 0 < count }
    requires each { All IsPiece pieces.now.items }
    requires inside { from < length (piece_at pieces.now.items first).bytes }
    requires within { from + count ≤ length (bytes_of_all (drop first pieces.now.items)) }
    requires valid { IsUtf8 (take count (drop from (bytes_of_all (drop first pieces.now.items)))) }
    ensures { SharesPart pieces.now.items first from count result }
{
    let mut rope = Rope::with_capacity(*pieces.allocator(), room)?;
    let mut index = first;
    let mut at = from;
    let mut left = count;
    while left > 0 {
        let piece = &pieces[index];
        let here = smaller(left, (piece.len32() - at) as u64);
        let part = match piece.subtendril(at, here as u32) {
            Ok(part) => part,
            Err(error) => return Err(Refusal::from(error)),
        };
        if let Err((refusal, _)) = rope.push_tendril(part) {
            return Err(refusal);
        }
        left -= here;
        at = 0;
        index += 1;
    }
    Ok(rope)
}

fn smaller(a: u64, b: u64) -> u64
    ensures { result ≡ min a b }
{
    if a < b { a } else { b }
}

//! The search for the piece that has the byte at an offset, by the ends of the pieces.
ghost use Rattle.std.specs.Prelude.{◌≡◌, ◌<◌, ◌≤◌, ◌+◌, ◌*◌, ◌^◌, ◌↔◌, length, take, drop, IsTrue};
ghost use Rattle.std.specs.Str.{IsCharBoundary};
ghost use Rattle.rope_text.specs.Ropes.{piece_at};
ghost use Rattle.tendril_text.specs.TextLists.{bytes_of_all};

use crate::rope::Rope;
use tendril_text::Atomicity;
use tendril_text::block::MAX_LEN;

impl<A: Atomicity> Rope<A> {
    // The offset where a piece ends.
    fn end_of(&self, index: usize) -> u64
        requires { index < length self.now.pieces }
        ensures { result ≡ length (bytes_of_all (take (index + 1) self.now.pieces)) }
    {
        self.ends[index].wrapping_sub(self.start)
    }

    // The offset where a piece begins, or where the last one ends.
    pub(super) fn start_of(&self, index: usize) -> u64
        requires { index ≤ length self.now.pieces }
        ensures { result ≡ length (bytes_of_all (take index self.now.pieces)) }
    {
        if index == 0 {
            0
        } else {
            self.end_of(index - 1)
        }
    }

    // How many of three ends, each `step` pieces after the one before, are at most the offset. All are read before any
    // is compared, so that the reads overlap.
    fn passed(&self, low: usize, step: usize, at: u64) -> usize
        requires step { 0 < step }
        requires there { low + 3 * step ≤ length self.now.pieces }
        requires fits { low + 3 * step < 2 ^ 64 }
        requires start { length (bytes_of_all (take low self.now.pieces)) ≤ at }
        ensures most { result ≤ 3 }
        ensures start { length (bytes_of_all (take (low + result * step) self.now.pieces)) ≤ at }
        ensures end { result < 3 → at < length (bytes_of_all (take (low + (result + 1) * step) self.now.pieces)) }
    {
        let first = self.end_of(low + step - 1);
        let second = self.end_of(low + 2 * step - 1);
        let third = self.end_of(low + 3 * step - 1);
        (first <= at) as usize + (second <= at) as usize + (third <= at) as usize
    }

    // The index of a piece that begins no later than an offset, and that has this byte or is one of the two pieces
    // before the one that does. Each iteration leaves about a quarter of the pieces.
    fn near(&self, first: usize, at: u64) -> usize
        requires within { at < length self.now.bytes }
        requires start { length (bytes_of_all (take first self.now.pieces)) ≤ at }
        ensures start { length (bytes_of_all (take result self.now.pieces)) ≤ at }
        ensures end { at < length (bytes_of_all (take (result + 3) self.now.pieces)) }
    {
        let mut low = first;
        let mut count = self.pieces.len() - first;
        while count > 3 {
            let quarter = count / 4;
            low += self.passed(low, quarter, at) * quarter;
            count -= 3 * quarter;
        }
        low
    }

    // The index of the piece that has the byte at an offset, by a linear search from a piece on.
    fn next_with(&self, from: usize, at: u64) -> usize
        requires within { at < length self.now.bytes }
        requires start { length (bytes_of_all (take from self.now.pieces)) ≤ at }
        ensures piece { result < length self.now.pieces }
        ensures start { length (bytes_of_all (take result self.now.pieces)) ≤ at }
        ensures end { at < length (bytes_of_all (take (result + 1) self.now.pieces)) }
    {
        prove!(from < self.pieces.len());
        let mut index = from;
        while self.end_of(index) <= at {
            index += 1;
        }
        index
    }

    // The index of the piece that has the byte at an offset, from a piece on. Most often it is that one or the next.
    fn piece_with(&self, first: usize, at: u64) -> usize
        requires within { at < length self.now.bytes }
        requires start { length (bytes_of_all (take first self.now.pieces)) ≤ at }
        ensures piece { result < length self.now.pieces }
        ensures start { length (bytes_of_all (take result self.now.pieces)) ≤ at }
        ensures end { at < length (bytes_of_all (take (result + 1) self.now.pieces)) }
        ensures short { length (piece_at self.now.pieces result).bytes ≤ MAX_LEN }
    {
        prove!(first < self.pieces.len());
        if at < self.end_of(first) {
            first
        } else if at < self.end_of(first + 1) {
            first + 1
        } else {
            self.next_with(self.near(first + 2, at), at)
        }
    }

    // The index of the piece that has the byte at an offset, and the byte's offset in the piece.
    pub(super) fn locate(&self, at: u64) -> (usize, u32)
        requires { at < length self.now.bytes }
        ensures piece { result.0 < length self.now.pieces }
        ensures within { result.1 < length (piece_at self.now.pieces result.0).bytes }
        ensures place { length (bytes_of_all (take result.0 self.now.pieces)) + result.1 ≡ at }
    {
        self.locate_from(0, at)
    }

    // Returns what `locate` does, if the piece isn't before `first`.
    pub(super) fn locate_from(&self, first: usize, at: u64) -> (usize, u32)
        requires within { at < length self.now.bytes }
        requires start { length (bytes_of_all (take first self.now.pieces)) ≤ at }
        ensures piece { result.0 < length self.now.pieces }
        ensures within { result.1 < length (piece_at self.now.pieces result.0).bytes }
        ensures place { length (bytes_of_all (take result.0 self.now.pieces)) + result.1 ≡ at }
    {
        let index = self.piece_with(first, at);
        (index, (at - self.start_of(index)) as u32)
    }

    // Whether there is a character boundary after `count` bytes of a piece.
    pub(super) fn is_cut(&self, index: usize, count: u32) -> bool
        requires piece { 0 < count → index < length self.now.pieces }
        requires within { count ≤ length (piece_at self.now.pieces index).bytes }
        ensures { IsTrue result
            ↔ IsCharBoundary self.now.bytes (length (bytes_of_all (take index self.now.pieces)) + count) }
    {
        count == 0 || self.pieces[index].as_str().is_char_boundary(count as usize)
    }

    // The bytes from an offset to the end of the piece that has it.
    pub(super) fn rest_at(&self, at: u64) -> &[u8]
        requires { at < length self.now.bytes }
        ensures some { 0 < length result.now }
        ensures within { at + length result.now ≤ length self.now.bytes }
        ensures bytes { result.now ≡ take (length result.now) (drop at self.now.bytes) }
    {
        let (index, within) = self.locate(at);
        &self.pieces[index].as_byte_slice()[within as usize..]
    }
}

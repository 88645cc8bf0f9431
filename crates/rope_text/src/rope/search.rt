//! Searches for bytes in a rope, and the bytes before the one that is found.
ghost use Rattle.std.specs.Prelude.{◌≡◌, ◌<◌, ◌++◌, length, take, IsUtf8, IfSome, IfNone, OnSome, IfOk, IfErr, OnErr};
ghost use Rattle.std.specs.Str.{IsCharBoundary};
ghost use Rattle.memchr.specs.Find.{IsFirstByte, is_byte};
ghost use Rattle.rope_text.specs.Fronts.{CutsBefore, CutBeforeMay};
ghost use Rattle.tendril_fmt.specs.Sets.{has_byte, BeginsWithOne, EndsBefore};

use crate::rope::Rope;
use tendril_text::block::Refusal;
use tendril_text::{Atomicity, ByteSet};

impl<A: Atomicity> Rope<A> {
    /// Returns the offset of the first byte that equals `byte`, or `None` if there is none.
    ///
    /// Takes one pass up to it, by `memchr` in each piece, and allocates nothing. If `byte` is ASCII, the rope may be
    /// cut there.
    ///
    /// ```
    /// let mut rope = Rope::new(alloc);
    /// rope.push_tendril(StrTendril::from_slice(alloc, "key")?)?;
    /// rope.push_tendril(StrTendril::from_slice(alloc, "=value")?)?;
    /// assert_eq!(rt; rope.find_byte(b'='), Some(3));
    /// ```
    pub fn find_byte(&self, byte: u8) -> Option<u64>
        ensures first { IsFirstByte (is_byte byte) self.now.bytes result }
        ensures cut { byte < 128 → IfSome result (IsCharBoundary self.now.bytes) }
    {
        for index in 0..self.pieces.len() {
            if let Some(at) = self.pieces[index].find_byte(byte) {
                return Some(self.start_of(index) + at as u64);
            }
        }
        None
    }

    /// Returns the offset of the first byte that is in the set, or `None` if there is none.
    ///
    /// Takes one pass up to it, in each piece as `find_any` of a text, and allocates nothing. The rope may be cut
    /// there.
    ///
    /// ```
    /// let mut rope = Rope::new(alloc);
    /// rope.push_tendril(StrTendril::from_slice(alloc, "a < b")?)?;
    /// rope.push_tendril(StrTendril::from_slice(alloc, " & c")?)?;
    /// assert_eq!(rt; rope.find_any(&ByteSet::new(b"&")), Some(6));
    /// ```
    pub fn find_any(&self, set: &ByteSet) -> Option<u64>
        ensures first { IsFirstByte (has_byte set.now) self.now.bytes result }
        ensures cut { IfSome result (IsCharBoundary self.now.bytes) }
    {
        for index in 0..self.pieces.len() {
            if let Some(at) = self.pieces[index].find_any(set) {
                return Some(self.start_of(index) + at as u64);
            }
        }
        None
    }

    /// Removes the bytes before the first one that is in the set, or all bytes if none is, and returns them as a rope;
    /// returns `None` if the rope is empty or begins with a byte of the set.
    ///
    /// Returns `Memory` or `Count` where `try_split_to` does; then nothing has changed. Takes one pass as `find_any`,
    /// and then what `try_split_to` takes.
    ///
    /// ```
    /// let mut rope = Rope::new(alloc);
    /// rope.push_tendril(StrTendril::from_slice(alloc, "one, two")?)?;
    /// let Some(word) = rope.pop_front_until(&ByteSet::new(b","))? else { return Ok(()) };
    /// assert_eq!(rt; word.to_tendril()?.as_str(), "one");
    /// assert_eq!(rt; rope.to_tendril()?.as_str(), ", two");
    /// ```
    pub fn pop_front_until(&mut self, set: &ByteSet) -> Result<Option<Self>, Refusal>
        ensures front { IfOk result (λ found. IfSome found
            (λ front. CutsBefore (has_byte set.now) self.old front self.new)) }
        ensures joined { IfOk result (λ found. IfSome found (λ front. self.old.bytes ≡ front.bytes ++ self.new.bytes)) }
        ensures shorter { IfOk result (λ found. OnSome found (length self.new.bytes < length self.old.bytes)) }
        ensures none { IfOk result (λ found. IfNone found
            (BeginsWithOne (has_byte set.now) self.old.bytes × (self.new ≡ self.old))) }
        ensures refusal { IfErr result (CutBeforeMay (has_byte set.now) self.old) }
        ensures err { OnErr result (self.new ≡ self.old) }
    {
        let count = self.front_end(set);
        if count == 0 {
            return Ok(None);
        }
        let front = self.try_split_to(count)?;
        Ok(Some(front))
    }

    // The offset of the first byte that is in the set, or the end.
    fn front_end(&self, set: &ByteSet) -> u64
        ensures ends { EndsBefore (has_byte set.now) self.now.bytes result }
        ensures valid { IsUtf8 (take result self.now.bytes) }
    {
        match self.find_any(set) {
            Some(at) => at,
            None => self.total,
        }
    }
}

//! Searching for bytes in a text, and removing what is before them; testing for a prefix, and removing it.
//!
//! Make a `ByteSet` once: as a constant if it has one to four bytes, else outside the loop.
ghost use Rattle.std.specs.Prelude.{◌≡◌, ◌<◌, ◌↔◌, ◌++◌, [], length, IfSome, IfNone, IfOk, OnErr, OnSome, IsTrue};
ghost use Rattle.std.specs.Prelude.{IsFalse, IfErr};
ghost use Rattle.memchr.specs.Find.{IsFirstByte, is_byte};
ghost use Rattle.tendril_fmt.specs.Parts.{IsFrontOf};
ghost use Rattle.tendril_storage.specs.Texts.{PopCost};
ghost use Rattle.tendril_fmt.specs.Cuts.{EndsFirstLine, LacksFeed};
ghost use Rattle.tendril_text.specs.Search.{PartsBefore, HasLongPartBefore, TakesPart, part_bytes};
ghost use Rattle.tendril_fmt.specs.Sets.{has_byte, BeginsWithOne, IsTable};

use crate::tendril::Tendril;
use memchr::memchr;
use std::fmt::{self, Debug, Formatter, Write};
use tendril_block::{Atomicity, NonAtomic, Refusal};
use tendril_fmt::cuts::{ByteSet, begins_with, first_part};
use tendril_fmt::fmt::{CharFormat, CutsAtAscii, Format, UTF8};

impl<F: Format, A: Atomicity> Tendril<F, A> {
    /// Returns the offset of the first byte that is in the set, or `None` if there is none.
    ///
    /// Takes one pass up to that byte, 16 bytes at a time for a set of up to four. Allocates nothing.
    ///
    /// ```
    /// const MARKUP: ByteSet = ByteSet { members: Members::Two(b'<', b'&') };
    /// let text = StrTendril::from_slice(alloc, "a < b & c")?;
    /// assert_eq!(rt; text.find_any(&MARKUP), Some(2));
    /// ```
    pub fn find_any(&self, set: &ByteSet) -> Option<u32>
        ensures first { IsFirstByte (has_byte set.now) self.now.bytes result }
        ensures table { IsTable set.now }
    {
        let place = set.find_in(self.as_byte_slice())?;
        Some(place as u32)
    }

    /// Returns the offset of the first byte that equals `byte`, or `None` if there is none. Takes one pass up to it, by
    /// `memchr`.
    ///
    /// ```
    /// let text = StrTendril::from_slice(alloc, "key=value")?;
    /// assert_eq!(rt; text.find_byte(b'='), Some(3));
    /// ```
    pub fn find_byte(&self, byte: u8) -> Option<u32>
        ensures { IsFirstByte (is_byte byte) self.now.bytes result }
    {
        let place = memchr(byte, self.as_byte_slice())?;
        Some(place as u32)
    }
}

/// What `pop_except_from` removed from the start of a text.
#[derive(Drop)]
pub enum SetResult<F: Format, A: Atomicity = NonAtomic> {
    /// A character of the set, which the text began with.
    FromSet(char),
    /// The characters before the first one of the set: at least one.
    NotFromSet(Tendril<F, A>),
}

impl<F: Format, A: Atomicity> Debug for SetResult<F, A>
where
    Tendril<F, A>: Debug,
{
    fn fmt<W: Write>(&self, f: &mut Formatter<W>) -> fmt::Result {
        match self {
            SetResult::FromSet(character) => f.debug_tuple("FromSet").field(character).finish(),
            SetResult::NotFromSet(front) => f.debug_tuple("NotFromSet").field(front).finish(),
        }
    }
}

impl<F: CutsAtAscii, A: Atomicity> Tendril<F, A> {
    /// Removes the bytes before the first one that is in the set, or all bytes if none is, and returns them; returns
    /// `None` if the text is empty or begins with a byte of the set.
    ///
    /// Returns `Count` if both sides have more than 8 bytes and the block as many references as it can have; then
    /// nothing has changed. Takes one pass, as `find_any` does. Allocates nothing: sides of more than 8 bytes keep
    /// sharing the block.
    ///
    /// ```
    /// const COMMA: ByteSet = ByteSet { members: Members::One(b',') };
    /// let mut text = StrTendril::from_slice(alloc, "one, two")?;
    /// let word = text.pop_front_until(&COMMA)?;
    /// assert_eq!(rt; word.is_some_and(|word| word.eq_str("one")), true);
    /// assert_eq!(rt; text.as_str(), ", two");
    /// ```
    pub fn pop_front_until(&mut self, set: &ByteSet) -> Result<Option<Self>, Refusal>
        ensures front { IfOk result (λ found. IfSome found (λ front.
            PartsBefore (has_byte set.now) self.old front self.new)) }
        ensures joined { IfOk result (λ found. IfSome found (λ front. self.old.bytes ≡ front.bytes ++ self.new.bytes)) }
        ensures shorter { IfOk result (λ found. OnSome found (length self.new.bytes < length self.old.bytes)) }
        ensures none { IfOk result (λ found. IfNone found
            (BeginsWithOne (has_byte set.now) self.old.bytes × (self.new ≡ self.old))) }
        ensures refusal { IfErr result (HasLongPartBefore (has_byte set.now) self.old.bytes) }
        ensures err { OnErr result (self.new ≡ self.old) }
    {
        let count = first_part::<F>(self.as_byte_slice(), set).len;
        if count == 0 {
            return Ok(None);
        }
        let front = self.take_front(count as u32)?;
        Ok(Some(front))
    }
}

impl<F: CharFormat + CutsAtAscii, A: Atomicity> Tendril<F, A> {
    /// Removes the text before the first character of the set, or that character if the text begins with it, and
    /// returns it; returns `None` if the text is empty.
    ///
    /// Returns `Count` if `pop_front_until` does; then nothing has changed. Costs what `pop_front_until` and
    /// `pop_front_char` cost.
    ///
    /// ```
    /// const BRACKETS: ByteSet = ByteSet { members: Members::Two(b'<', b'>') };
    /// let mut text = StrTendril::from_slice(alloc, "<p>")?;
    /// assert_eq!(rt; matches!(text.pop_except_from(&BRACKETS)?, Some(SetResult::FromSet('<'))), true);
    /// assert_eq!(rt; matches!(text.pop_except_from(&BRACKETS)?, Some(SetResult::NotFromSet(_))), true);
    /// ```
    pub fn pop_except_from(&mut self, set: &ByteSet) -> Result<Option<SetResult<F, A>>, Refusal>
        ensures part { IfOk result (λ found. IfSome found (λ part.
            TakesPart F.chars F.encoding (has_byte set.now) self.old part self.new)) }
        ensures joined { IfOk result (λ found. IfSome found (λ part.
            self.old.bytes ≡ part_bytes F.encoding part ++ self.new.bytes)) }
        ensures shorter { IfOk result (λ found. OnSome found (length self.new.bytes < length self.old.bytes)) }
        ensures none { IfOk result (λ found. IfNone found ((self.old.bytes ≡ []) × (self.new ≡ self.old))) }
        ensures refusal { IfErr result (HasLongPartBefore (has_byte set.now) self.old.bytes) }
        ensures err { OnErr result (self.new ≡ self.old) }
    {
        if let Some(front) = self.pop_front_until(set)? {
            return Ok(Some(SetResult::NotFromSet(front)));
        }
        match self.pop_front_char() {
            Some(character) => Ok(Some(SetResult::FromSet(character))),
            None => Ok(None),
        }
    }
}

impl<A: Atomicity> Tendril<UTF8, A> {
    /// Whether the text begins with the prefix. One pass over the prefix.
    ///
    /// `str::starts_with` takes a character or a closure too: `text.as_str().starts_with('<')`.
    ///
    /// ```
    /// let text = StrTendril::from_slice(alloc, "<!DOCTYPE html>")?;
    /// assert_eq!(rt; text.starts_with("<!"), true);
    /// ```
    pub fn starts_with(&self, prefix: &str) -> bool
        ensures { IsTrue result ↔ IsFrontOf prefix.now self.now.bytes }
    {
        begins_with(self.as_byte_slice(), prefix)
    }

    /// Removes the prefix if the text begins with it, and returns whether it did. Allocates nothing.
    ///
    /// `str::strip_prefix` changes nothing: it returns what follows the prefix.
    ///
    /// ```
    /// let mut text = StrTendril::from_slice(alloc, "https://example")?;
    /// assert_eq!(rt; text.skip_prefix("https://"), true);
    /// assert_eq!(rt; text.as_str(), "example");
    /// ```
    pub fn skip_prefix(&mut self, prefix: &str) -> bool
        ensures yes { IsTrue result → self.old.bytes ≡ prefix.now ++ self.new.bytes }
        ensures copied { IsTrue result → PopCost self.old self.new }
        ensures no { IsFalse result → IsFrontOf prefix.now self.old.bytes → ⊥ }
        ensures kept { IsFalse result → self.new ≡ self.old }
    {
        let count = prefix.len();
        if !begins_with(self.as_byte_slice(), prefix) {
            return false;
        }
        self.pop_front(count as u32);
        true
    }

    /// Returns the length of the first line with its LF, or `None` if the text has no LF. Takes one pass up to it, by
    /// `memchr`.
    ///
    /// ```
    /// let text = StrTendril::from_slice(alloc, "one\ntwo")?;
    /// assert_eq!(rt; text.first_line_len(), Some(4));
    /// ```
    pub fn first_line_len(&self) -> Option<u32>
        ensures some { IfSome result (EndsFirstLine self.now.bytes) }
        ensures none { IfNone result (LacksFeed self.now.bytes) }
    {
        let at = memchr(b'\n', self.as_byte_slice())?;
        Some(at as u32 + 1)
    }
}

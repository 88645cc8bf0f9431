//! Appending items and collecting them: characters, strings, bytes, slices and other texts.
#![tactic(auto, using(crate::proofs::Taken::appends))]

ghost use Rattle.std.specs.Prelude.{◌++◌, encode_utf8, map};
ghost use Rattle.std.specs.Iterator.{IsFinite, IsFiniteIterable};
ghost use Rattle.tendril_fmt.specs.Chars.{one_byte};
ghost use Rattle.tendril_text.specs.Items.{Extends, Makes, TakesItems, appended, joined};

mod collect;
mod pushable;

use crate::items::pushable::Pushable;
use crate::tendril::Tendril;
use std::alloc::Global;
use tendril_block::{Atomicity, Refusal};
use tendril_fmt::fmt::{Bytes, Format, UTF8};

impl<F: Format, A: Atomicity> Tendril<F, A> {
    /// Appends texts by the format's join, up to the first that returns an error. The texts before it stay appended.
    ///
    /// Returns `TooLong` if the text would have more than 4294967295 bytes with a text, or `Memory` if an allocation
    /// fails. Costs what a `push_tendril` of each text costs. Like all `extend_` and `from_` calls, it ignores the
    /// iterator's size hint.
    ///
    /// ```
    /// let parts = [StrTendril::from_slice(alloc, "a")?, StrTendril::from_slice(alloc, "b")?];
    /// let mut text = StrTendril::new(alloc);
    /// text.extend_tendrils(parts.iter())?;
    /// assert_eq!(rt; text.as_str(), "ab");
    /// ```
    pub fn extend_tendrils<'a, I: IntoIterator<Item = &'a Tendril<F, A>>>(
        &mut self,
        texts: I,
    ) -> Result<(), Refusal>
    where
        F: 'a,
        A: 'a,
        requires { IsFiniteIterable I.into_iter_gives I.IntoIter.can_next I.IntoIter.remaining texts }
        ensures { Extends I.into_iter_gives I.IntoIter.next_gives
            (λ t. t.now.bytes) (joined (λ t. t.now.bytes) F.join) texts self.old self.new result }
    {
        self.extend_with(texts)
    }

    /// Returns a text of other texts, joined in order.
    ///
    /// Returns `TooLong` if it would have more than 4294967295 bytes, or `Memory` if an allocation fails.
    ///
    /// ```
    /// let parts = [StrTendril::from_slice(alloc, "a")?, StrTendril::from_slice(alloc, "b")?];
    /// assert_eq!(rt; StrTendril::from_tendrils(alloc, parts.iter())?.as_str(), "ab");
    /// ```
    pub fn from_tendrils<'a, I: IntoIterator<Item = &'a Tendril<F, A>>>(
        alloc: Global,
        texts: I,
    ) -> Result<Self, Refusal>
    where
        F: 'a,
        A: 'a,
        requires { IsFiniteIterable I.into_iter_gives I.IntoIter.can_next I.IntoIter.remaining texts }
        ensures { Makes I.into_iter_gives I.IntoIter.next_gives
            (λ t. t.now.bytes) (joined (λ t. t.now.bytes) F.join) texts result }
    {
        Self::from_items(alloc, texts)
    }

    fn extend_with<I: IntoIterator>(&mut self, items: I) -> Result<(), Refusal>
    where
        I::Item: Pushable<F, A>,
        requires { IsFiniteIterable I.into_iter_gives I.IntoIter.can_next I.IntoIter.remaining items }
        ensures { Extends I.into_iter_gives I.IntoIter.next_gives
            I.Item.bytes (joined I.Item.bytes F.join) items self.old self.new result }
    {
        self.take_items(&mut items.into_iter())
    }

    // The loop of all `extend_` functions. It borrows the iterator, so that its contract can state the iterator's final
    // state: `next` isn't called after the item whose push failed.
    fn take_items<I: Iterator>(&mut self, source: &mut I) -> Result<(), Refusal>
    where
        I::Item: Pushable<F, A>,
        requires can { I.can_next source.old }
        requires finite { IsFinite (I.remaining source.old) }
        ensures { TakesItems I.next_gives I.Item.bytes (joined I.Item.bytes F.join)
            source.old self.old result self.new source.new }
    {
        while let Some(item) = source.next() {
            item.push_to(self)?;
        }
        Ok(())
    }

    fn from_items<I: IntoIterator>(alloc: Global, items: I) -> Result<Self, Refusal>
    where
        I::Item: Pushable<F, A>,
        requires { IsFiniteIterable I.into_iter_gives I.IntoIter.can_next I.IntoIter.remaining items }
        ensures { Makes I.into_iter_gives I.IntoIter.next_gives I.Item.bytes (joined I.Item.bytes F.join) items result }
    {
        let mut text: Self = Tendril::new(alloc);
        text.extend_with(items)?;
        Ok(text)
    }
}

impl<A: Atomicity> Tendril<UTF8, A> {
    /// Appends characters, up to the first whose push returns an error. The characters before it stay appended.
    ///
    /// Returns `TooLong` if the text would have more than 4294967295 bytes with a character, or `Memory` if an
    /// allocation fails.
    ///
    /// ```
    /// let mut text = StrTendril::from_slice(alloc, "a")?;
    /// text.extend_chars(['b', 'é'])?;
    /// assert_eq!(rt; text.as_str(), "abé");
    /// ```
    pub fn extend_chars<I: IntoIterator<Item = char>>(
        &mut self,
        characters: I,
    ) -> Result<(), Refusal>
        requires { IsFiniteIterable I.into_iter_gives I.IntoIter.can_next I.IntoIter.remaining characters }
        ensures { Extends I.into_iter_gives I.IntoIter.next_gives
            encode_utf8 (appended encode_utf8) characters self.old self.new result }
    {
        self.extend_with(characters)
    }

    /// Returns a text of the characters.
    ///
    /// Returns `TooLong` if it would have more than 4294967295 bytes, or `Memory` if an allocation fails.
    ///
    /// ```
    /// assert_eq!(rt; StrTendril::from_chars(alloc, "abc".chars())?.as_str(), "abc");
    /// ```
    pub fn from_chars<I: IntoIterator<Item = char>>(
        alloc: Global,
        characters: I,
    ) -> Result<Self, Refusal>
        requires { IsFiniteIterable I.into_iter_gives I.IntoIter.can_next I.IntoIter.remaining characters }
        ensures { Makes I.into_iter_gives I.IntoIter.next_gives encode_utf8 (appended encode_utf8) characters result }
    {
        Self::from_items(alloc, characters)
    }

    /// Appends strings, up to the first whose push returns an error. The strings before it stay appended.
    ///
    /// Returns `TooLong` if the text would have more than 4294967295 bytes with a string, or `Memory` if an allocation
    /// fails.
    ///
    /// ```
    /// let mut text = StrTendril::from_slice(alloc, "a")?;
    /// text.extend_strs(["b", "cd"])?;
    /// assert_eq!(rt; text.as_str(), "abcd");
    /// ```
    pub fn extend_strs<'a, I: IntoIterator<Item = &'a str>>(
        &mut self,
        strings: I,
    ) -> Result<(), Refusal>
        requires { IsFiniteIterable I.into_iter_gives I.IntoIter.can_next I.IntoIter.remaining strings }
        ensures { Extends I.into_iter_gives I.IntoIter.next_gives
            (λ s. s.now) (appended (λ s. s.now)) strings self.old self.new result }
    {
        self.extend_with(strings)
    }

    /// Returns a text of the strings, one after another.
    ///
    /// Returns `TooLong` if it would have more than 4294967295 bytes, or `Memory` if an allocation fails.
    ///
    /// ```
    /// assert_eq!(rt; StrTendril::from_strs(alloc, ["ab", "cd"])?.as_str(), "abcd");
    /// ```
    pub fn from_strs<'a, I: IntoIterator<Item = &'a str>>(
        alloc: Global,
        strings: I,
    ) -> Result<Self, Refusal>
        requires { IsFiniteIterable I.into_iter_gives I.IntoIter.can_next I.IntoIter.remaining strings }
        ensures { Makes I.into_iter_gives I.IntoIter.next_gives (λ s. s.now) (appended (λ s. s.now)) strings result }
    {
        Self::from_items(alloc, strings)
    }
}

impl<A: Atomicity> Tendril<Bytes, A> {
    /// Appends bytes from an iterator, up to the first whose push returns an error. The bytes before it stay appended.
    ///
    /// Returns `TooLong` if the text would have more than 4294967295 bytes with a byte, or `Memory` if an allocation
    /// fails. n bytes take O(n) time.
    ///
    /// ```
    /// let mut text = ByteTendril::from_slice(alloc, b"a")?;
    /// text.extend_bytes(b'b'..b'e')?;
    /// assert_eq!(rt; text.as_byte_slice(), b"abcd".as_slice());
    /// ```
    pub fn extend_bytes<I: IntoIterator<Item = u8>>(&mut self, bytes: I) -> Result<(), Refusal>
        requires { IsFiniteIterable I.into_iter_gives I.IntoIter.can_next I.IntoIter.remaining bytes }
        ensures { Extends I.into_iter_gives I.IntoIter.next_gives one_byte ◌++◌ bytes self.old self.new result }
    {
        self.extend_with(bytes)
    }

    /// Returns a text of the bytes from an iterator.
    ///
    /// Returns `TooLong` if it would have more than 4294967295 bytes, or `Memory` if an allocation fails. n bytes take
    /// O(n) time.
    ///
    /// ```
    /// assert_eq!(rt; ByteTendril::from_bytes(alloc, b'a'..b'd')?.as_byte_slice(), b"abc".as_slice());
    /// ```
    pub fn from_bytes<I: IntoIterator<Item = u8>>(alloc: Global, bytes: I) -> Result<Self, Refusal>
        requires { IsFiniteIterable I.into_iter_gives I.IntoIter.can_next I.IntoIter.remaining bytes }
        ensures { Makes I.into_iter_gives I.IntoIter.next_gives one_byte ◌++◌ bytes result }
    {
        Self::from_items(alloc, bytes)
    }

    /// Appends borrowed bytes, up to the first whose push returns an error. The bytes before it stay appended.
    ///
    /// Returns `TooLong` if the text would have more than 4294967295 bytes with a byte, or `Memory` if an allocation
    /// fails. n bytes take O(n) time.
    ///
    /// ```
    /// let mut text = ByteTendril::from_slice(alloc, b"a")?;
    /// text.extend_byte_refs(b"bc".iter())?;
    /// assert_eq!(rt; text.as_byte_slice(), b"abc".as_slice());
    /// ```
    pub fn extend_byte_refs<'a, I: IntoIterator<Item = &'a u8>>(
        &mut self,
        byte_refs: I,
    ) -> Result<(), Refusal>
        requires { IsFiniteIterable I.into_iter_gives I.IntoIter.can_next I.IntoIter.remaining byte_refs }
        ensures { Extends I.into_iter_gives I.IntoIter.next_gives
            (λ x. one_byte x.now) (λ b xs. b ++ map (λ x. x.now) xs) byte_refs self.old self.new result }
    {
        self.extend_with(byte_refs)
    }

    /// Returns a text of borrowed bytes.
    ///
    /// Returns `TooLong` if it would have more than 4294967295 bytes, or `Memory` if an allocation fails. n bytes take
    /// O(n) time.
    ///
    /// ```
    /// assert_eq!(rt; ByteTendril::from_byte_refs(alloc, b"abc".iter())?.as_byte_slice(), b"abc".as_slice());
    /// ```
    pub fn from_byte_refs<'a, I: IntoIterator<Item = &'a u8>>(
        alloc: Global,
        byte_refs: I,
    ) -> Result<Self, Refusal>
        requires { IsFiniteIterable I.into_iter_gives I.IntoIter.can_next I.IntoIter.remaining byte_refs }
        ensures { Makes I.into_iter_gives I.IntoIter.next_gives
            (λ x. one_byte x.now) (λ b xs. b ++ map (λ x. x.now) xs) byte_refs result }
    {
        Self::from_items(alloc, byte_refs)
    }

    /// Appends slices of bytes, up to the first whose push returns an error. The slices before it stay appended.
    ///
    /// Returns `TooLong` if the text would have more than 4294967295 bytes with a slice, or `Memory` if an allocation
    /// fails.
    ///
    /// ```
    /// let mut text = ByteTendril::from_slice(alloc, b"a")?;
    /// text.extend_slices([b"bc".as_slice(), b"d".as_slice()])?;
    /// assert_eq!(rt; text.as_byte_slice(), b"abcd".as_slice());
    /// ```
    pub fn extend_slices<'a, I: IntoIterator<Item = &'a [u8]>>(
        &mut self,
        slices: I,
    ) -> Result<(), Refusal>
        requires { IsFiniteIterable I.into_iter_gives I.IntoIter.can_next I.IntoIter.remaining slices }
        ensures { Extends I.into_iter_gives I.IntoIter.next_gives
            (λ s. s.now) (appended (λ s. s.now)) slices self.old self.new result }
    {
        self.extend_with(slices)
    }

    /// Returns a text of the slices of bytes, one after another.
    ///
    /// Returns `TooLong` if it would have more than 4294967295 bytes, or `Memory` if an allocation fails.
    ///
    /// ```
    /// let text = ByteTendril::from_slices(alloc, [b"ab".as_slice(), b"c".as_slice()])?;
    /// assert_eq!(rt; text.as_byte_slice(), b"abc".as_slice());
    /// ```
    pub fn from_slices<'a, I: IntoIterator<Item = &'a [u8]>>(
        alloc: Global,
        slices: I,
    ) -> Result<Self, Refusal>
        requires { IsFiniteIterable I.into_iter_gives I.IntoIter.can_next I.IntoIter.remaining slices }
        ensures { Makes I.into_iter_gives I.IntoIter.next_gives (λ s. s.now) (appended (λ s. s.now)) slices result }
    {
        Self::from_items(alloc, slices)
    }
}

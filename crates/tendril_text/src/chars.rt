//! Characters at the start and the end of texts, and runs of characters.
ghost use Rattle.std.specs.Prelude.{◌≡◌, ◌<◌, ◌≤◌, ◌++◌, ◌∷◌, [], ℕ, List, length, encode_utf8, IfSome, IfNone, IfOk};
ghost use Rattle.std.specs.Prelude.{IfErr, OnErr, OnSome, IsOk};
ghost use Rattle.tendril_text.specs.Characters.{AsksLongRun, HasLongParts};
ghost use Rattle.tendril_fmt.specs.Runs.{AsksRun, IsRun};
ghost use Rattle.tendril_text.specs.Pushes.{Joins, JoinsChar};
ghost use Rattle.tendril_storage.specs.Texts.{PopCost, SplitCost};

use crate::tendril::Tendril;
use std::alloc::Global;
use tendril_block::{Atomicity, INLINE_LEN, MAX_LEN, Refusal};
use tendril_fmt::cuts::run_end;
use tendril_fmt::fmt::{CharFormat, UTF8};

impl<F: CharFormat, A: Atomicity> Tendril<F, A> {
    /// Returns the first character, or `None` if the text is empty. Changes nothing.
    ///
    /// ```
    /// let text = StrTendril::from_slice(alloc, "éa")?;
    /// assert_eq!(rt; text.peek_front_char(), Some('é'));
    /// ```
    pub fn peek_front_char(&self) -> Option<char>
        ensures character { IfSome result (λ c. (rest : List ℕ) × (F.chars self.now.bytes ≡ c ∷ rest)) }
        ensures none { IfNone result (self.now.bytes ≡ []) }
    {
        let (character, _) = F::first_char(self.as_byte_slice())?;
        Some(character)
    }

    /// Removes the first character and returns it, or returns `None` if the text is empty. Takes constant time and
    /// allocates nothing.
    ///
    /// ```
    /// let mut text = StrTendril::from_slice(alloc, "éa")?;
    /// assert_eq!(rt; text.pop_front_char(), Some('é'));
    /// assert_eq!(rt; text.as_str(), "a");
    /// ```
    pub fn pop_front_char(&mut self) -> Option<char>
        ensures character { IfSome result (λ c. F.chars self.old.bytes ≡ c ∷ F.chars self.new.bytes) }
        ensures bytes { IfSome result (λ c. self.old.bytes ≡ F.encoding c ++ self.new.bytes) }
        ensures copied { OnSome result (PopCost self.old self.new) }
        ensures shorter { OnSome result (length self.new.bytes < length self.old.bytes) }
        ensures none { IfNone result ((self.old.bytes ≡ []) × (self.new ≡ self.old)) }
    {
        let (character, count) = F::first_char(self.as_byte_slice())?;
        self.pop_front(count as u32);
        Some(character)
    }

    /// Removes the longest prefix whose characters are of one class and returns it with that class, or returns `None`
    /// if the text is empty.
    ///
    /// `classify` is called once for each character of the run, in order, and once for the character after it. Returns
    /// `Count` if the run and the remainder both have more than 8 bytes and the block as many references as it can
    /// have; then nothing has changed. Allocates nothing: sides of more than 8 bytes keep sharing the block.
    ///
    /// ```
    /// let mut text = StrTendril::from_slice(alloc, "42 apples")?;
    /// let run = text.pop_front_char_run(|c| c.is_ascii_digit())?;
    /// assert_eq!(rt; run.is_some_and(|(run, is_number)| is_number && run.eq_str("42")), true);
    /// assert_eq!(rt; text.as_str(), " apples");
    /// ```
    pub fn pop_front_char_run<C: FnMut(char) -> R, R: PartialEq + Drop>(
        &mut self,
        mut classify: C,
    ) -> Result<Option<(Self, R)>, Refusal>
        requires { C.IsAlwaysCallable classify }
        ensures run { IfOk result (λ found. IfSome found (λ run.
            IsRun C.step R.eq F.valid F.chars classify run.1 self.old.bytes run.0.bytes self.new.bytes)) }
        ensures joined { IfOk result (λ found. IfSome found (λ run. self.old.bytes ≡ run.0.bytes ++ self.new.bytes)) }
        ensures copied { IfOk result (λ found. IfSome found (λ run. SplitCost self.old run.0 self.new)) }
        ensures shorter { IfOk result (λ found. OnSome found (length self.new.bytes < length self.old.bytes)) }
        ensures none { IfOk result (λ found. IfNone found ((self.old.bytes ≡ []) × (self.new ≡ self.old))) }
        ensures refusal { IfErr result (λ r.
            (r ≡ Refusal.Count) × HasLongParts C.step R.eq F.valid F.chars classify self.old.bytes) }
        ensures err { OnErr result (self.new ≡ self.old) }
    {
        self.pop_front_char_run_with(&mut classify)
    }

    /// Removes a run of characters as `pop_front_char_run` does, with a borrowed classifier, whose final state
    /// contracts see.
    ///
    /// Returns `Count` if the run and the remainder both have more than 8 bytes and the block as many references as it
    /// can have; then the text hasn't changed.
    ///
    /// ```
    /// let mut text = StrTendril::from_slice(alloc, "42 apples")?;
    /// let mut calls = 0;
    /// let mut classify = |c: char| { calls += 1; c.is_ascii_digit() };
    /// text.pop_front_char_run_with(&mut classify)?;
    /// assert_eq!(rt; calls, 3);
    /// ```
    pub fn pop_front_char_run_with<C: FnMut(char) -> R, R: PartialEq + Drop>(
        &mut self,
        classify: &mut C,
    ) -> Result<Option<(Self, R)>, Refusal>
        requires { C.IsAlwaysCallable classify.old }
        ensures run { IfOk result (λ found. IfSome found (λ run. AsksRun C.step R.eq F.valid F.chars
            classify.old run.1 self.old.bytes run.0.bytes self.new.bytes classify.new)) }
        ensures joined { IfOk result (λ found. IfSome found (λ run. self.old.bytes ≡ run.0.bytes ++ self.new.bytes)) }
        ensures copied { IfOk result (λ found. IfSome found (λ run. SplitCost self.old run.0 self.new)) }
        ensures shorter { IfOk result (λ found. OnSome found (length self.new.bytes < length self.old.bytes)) }
        ensures none { IfOk result (λ found. IfNone found
            ((self.old.bytes ≡ []) × (self.new ≡ self.old) × (classify.new ≡ classify.old))) }
        ensures refusal { IfErr result (λ r. (r ≡ Refusal.Count)
            × AsksLongRun C.step R.eq F.valid F.chars classify.old self.old.bytes classify.new) }
        ensures err { OnErr result (self.new ≡ self.old) }
        ensures callable { C.IsAlwaysCallable classify.new }
    {
        let Some((end, class)) = run_end::<F, C, R>(self.as_byte_slice(), classify) else {
            return Ok(None);
        };
        let run = self.take_front(end as u32)?;
        Ok(Some((run, class)))
    }

    /// Appends a character, if the format can represent it.
    ///
    /// Returns `NotInFormat` if it can't, else `TooLong` if the text would have more than 4294967295 bytes, else
    /// `Memory` if an allocation fails; then nothing has changed. Costs what a push of its one to four bytes costs.
    ///
    /// ```
    /// let mut text = Tendril::<Latin1>::new(alloc);
    /// text.try_push_char('é')?;
    /// assert_eq!(rt; text.as_byte_slice(), b"\xE9".as_slice());
    /// assert_eq!(rt; text.try_push_char('€').err(), Some(Refusal::NotInFormat));
    /// ```
    pub fn try_push_char(&mut self, character: char) -> Result<(), Refusal>
        ensures { JoinsChar F.encodes F.encoding F.join character self.old result self.new }
    {
        let Some(encoded) = F::encode_char(character) else {
            return Err(Refusal::NotInFormat);
        };
        self.push_bytes_without_validating(encoded.as_slice())
    }
}

impl<A: Atomicity> Tendril<UTF8, A> {
    /// Returns a text of one character. Always returns Ok, and allocates nothing.
    ///
    /// ```
    /// assert_eq!(rt; StrTendril::from_char(alloc, 'é')?.as_str(), "é");
    /// ```
    pub fn from_char(alloc: Global, character: char) -> Result<Self, Refusal>
        ensures ok { IsOk result }
        ensures bytes { IfOk result (λ t. t.bytes ≡ encode_utf8 character) }
        ensures copied { IfOk result (λ t. t.copied ≤ INLINE_LEN) }
    {
        let mut text: Self = Tendril::new(alloc);
        text.push_char(character)?;
        Ok(text)
    }

    /// Appends a character.
    ///
    /// Returns `TooLong` if the text would have more than 4294967295 bytes, else `Memory` if an allocation fails; then
    /// nothing has changed. Costs what a push of its one to four bytes costs.
    ///
    /// ```
    /// let mut text = StrTendril::from_slice(alloc, "caf")?;
    /// text.push_char('é')?;
    /// assert_eq!(rt; text.as_str(), "café");
    /// ```
    pub fn push_char(&mut self, character: char) -> Result<(), Refusal>
        ensures { Joins ◌++◌ (encode_utf8 character) self.old result self.new }
    {
        self.try_push_char(character)
    }
}

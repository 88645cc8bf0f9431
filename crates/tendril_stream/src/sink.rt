//! Sinks: consumers of a stream of texts.

use std::borrow::CowStr;
use tendril_errors::Refusal;
pub use tendril_text::StreamText;

// Generic over the type of its texts, not over a format and an atomicity as in the Rust crate: for those two the
// toolchain generates no proof. The four ghost members are relations, not functions, so that a sink may specify less
// than it does.
/// A consumer of a stream of texts and errors.
pub trait TendrilSink<T: StreamText>: Drop {
    ghost use Rattle.std.specs.Prelude.{◌≡◌, ◌⊎◌, List, Option, Some, None, IfOk, IfErr, OnOk};
    ghost use Rattle.std.specs.Cow.{cow_str_bytes};
    ghost use Rattle.std.specs.List.{FoldsTo};
    ghost use Rattle.std.specs.Iterator.{IsFiniteIterable};
    ghost use Rattle.tendril_errors.specs.declared.refusal.Refusal.{Refusal};
    ghost use Rattle.tendril_stream.specs.Sinks.{Sent, Piece, Fault, AcceptsAll, AcceptsUpTo, SendsAll, SendsSome};

    /// What `finish` returns.
    type Output;

    // A sink that specifies nothing about its calls leaves these four out.

    /// What a call does if it returns Ok.
    ghost takes: { Self → Sent → Self → Type 0 } = { λ a e b. Unit {0} };

    /// What a call does if it returns an error.
    ghost refuses: { Self → Sent → Refusal → Self → Type 0 } = { λ a e r b. Unit {0} };

    /// The output of `finish` if it returns Ok.
    ghost finishes: { Self → Self.Output → Type 0 } = { λ a out. Unit {0} };

    /// The errors that `finish` may return.
    ghost ends: { Self → Refusal → Type 0 } = { λ a r. Unit {0} };

    /// Takes the next text of the stream, or returns an error of the sink's own.
    fn process(&mut self, text: T) -> Result<(), Refusal>
        ensures ok { OnOk result (takes self.old (Piece (T.text text)) self.new) }
        ensures err { IfErr result (λ r. refuses self.old (Piece (T.text text)) r self.new) };

    /// Takes the message of an error in the stream, or returns an error of the sink's own.
    fn error(&mut self, words: CowStr<'static>) -> Result<(), Refusal>
        ensures ok { OnOk result (takes self.old (Fault (cow_str_bytes words.entry)) self.new) }
        ensures err { IfErr result (λ r. refuses self.old (Fault (cow_str_bytes words.entry)) r self.new) };

    /// Ends the stream and returns the sink's output, or an error of the sink's own.
    fn finish(self) -> Result<Self::Output, Refusal>
        ensures ok { IfOk result (λ out. finishes self out) }
        ensures err { IfErr result (λ r. ends self r) };

    /// Takes one text, ends the stream, and returns what `finish` returns.
    ///
    /// Returns the error of `process` or of `finish`.
    ///
    /// ```
    /// let rope = Rope::new(alloc).one(StrTendril::from_slice(alloc, "abc")?)?;
    /// assert_eq!(rt; rope.len64(), 3);
    /// ```
    fn one(mut self, text: T) -> Result<Self::Output, Refusal>
    where
        Self: Sized,
        ensures ok { IfOk result (λ out. (mid : Self) × takes self (Piece (T.text text)) mid × finishes mid out) }
        ensures err { IfErr result (λ r.
            ((mid : Self) × refuses self (Piece (T.text text)) r mid)
            ⊎ ((mid : Self) × takes self (Piece (T.text text)) mid × ends mid r)) }
    {
        self.process(text)?;
        self.finish()
    }

    /// Takes each text of an iterator, up to the first for which `process` returns an error.
    ///
    /// Returns that error, and sends nothing after it.
    ///
    /// ```
    /// let mut rope = Rope::new(alloc);
    /// rope.send_all([StrTendril::from_slice(alloc, "ab")?, StrTendril::from_slice(alloc, "c")?])?;
    /// assert_eq!(rt; rope.len64(), 3);
    /// ```
    fn send_all<I: IntoIterator<Item = T>>(&mut self, texts: I) -> Result<(), Refusal>
    where
        Self: Sized,
        requires { IsFiniteIterable I.into_iter_gives I.IntoIter.can_next I.IntoIter.remaining texts }
        ensures ok { OnOk result (
            AcceptsAll I.into_iter_gives I.IntoIter.next_gives T.text takes self.old texts self.new) }
        ensures err { IfErr result (λ r.
            AcceptsUpTo I.into_iter_gives I.IntoIter.next_gives T.text takes refuses self.old texts r self.new) }
    {
        for text in texts {
            self.process(text)?;
        }
        Ok(())
    }

    /// Takes each text of an iterator, ends the stream, and returns what `finish` returns.
    ///
    /// Returns the first error of `process`, after which no call is made, or the error of `finish`.
    ///
    /// ```
    /// let texts = [StrTendril::from_slice(alloc, "ab")?, StrTendril::from_slice(alloc, "c")?];
    /// assert_eq!(rt; TendrilSink::from_iter(Rope::new(alloc), texts)?.len64(), 3);
    /// ```
    fn from_iter<I: IntoIterator<Item = T>>(mut self, texts: I) -> Result<Self::Output, Refusal>
    where
        Self: Sized,
        requires { IsFiniteIterable I.into_iter_gives I.IntoIter.can_next I.IntoIter.remaining texts }
        ensures ok { IfOk result (λ out.
            SendsAll I.into_iter_gives I.IntoIter.next_gives T.text takes finishes self texts out) }
        ensures err { IfErr result (λ r.
            SendsSome I.into_iter_gives I.IntoIter.next_gives T.text takes refuses ends self texts r) }
    {
        self.send_all(texts)?;
        self.finish()
    }
}

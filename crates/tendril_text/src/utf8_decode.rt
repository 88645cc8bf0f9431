//! Lossy decoding of one piece of a stream of UTF-8, and the incomplete bytes at its end.
//!
//! Broken bytes are replaced by U+FFFD, one for each maximal subpart (Unicode, chapter 3, 'U+FFFD Substitution of
//! Maximal Subparts'), as std's `from_utf8_lossy` and the WHATWG Encoding Standard do it.
ghost use Rattle.std.specs.Prelude.{◌≡◌, ◌<◌, ◌≤◌, [], length, drop, IfOk, IfErr, IsSomeAnd, OnOk, OnErr, MatchOption};
ghost use Rattle.std.specs.List.{FoldsTo};
ghost use Rattle.tendril_lossy.specs.Lossy.{IsIncomplete};
ghost use Rattle.tendril_text.specs.Decoding.{DecodesPiece, HandsOnUpTo, IsRest, LongTextMay, PopsText, bytes_of};
ghost use Rattle.tendril_text.specs.Decoding.{listed};
ghost use Rattle.tendril_text.specs.Receivers.{Interrupts, PassesUpTo, Piece, RefusesCall};
ghost use Rattle.tendril_errors.specs.Outcomes.{NoneMust, Outcome};

mod incomplete;
mod receiving;

use crate::tendril::Tendril;
pub use crate::utf8_decode::incomplete::IncompleteUtf8;
pub use crate::utf8_decode::receiving::{CallsClosure, Receiving, StreamText, replace_by};
use tendril_block::{Atomicity, Refusal};
use tendril_fmt::fmt::{Bytes, Format, UTF8};
use tendril_lossy::{Ending, FEW_BEFORE, LastText, first_part_by};

const REPLACEMENT: &str = "\u{FFFD}";

const INVALID: &str = "invalid byte sequence";

/// Converts a text to the type that a closure takes, which is the text's own type: no other type implements this.
///
/// Bounds use it instead of `FnMut(Tendril<UTF8, A>)`, about which nothing can be stated while `A` isn't known.
pub trait ClosureText<T: Drop>: Drop {
    ghost use Rattle.std.specs.Prelude.{◌≡◌};

    /// The text.
    ghost handed: { Self → T };

    /// Returns the text.
    fn hand(self) -> T
        ensures { result ≡ handed self };
}

impl<F: Format, A: Atomicity> ClosureText<Tendril<F, A>> for Tendril<F, A> {
    ghost handed = { λ t. t };

    fn hand(self) -> Tendril<F, A>
        ensures { result ≡ self }
    {
        self
    }
}

impl<A: Atomicity> Tendril<Bytes, A> {
    /// Decodes the bytes as a piece of a stream of UTF-8: passes the texts to the closure, U+FFFD for each broken
    /// sequence, and returns the incomplete bytes at the end, if there are any.
    ///
    /// Allocates nothing: texts of more than 8 bytes share the piece's block. Returns `Count` and the bytes not decoded
    /// yet if the block has as many references as it can have; what was passed to the closure isn't undone. Contracts
    /// can't state the final state of a closure that is passed by value: to prove something about it, call
    /// `decode_utf8_lossy_with`, or `pop_text` in a loop.
    ///
    /// ```
    /// let piece = ByteTendril::from_slice(alloc, b"a\xFFb\xC3")?;
    /// let mut text = StrTendril::new(alloc);
    /// let kept = piece.decode_utf8_lossy(|part: StrTendril| { let _ = text.push_tendril(&part); })?;
    /// assert_eq!(rt; text.as_str(), "a\u{FFFD}b");
    /// assert_eq!(rt; kept.is_some_and(|kept| kept.kept() == b"\xC3".as_slice()), true);
    /// ```
    pub fn decode_utf8_lossy<T: Drop, P: FnMut(T)>(
        mut self,
        mut push_utf8: P,
    ) -> Result<Option<IncompleteUtf8>, (Refusal, Self)>
    where
        Tendril<UTF8, A>: ClosureText<T>,
        requires { P.IsAlwaysCallable push_utf8 }
        ensures ok { IfOk result (λ kept. (last : P) ×
            DecodesPiece (λ p t u q. P.step p (⟦<Tendril<UTF8, A> as ClosureText<T>>⟧.handed t) u q)
            push_utf8 self kept last) }
        ensures refusal { IfErr result (λ e. LongTextMay e.1.bytes e.0) }
        ensures err { IfErr result (λ e.
            (last : P) × HandsOnUpTo (λ p t u q. P.step p (⟦<Tendril<UTF8, A> as ClosureText<T>>⟧.handed t) u q)
            push_utf8 self e.1 last) }
    {
        match self.decode_utf8_lossy_with(&mut push_utf8) {
            Ok(kept) => Ok(kept),
            Err(refusal) => Err((refusal, self)),
        }
    }

    /// Decodes the bytes as `decode_utf8_lossy` does, and passes the texts to a borrowed closure.
    ///
    /// Returns `Count` if the block has as many references as it can have; then the bytes not decoded yet are left.
    /// After an Ok only the incomplete bytes that are returned are left. Allocates nothing.
    ///
    /// ```
    /// let mut piece = ByteTendril::from_slice(alloc, b"a\xFFb")?;
    /// let mut count = 0;
    /// piece.decode_utf8_lossy_with(&mut |_part: StrTendril| count += 1)?;
    /// assert_eq!(rt; count, 3);
    /// ```
    pub fn decode_utf8_lossy_with<T: Drop, P: FnMut(T)>(
        &mut self,
        push_utf8: &mut P,
    ) -> Result<Option<IncompleteUtf8>, Refusal>
    where
        Tendril<UTF8, A>: ClosureText<T>,
        requires { P.IsAlwaysCallable push_utf8.old }
        ensures ok { IfOk result (λ kept.
            DecodesPiece (λ p t u q. P.step p (⟦<Tendril<UTF8, A> as ClosureText<T>>⟧.handed t) u q)
            push_utf8.old self.old kept push_utf8.new) }
        ensures left { IfOk result (λ kept. MatchOption kept (self.new.bytes ≡ []) (λ k. self.new.bytes ≡ k)) }
        ensures part { OnOk result (IsRest self.old self.new) }
        ensures refusal { IfErr result (LongTextMay self.new.bytes) }
        ensures err { OnErr result (
            HandsOnUpTo (λ p t u q. P.step p (⟦<Tendril<UTF8, A> as ClosureText<T>>⟧.handed t) u q)
            push_utf8.old self.old self.new push_utf8.new) }
        ensures callable { P.IsAlwaysCallable push_utf8.new }
    {
        let kept = self.decode_into::<CallsClosure<T>, P>(&mut LastText::none(), push_utf8)?;
        match kept.kept() {
            [] => Ok(None),
            _ => Ok(Some(kept)),
        }
    }

    /// Decodes the bytes as a piece of a stream of UTF-8, passes texts and errors to a receiver, and returns the
    /// incomplete bytes at the end, which are left. `last` is that of `pop_text_after`.
    ///
    /// W says how the receiver is called. Returns `Count` if the block has as many references as it can have; then the
    /// bytes not decoded yet are left. Returns `SinkRefused` if the receiver returns an error. Allocates nothing.
    ///
    /// ```
    /// let mut piece = ByteTendril::from_slice(alloc, b"a\xFFb\xC3")?;
    /// let mut count = 0;
    /// let mut push = |_part: StrTendril| count += 1;
    /// let kept = piece.decode_into::<CallsClosure<StrTendril>, _>(&mut LastText::none(), &mut push)?;
    /// assert_eq!(rt; kept.kept(), b"\xC3".as_slice());
    /// assert_eq!(rt; count, 3);
    /// ```
    #[inline(always)]
    pub fn decode_into<W: Receiving<S, Tendril<UTF8, A>>, S>(
        &mut self,
        last: &mut LastText,
        receiver: &mut S,
    ) -> Result<IncompleteUtf8, Refusal>
        requires { W.is_ready receiver.old }
        ensures ok { IfOk result (λ kept. PassesUpTo W.takes self.old self.new receiver.old receiver.new
            × IsIncomplete self.new.bytes × (kept ≡ self.new.bytes)) }
        ensures err { IfErr result (λ r. Interrupts W.takes W.refuses self.old self.new receiver.old r receiver.new) }
        ensures ready { W.is_ready receiver.new }
    {
        loop {
            let (text, ending) = self.pop_text_after(last)?;
            pass_some::<W, S, A>(receiver, text)?;
            match ending {
                Ending::Whole | Ending::Open => {
                    return Ok(IncompleteUtf8::new_without_validating(self.as_byte_slice()));
                }
                Ending::Broken(_) => replace_by::<W, S, A>(receiver, self.allocator(), INVALID)?,
            }
        }
    }

    /// Removes the longest prefix that is UTF-8 and the broken sequence after it, and returns the text, if it isn't
    /// empty, and what ended it. Incomplete bytes at the end stay.
    ///
    /// Returns `Count` if the text and the bytes after it both have more than 8 bytes and the block as many references
    /// as it can have; then nothing has changed. Allocates nothing: sides of more than 8 bytes keep sharing the block.
    ///
    /// ```
    /// let mut piece = ByteTendril::from_slice(alloc, b"ab\xFFc")?;
    /// let (text, _) = piece.pop_text()?;
    /// assert_eq!(rt; text.is_some_and(|text| text.eq_str("ab")), true);
    /// assert_eq!(rt; piece.as_byte_slice(), b"c".as_slice());
    /// ```
    pub fn pop_text(&mut self) -> Result<(Option<Tendril<UTF8, A>>, Ending), Refusal>
        ensures { Outcome NoneMust (LongTextMay self.old.bytes)
            (λ found new. PopsText self.old found.0 found.1 new) self.old result self.new }
    {
        self.pop_text_after(&mut LastText { len: FEW_BEFORE })
    }

    /// Removes and returns the next text as `pop_text` does, but faster in a loop: `last` stores the length of the last
    /// text.
    ///
    /// After a short text it first searches few bytes for the next broken sequence, after a long one many. Only the
    /// time differs.
    ///
    /// ```
    /// let mut piece = ByteTendril::from_slice(alloc, b"ab\xFFc")?;
    /// let mut last = LastText::none();
    /// let (text, _) = piece.pop_text_after(&mut last)?;
    /// assert_eq!(rt; text.is_some_and(|text| text.eq_str("ab")), true);
    /// ```
    #[inline(always)]
    pub fn pop_text_after(
        &mut self,
        last: &mut LastText,
    ) -> Result<(Option<Tendril<UTF8, A>>, Ending), Refusal>
        ensures pops { Outcome NoneMust (LongTextMay self.old.bytes)
            (λ found new. PopsText self.old found.0 found.1 new) self.old result self.new }
        ensures last { IfOk result (λ found. last.new.len ≡ length (bytes_of found.0)) }
    {
        let (front, ending) = first_part_by(self.as_byte_slice(), last.first_window());
        let count = front.len() as u32;
        *last = LastText { len: count };
        if let Ending::Broken(len) = ending {
            // The usual case: at most 8 bytes of text before the broken sequence, and more than 8 after it.
            if let Some(text) = self.take_few_text(count, len as u32) {
                let text = if count == 0 { None } else { Some(text) };
                return Ok((text, ending));
            }
        }
        let text = match count {
            0 => None,
            count => {
                let text = self.take_front(count)?;
                Some(text.reinterpret_without_validating())
            }
        };
        match ending {
            Ending::Broken(len) => self.skip(len as u32),
            Ending::Whole | Ending::Open => {}
        }
        Ok((text, ending))
    }
}

// Passes a text on, if there is one.
#[inline(always)]
fn pass_some<W: Receiving<S, Tendril<UTF8, A>>, S, A: Atomicity>(
    receiver: &mut S,
    text: Option<Tendril<UTF8, A>>,
) -> Result<(), Refusal>
    requires { W.is_ready receiver.old }
    ensures ok { OnOk result (FoldsTo (λ s t u. W.takes s (Piece t) u) receiver.old (listed text) receiver.new) }
    ensures err { IfErr result (λ r. IsSomeAnd text
        (λ t. RefusesCall W.refuses receiver.old (Piece t) r receiver.new)) }
    ensures ready { W.is_ready receiver.new }
{
    match text {
        Some(text) => W::text(receiver, text),
        None => Ok(()),
    }
}

//! The incomplete bytes at the end of a piece, and how the next piece completes them.
ghost use Rattle.std.specs.Prelude.{◌≡◌, [], IfSome, IfNone, OnSome, IfOk, OnOk, OnErr, MatchOption, MatchResult};
ghost use Rattle.tendril_text.specs.Decoding.{HandsCompleted};
ghost use Rattle.tendril_lossy.specs.Completions.{BreaksAt, CompletesTo, StillOpen};
ghost use Rattle.tendril_lossy.specs.Lossy.{IsIncomplete};
ghost use Rattle.tendril_storage.specs.Texts.{PopCost};

use crate::tendril::Tendril;
use crate::utf8_decode::{ClosureText, REPLACEMENT};
use std::marker::Model;
use tendril_block::Atomicity;
use tendril_fmt::fmt::{Bytes, Encoded, UTF8};
use tendril_lossy::{Completion, ShortText, complete};

/// The bytes at a piece's end that begin a character without ending it: at most three, or none.
///
/// It is an `Encoded` with that invariant.
#[derive(Clone, Copy, Debug)]
pub struct IncompleteUtf8 {
    bytes: Encoded,
}

impl Model for IncompleteUtf8 {
    ghost use Rattle.std.specs.Prelude.{ℕ, List, refl};
    ghost use Rattle.tendril_lossy.specs.Lossy.{IsIncomplete};

    ghost Value = { List ℕ };

    ghost view = { λ k. k.bytes };

    ghost invariant = { λ k. IsIncomplete k.bytes };

    ghost inverse = { λ list. record { bytes = list } };

    ghost inverse_ok = { λ k h. refl };
}

impl IncompleteUtf8 {
    /// Returns the bytes as incomplete ones if they begin a character and end within it, or if there are none; else
    /// `None`.
    ///
    /// Reads at most four bytes, and allocates nothing.
    ///
    /// ```
    /// assert_eq!(rt; IncompleteUtf8::new(b"\xE2\x82").is_some(), true);
    /// assert_eq!(rt; IncompleteUtf8::new(b"a").is_none(), true);
    /// ```
    pub fn new(bytes: &[u8]) -> Option<Self>
        ensures { MatchOption result (IsIncomplete bytes.now → ⊥) (λ k. IsIncomplete bytes.now × (k ≡ bytes.now)) }
    {
        if bytes.is_empty() {
            return Some(Self::none());
        }
        match complete(&[], bytes) {
            Completion::Open(bytes) => Some(IncompleteUtf8 { bytes }),
            Completion::Text(_) | Completion::Broken(_) => None,
        }
    }

    /// Returns the bytes as incomplete ones, which the caller proves them to be.
    pub fn new_without_validating(bytes: &[u8]) -> Self
        requires { IsIncomplete bytes.now }
        ensures { result ≡ bytes.now }
    {
        IncompleteUtf8 {
            bytes: Encoded::new(bytes),
        }
    }

    /// Returns the value for a piece that ends with a whole character: no bytes.
    ///
    /// ```
    /// assert_eq!(rt; IncompleteUtf8::none().kept().is_empty(), true);
    /// ```
    pub fn none() -> Self
        ensures { result ≡ [] }
    {
        IncompleteUtf8 {
            bytes: Encoded::new(&[]),
        }
    }

    /// Borrows the incomplete bytes: at most three.
    ///
    /// ```
    /// let kept = IncompleteUtf8::new(b"\xE2\x82");
    /// assert_eq!(rt; kept.is_some_and(|kept| kept.kept() == b"\xE2\x82".as_slice()), true);
    /// ```
    pub fn kept(&self) -> &[u8]
        ensures bytes { result.now ≡ self.now }
        ensures waits { IsIncomplete self.now }
    {
        self.bytes.as_slice()
    }

    /// Completes the bytes from the input, and returns what they became and the remaining input, or `None` if they are
    /// still incomplete.
    ///
    /// They become the longest prefix that is UTF-8 of the first four bytes, the kept ones and then the input's; or, if
    /// no character begins there, the broken bytes: their maximal subpart (Unicode, chapter 3). After that nothing is
    /// kept. On `None` the input is kept too. Reads at most these four bytes, and allocates nothing.
    ///
    /// ```
    /// let mut kept = IncompleteUtf8::new_without_validating(b"\xE2\x82");
    /// let Some((Ok(text), rest)) = kept.try_to_complete_codepoint(b"\xAC is a euro") else {
    ///     return Err(Fail::new("the bytes are a character"));
    /// };
    /// assert_eq!(rt; text.as_str(), "€ ");
    /// ```
    pub fn try_to_complete_codepoint<'i>(
        &mut self,
        input: &'i [u8],
    ) -> Option<(Result<ShortText, Encoded>, &'i [u8])>
        ensures completed { IfSome result (λ found. MatchResult found.0
            (λ t. CompletesTo self.old input.now t found.1.now)
            (λ b. BreaksAt self.old input.now b found.1.now)) }
        ensures emptied { OnSome result (self.new ≡ []) }
        ensures none { IfNone result (StillOpen self.old input.now self.new) }
    {
        let held = *self;
        let count = held.kept().len();
        match complete(held.kept(), input) {
            Completion::Text(text) => {
                let taken = text.as_str().len() - count;
                *self = Self::none();
                Some((Ok(text), &input[taken..]))
            }
            Completion::Broken(bytes) => {
                let taken = bytes.as_slice().len() - count;
                *self = Self::none();
                Some((Err(bytes), &input[taken..]))
            }
            Completion::Open(bytes) => {
                *self = IncompleteUtf8 { bytes };
                None
            }
        }
    }

    /// Completes the bytes from the start of a piece, removes what it takes from the piece and returns what the bytes
    /// became; or returns `None` if they are still incomplete.
    ///
    /// They become what `try_to_complete_codepoint` returns. On `None` the piece's bytes are kept too, and the piece
    /// hasn't changed. Allocates nothing.
    ///
    /// ```
    /// let mut kept = IncompleteUtf8::new_without_validating(b"\xC3");
    /// let mut piece = ByteTendril::from_slice(alloc, b"\xA9\xFF")?;
    /// assert_eq!(rt; kept.complete_from(&mut piece).is_some_and(|text| text.is_ok_and(|t| t.as_str() == "é")), true);
    /// assert_eq!(rt; piece.as_byte_slice(), b"\xFF".as_slice());
    /// ```
    pub fn complete_from<A: Atomicity>(
        &mut self,
        piece: &mut Tendril<Bytes, A>,
    ) -> Option<Result<ShortText, Encoded>>
        ensures completed { IfSome result (λ found. MatchResult found
            (λ t. CompletesTo self.old piece.old.bytes t piece.new.bytes)
            (λ b. BreaksAt self.old piece.old.bytes b piece.new.bytes)) }
        ensures copied { OnSome result (PopCost piece.old piece.new) }
        ensures emptied { OnSome result (self.new ≡ []) }
        ensures none { IfNone result (StillOpen self.old piece.old.bytes self.new) }
        ensures piece { IfNone result (piece.new ≡ piece.old) }
    {
        let bytes = piece.as_byte_slice();
        let Some((completed, rest)) = self.try_to_complete_codepoint(bytes) else {
            return None;
        };
        let taken = bytes.len() - rest.len();
        piece.pop_front(taken as u32);
        Some(completed)
    }

    /// Completes the bytes from a piece, passes the text or U+FFFD to the closure, and returns the remaining piece.
    ///
    /// Returns `Err(())` if the bytes are still incomplete: then the piece's bytes are kept too. Call it only if bytes
    /// are kept: with none, and an empty piece, it passes an empty text. Allocates nothing. Contracts can't state the
    /// final state of a closure that is passed by value: to prove something about it, call `try_complete_with`.
    ///
    /// ```
    /// let mut kept = IncompleteUtf8::new_without_validating(b"\xC3");
    /// let piece = ByteTendril::from_slice(alloc, b"\xA9tude")?;
    /// let mut text = StrTendril::new(alloc);
    /// let rest = kept.try_complete(piece, |part: StrTendril| text = part).ok();
    /// assert_eq!(rt; text.as_str(), "étu"); // it reads what makes four bytes
    /// assert_eq!(rt; rest.is_some_and(|rest| rest.as_byte_slice() == b"de".as_slice()), true);
    /// ```
    pub fn try_complete<A: Atomicity, T: Drop, P: FnMut(T)>(
        &mut self,
        mut input: Tendril<Bytes, A>,
        mut push_utf8: P,
    ) -> Result<Tendril<Bytes, A>, ()>
    where
        Tendril<UTF8, A>: ClosureText<T>,
        requires { P.IsAlwaysCallable push_utf8 }
        ensures ok { IfOk result (λ rest. (last : P) ×
            HandsCompleted (λ p t u q. P.step p (⟦<Tendril<UTF8, A> as ClosureText<T>>⟧.handed t) u q)
            push_utf8 self.old input rest last) }
        ensures emptied { OnOk result (self.new ≡ []) }
        ensures err { OnErr result (StillOpen self.old input.bytes self.new) }
    {
        self.try_complete_with(&mut input, &mut push_utf8)?;
        Ok(input)
    }

    /// Completes the bytes from the start of a piece, and passes the text or U+FFFD to a borrowed closure.
    ///
    /// Returns `Err(())` if the bytes are still incomplete: then the piece's bytes are kept too, and the piece and the
    /// closure haven't changed. Allocates nothing.
    ///
    /// ```
    /// let mut kept = IncompleteUtf8::new_without_validating(b"\xC3");
    /// let mut piece = ByteTendril::from_slice(alloc, b"!")?;
    /// let mut text = StrTendril::new(alloc);
    /// let done = kept.try_complete_with(&mut piece, &mut |part: StrTendril| text = part).is_ok();
    /// assert_eq!(rt; done, true);
    /// assert_eq!(rt; text.as_str(), "\u{FFFD}");
    /// ```
    pub fn try_complete_with<A: Atomicity, T: Drop, P: FnMut(T)>(
        &mut self,
        input: &mut Tendril<Bytes, A>,
        push_utf8: &mut P,
    ) -> Result<(), ()>
    where
        Tendril<UTF8, A>: ClosureText<T>,
        requires { P.IsAlwaysCallable push_utf8.old }
        ensures ok { OnOk result (
            HandsCompleted (λ p t u q. P.step p (⟦<Tendril<UTF8, A> as ClosureText<T>>⟧.handed t) u q)
            push_utf8.old self.old input.old input.new push_utf8.new) }
        ensures emptied { OnOk result (self.new ≡ []) }
        ensures err { OnErr result (StillOpen self.old input.old.bytes self.new) }
        ensures back { OnErr result ((input.new ≡ input.old) × (push_utf8.new ≡ push_utf8.old)) }
        ensures callable { P.IsAlwaysCallable push_utf8.new }
    {
        let Some(completed) = self.complete_from(input) else {
            return Err(());
        };
        let text = match &completed {
            Ok(text) => text.as_str(),
            Err(_) => REPLACEMENT,
        };
        push_utf8(Tendril::from_short_str(input.allocator(), text).hand());
        Ok(())
    }
}

//! Texts that are sent to another thread.
ghost use Rattle.std.specs.Prelude.{◌≡◌, IfOk, IfErr, length};
ghost use Rattle.tendril_errors.specs.Outcomes.{Gives, MemoryMay, NoneMust};

use crate::tendril::Tendril;
use std::marker::{Model, PhantomData};
use tendril_block::{Atomicity, Refusal};
use tendril_fmt::fmt::Format;
use tendril_storage::{Detached, Storage};

/// A text that shares nothing and may be sent to another thread, where it becomes a `Tendril` over any kind of block.
#[derive(Drop)]
pub struct SendTendril<F: Format> {
    detached: Detached,
    format: PhantomData<F>,
}

impl<F: Format> Model for SendTendril<F> {
    ghost use Rattle.std.specs.Prelude.{ℕ, List};

    ghost Value = { List ℕ };

    ghost view = { λ t. t.detached };

    ghost invariant = { λ t. F.valid t.detached };
}

impl<F: Format> SendTendril<F> {
    /// Returns a copy of the text, in time linear in its length.
    ///
    /// Returns `Memory` if an allocation fails, which is possible only for more than 8 bytes.
    ///
    /// ```
    /// let sent = StrTendril::from_slice(alloc, "to two threads")?.into_send()?;
    /// let copy = StrTendril::from_send(sent.clone()?).ok();
    /// assert_eq!(rt; copy.is_some_and(|text| text.eq_str("to two threads")), true);
    /// ```
    pub fn clone(&self) -> Result<Self, Refusal>
        ensures { Gives NoneMust (MemoryMay (length self.now)) (λ t. t ≡ self.now) result }
    {
        Ok(SendTendril {
            detached: self.detached.copy()?,
            format: PhantomData,
        })
    }
}

impl<F: Format, A: Atomicity> Tendril<F, A> {
    /// Turns the text into one that may be sent to another thread.
    ///
    /// A text that is the only reference to its block, and has all of the block's bytes, is moved in constant time. Any
    /// other of more than 8 bytes is copied. Returns `Memory` and the text if an allocation for that fails.
    ///
    /// ```
    /// let sent = StrTendril::from_slice(alloc, "to another thread")?.into_send()?;
    /// let text = StrTendril::from_send(sent).ok();
    /// assert_eq!(rt; text.is_some_and(|text| text.eq_str("to another thread")), true);
    /// ```
    #[inline(always)]
    pub fn into_send(self) -> Result<SendTendril<F>, (Refusal, Self)>
        ensures bytes { IfOk result (λ t. t ≡ self.bytes) }
        ensures refusal { IfErr result (λ e. MemoryMay (length self.bytes) e.0) }
        ensures back { IfErr result (λ e. e.1 ≡ self) }
    {
        let Tendril { storage, format } = self;
        match storage.into_detached() {
            Ok(detached) => Ok(SendTendril { detached, format }),
            Err((refusal, storage)) => Err((refusal, Tendril { storage, format })),
        }
    }

    /// Turns a text that came from another thread into a `Tendril` over this kind of block.
    ///
    /// Takes constant time; allocates nothing, and copies at most 8 bytes. A user's own kind of block may return
    /// `Memory` and the text; those of `tendril_block` never do.
    ///
    /// ```
    /// let sent = StrTendril::from_slice(alloc, "from another thread")?.into_send()?;
    /// let text = Tendril::<UTF8, Atomic>::from_send(sent).ok();
    /// assert_eq!(rt; text.is_some_and(|text| text.eq_str("from another thread")), true);
    /// ```
    #[inline(always)]
    pub fn from_send(text: SendTendril<F>) -> Result<Self, (Refusal, SendTendril<F>)>
        ensures bytes { IfOk result (λ t. t.bytes ≡ text) }
        ensures copied { IfOk result (λ t. t.copied ≡ length text) }
        ensures refusal { IfErr result (λ e. MemoryMay (length text) e.0) }
        ensures back { IfErr result (λ e. e.1 ≡ text) }
    {
        let SendTendril { detached, format } = text;
        match Storage::from_detached(detached) {
            Ok(storage) => Ok(Tendril { storage, format }),
            Err((refusal, detached)) => Err((refusal, SendTendril { detached, format })),
        }
    }
}

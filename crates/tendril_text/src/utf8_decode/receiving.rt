//! What receives the decoding of a piece: a closure, or in `tendril_stream` a sink.
ghost use Rattle.std.specs.Prelude.{◌≡◌, OnOk, IfErr};
ghost use Rattle.tendril_lossy.specs.Lossy.{replaced};
ghost use Rattle.tendril_text.specs.Receivers.{CallsWith, Feeds, IsSentOf, RefusesCall, Stops, no_other};

use crate::tendril::Tendril;
use crate::utf8_decode::{ClosureText, REPLACEMENT};
use std::alloc::Global;
use std::marker::PhantomData;
use tendril_block::{Atomicity, Refusal};
use tendril_fmt::fmt::{Format, UTF8};

/// A text that a receiver may take: a `Tendril` in any format, over any kind of block.
pub trait StreamText: Drop {
    ghost use Rattle.tendril_storage.specs.Texts.{Text};

    /// The text, as contracts see it.
    ghost text: { Self → Text };
}

impl<F: Format, A: Atomicity> StreamText for Tendril<F, A> {
    ghost text = { λ t. t };
}

// Over the type of the texts, not over a format and an atomicity: for those two the toolchain generates no proof.
/// A way to pass texts of type T and errors to an S: by calls of a closure, or of a sink.
pub trait Receiving<S, T: StreamText> {
    ghost use Rattle.std.specs.Prelude.{◌≡◌, OnOk, IfErr};
    ghost use Rattle.tendril_errors.specs.declared.refusal.Refusal.{Refusal};
    ghost use Rattle.tendril_text.specs.Receivers.{Sent, Piece, Fault, RefusesCall};

    /// It may be called, now and after each call.
    ghost is_ready: { S → Type 0 } = { λ s. Unit {0} };

    /// What a call does if it returns Ok.
    ghost takes: { S → Sent → S → Type 0 };

    /// What a call does if the receiver returns an error.
    ghost refuses: { S → Sent → Refusal → S → Type 0 };

    /// Passes a text on. Any error of the receiver becomes `SinkRefused`.
    fn text(receiver: &mut S, text: T) -> Result<(), Refusal>
        requires { is_ready receiver.old }
        ensures ok { OnOk result (takes receiver.old (Piece (T.text text)) receiver.new) }
        ensures err { IfErr result (λ r. RefusesCall refuses receiver.old (Piece (T.text text)) r receiver.new) }
        ensures ready { is_ready receiver.new };

    /// Passes the message of an error on. Any error of the receiver becomes `SinkRefused`.
    fn error(receiver: &mut S, words: &'static str) -> Result<(), Refusal>
        requires { is_ready receiver.old }
        ensures ok { OnOk result (takes receiver.old (Fault words.now) receiver.new) }
        ensures err { IfErr result (λ r. RefusesCall refuses receiver.old (Fault words.now) r receiver.new) }
        ensures ready { is_ready receiver.new };
}

/// By calls of a closure with the texts; the errors are left out.
pub struct CallsClosure<T>(PhantomData<T>);

impl<A: Atomicity, T: Drop, P: FnMut(T)> Receiving<P, Tendril<UTF8, A>> for CallsClosure<T>
where
    Tendril<UTF8, A>: ClosureText<T>,
{
    ghost use Rattle.std.specs.Prelude.{◌≡◌};
    ghost use Rattle.tendril_text.specs.Receivers.{CallsWith};

    ghost is_ready = { λ p. P.IsAlwaysCallable p };

    ghost takes = { CallsWith (λ p t u q. P.step p (⟦<Tendril<UTF8, A> as ClosureText<T>>⟧.handed t) u q) };

    ghost refuses = { λ p e r q. ⊥ };

    fn text(receiver: &mut P, text: Tendril<UTF8, A>) -> Result<(), Refusal> {
        receiver(text.hand());
        Ok(())
    }

    fn error(_receiver: &mut P, _words: &'static str) -> Result<(), Refusal> {
        Ok(())
    }
}

/// Passes an error on, and then U+FFFD.
#[inline(always)]
pub fn replace_by<W: Receiving<S, Tendril<UTF8, A>>, S, A: Atomicity>(
    receiver: &mut S,
    alloc: Global,
    words: &'static str,
) -> Result<(), Refusal>
    requires { W.is_ready receiver.old }
    ensures ok { (piece : _) → OnOk result (Feeds W.takes (IsSentOf piece) receiver.old
        (replaced words.now) receiver.new) }
    ensures err { (piece : _) → IfErr result (λ r.
        Stops W.takes W.refuses (IsSentOf piece) no_other receiver.old (replaced words.now) r receiver.new) }
    ensures ready { W.is_ready receiver.new }
{
    W::error(receiver, words)?;
    W::text(receiver, Tendril::from_short_str(alloc, REPLACEMENT))
}

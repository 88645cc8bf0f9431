//! A rope as a sink: it appends the texts of a stream, and ignores the errors in it.
ghost use Rattle.std.specs.Prelude.{◌≡◌, ◌++◌, length, IfOk, IfErr, OnOk, IsUtf8};

use crate::rope::Rope;
use std::borrow::CowStr;
use tendril_stream::{TendrilSink, Tracks};
use tendril_text::block::Refusal;
use tendril_text::fmt::UTF8;
use tendril_text::{Atomicity, Tendril};

impl<A: Atomicity> TendrilSink<Tendril<UTF8, A>> for Rope<A> {
    ghost use Rattle.std.specs.Prelude.{◌≡◌};
    ghost use Rattle.rope_text.specs.Sink.{TakesSent, RefusesSent};

    type Output = Rope<A>;

    ghost takes = { TakesSent };

    ghost refuses = { RefusesSent };

    ghost finishes = { λ a out. out ≡ a };

    ghost ends = { λ a r. ⊥ };

    fn process(&mut self, text: Tendril<UTF8, A>) -> Result<(), Refusal> {
        match self.push_tendril(text) {
            Ok(()) => Ok(()),
            Err((refusal, _)) => Err(refusal),
        }
    }

    fn error(&mut self, _words: CowStr<'static>) -> Result<(), Refusal> {
        Ok(())
    }

    fn finish(self) -> Result<Rope<A>, Refusal> {
        Ok(self)
    }
}

/// A rope that was empty has exactly the characters that it was sent; errors add none.
impl<A: Atomicity> Tracks<Tendril<UTF8, A>> for Rope<A> {
    ghost use Rattle.rope_text.specs.Sink.{HasCharacters, goes_on_by};

    ghost after = { HasCharacters };

    ghost goes_on = { goes_on_by };
}

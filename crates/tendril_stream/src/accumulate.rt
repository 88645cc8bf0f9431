//! A sink that stores the texts and errors that it is sent.
ghost use Rattle.std.specs.Prelude.{◌≡◌, [], ◌∷◌, ◌++◌, OnOk, IfErr};

use crate::sink::TendrilSink;
use crate::tracks::Tracks;
use std::alloc::Global;
use std::borrow::CowStr;
use std::fmt::{self, Debug, Formatter, Write};
use tendril_errors::Refusal;
use tendril_text::fmt::UTF8;
use tendril_text::{Atomicity, NonAtomic, Tendril};

/// A text or an error that was sent to a sink.
#[derive(Drop)]
pub enum Event<A: Atomicity = NonAtomic> {
    /// A text of the stream.
    Text(Tendril<UTF8, A>),
    /// The message of an error in the stream.
    Error(CowStr<'static>),
}

impl<A: Atomicity> Debug for Event<A> {
    fn fmt<W: Write>(&self, f: &mut Formatter<W>) -> fmt::Result {
        match self {
            Event::Text(text) => f.debug_tuple("Text").field(text).finish(),
            Event::Error(words) => f.debug_tuple("Error").field(words).finish(),
        }
    }
}

/// A sink that stores what it is sent, in order, in a vector.
#[derive(Drop)]
pub struct Accumulate<A: Atomicity = NonAtomic> {
    events: Vec<Event<A>>,
}

impl<A: Atomicity> Accumulate<A> {
    /// Returns a sink that has been sent nothing. Allocates nothing.
    ///
    /// ```
    /// let sink = Accumulate::new(alloc);
    /// let events = sink.one(StrTendril::from_slice(alloc, "a")?)?;
    /// assert_eq!(rt; events.len(), 1);
    /// ```
    pub fn new(alloc: Global) -> Self
        ensures { result.events.items ≡ [] }
    {
        Accumulate {
            events: Vec::new(alloc),
        }
    }

    /// Borrows what was sent so far, in order.
    ///
    /// ```
    /// let mut sink = Accumulate::new(alloc);
    /// sink.process(StrTendril::from_slice(alloc, "a")?)?;
    /// assert_eq!(rt; matches!(sink.events(), [Event::Text(_)]), true);
    /// ```
    pub fn events(&self) -> &[Event<A>]
        ensures { result.now ≡ self.now.events.items }
    {
        self.events.as_slice()
    }

    fn push(&mut self, event: Event<A>) -> Result<(), Refusal>
        ensures ok { OnOk result (self.new.events.items ≡ self.old.events.items ++ event ∷ []) }
        ensures err { IfErr result (λ r. (r ≡ Refusal.Memory) × (self.new.events.items ≡ self.old.events.items)) }
    {
        self.events.push(event)?;
        Ok(())
    }
}

impl<A: Atomicity> Debug for Accumulate<A> {
    fn fmt<W: Write>(&self, f: &mut Formatter<W>) -> fmt::Result {
        f.debug_struct("Accumulate")
            .field("events", &self.events)
            .finish()
    }
}

impl<A: Atomicity> TendrilSink<Tendril<UTF8, A>> for Accumulate<A> {
    ghost use Rattle.std.specs.Prelude.{◌≡◌, List, [], ◌∷◌, ◌++◌, OnOk, IfOk, IfErr};
    ghost use Rattle.std.specs.Cow.{cow_str_bytes};
    ghost use Rattle.tendril_errors.specs.declared.refusal.Refusal.TheVariants.{Memory};
    ghost use Rattle.tendril_stream.specs.Events.{sent};
    ghost use Rattle.tendril_stream.specs.Sinks.{Piece, Fault};

    type Output = Vec<Event<A>>;

    ghost takes = { λ a e b. sent b.events.items ≡ sent a.events.items ++ e ∷ [] };

    ghost refuses = { λ a e r b. (r ≡ Memory) × (b.events.items ≡ a.events.items) };

    ghost finishes = { λ a out. out.items ≡ a.events.items };

    ghost ends = { λ a r. ⊥ };

    fn process(&mut self, text: Tendril<UTF8, A>) -> Result<(), Refusal>
        ensures ok { OnOk result (sent self.new.events.items ≡ sent self.old.events.items ++ Piece text ∷ []) }
        ensures err { IfErr result (λ r. (r ≡ Memory) × (self.new.events.items ≡ self.old.events.items)) }
    {
        self.push(Event::Text(text))
    }

    fn error(&mut self, words: CowStr<'static>) -> Result<(), Refusal>
        ensures ok { OnOk result (
            sent self.new.events.items ≡ sent self.old.events.items ++ Fault (cow_str_bytes words.entry) ∷ []) }
        ensures err { IfErr result (λ r. (r ≡ Memory) × (self.new.events.items ≡ self.old.events.items)) }
    {
        self.push(Event::Error(words))
    }

    fn finish(self) -> Result<Vec<Event<A>>, Refusal>
        ensures ok { IfOk result (λ out. out.items ≡ self.events.items) }
        ensures err { IfErr result (λ r. ⊥) }
    {
        Ok(self.events)
    }
}

/// The stored events have exactly the characters and errors that were sent.
impl<A: Atomicity> Tracks<Tendril<UTF8, A>> for Accumulate<A> {
    ghost use Rattle.std.specs.Prelude.{◌≡◌};
    ghost use Rattle.tendril_stream.specs.Stored.{stored_on};
    ghost use Rattle.tendril_stream.specs.Events.{sent};
    ghost use Rattle.tendril_stream.specs.Sinks.{told};

    ghost after = { λ a t. told (sent a.events.items) ≡ t };

    ghost goes_on = { λ t a e b is_sent h c. stored_on (sent a.events.items) (sent b.events.items) e t c h };
}

//! Decodes two pieces. The first may end inside a character.
ghost use Rattle.std.specs.Prelude.{◌≡◌, ◌++◌, IfOk};
ghost use Rattle.tendril.specs.Lossy.{due};
ghost use Rattle.tendril.specs.Events.{sent};
ghost use Rattle.tendril.specs.Sinks.{told};

use std::alloc::Global;
use tendril::block::Refusal;
use tendril::stream::{Accumulate, Event, KeptUtf8, TendrilSink, Utf8LossyDecoder, laws};
use tendril::{ByteTendril, NonAtomic};

/// Returns the texts and errors of two pieces.
pub fn decode_two(
    alloc: Global,
    first: ByteTendril,
    second: ByteTendril,
) -> Result<Vec<Event>, Refusal>
    ensures { IfOk result (λ events. told (sent events.items) ≡ due (first.bytes ++ second.bytes)) }
{
    laws::<KeptUtf8, Accumulate, NonAtomic>();
    let mut decoder = Utf8LossyDecoder::new(alloc, Accumulate::new(alloc));
    decoder.process(first)?;
    decoder.process(second)?;
    decoder.finish()
}

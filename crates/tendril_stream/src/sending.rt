//! What every decoder sends to its sink.
ghost use Rattle.std.specs.Prelude.{OnOk, IfErr};
ghost use Rattle.tendril_lossy.specs.Lossy.{replaced};
ghost use Rattle.tendril_stream.specs.Decodings.{PieceMay};
ghost use Rattle.tendril_stream.specs.Sinks.{Piece, Feeds, IsSentOf, RefusesCall, Stops};

use crate::sink::TendrilSink;
use std::alloc::Global;
use std::borrow::CowStr;
use tendril_errors::Refusal;
use tendril_text::fmt::UTF8;
use tendril_text::{Atomicity, Receiving, Tendril, replace_by};

/// By calls of a sink.
pub struct SendsToSink;

impl<A: Atomicity, S: TendrilSink<Tendril<UTF8, A>>> Receiving<S, Tendril<UTF8, A>>
    for SendsToSink {
    ghost takes = { S.takes };

    ghost refuses = { S.refuses };

    fn text(receiver: &mut S, text: Tendril<UTF8, A>) -> Result<(), Refusal> {
        receiver.process(text).map_err(|_| Refusal::SinkRefused)
    }

    fn error(receiver: &mut S, words: &'static str) -> Result<(), Refusal> {
        receiver
            .error(CowStr::Borrowed(words))
            .map_err(|_| Refusal::SinkRefused)
    }
}

/// Sends a text to the sink. Any error of the sink becomes `SinkRefused`.
pub fn send<S: TendrilSink<Tendril<UTF8, A>>, A: Atomicity>(
    sink: &mut S,
    text: Tendril<UTF8, A>,
) -> Result<(), Refusal>
    ensures ok { OnOk result (S.takes sink.old (Piece text) sink.new) }
    ensures err { IfErr result (λ r. RefusesCall S.refuses sink.old (Piece text) r sink.new) }
{
    SendsToSink::text(sink, text)
}

/// Sends an error to the sink, and then U+FFFD. Any error of the sink becomes `SinkRefused`.
pub fn replace<S: TendrilSink<Tendril<UTF8, A>>, A: Atomicity>(
    sink: &mut S,
    alloc: Global,
    words: &'static str,
) -> Result<(), Refusal>
    ensures ok { (piece : _) → OnOk result (Feeds S.takes (IsSentOf piece) sink.old (replaced words.now) sink.new) }
    ensures err { (piece : _) → IfErr result (λ r.
        Stops S.takes S.refuses (IsSentOf piece) (PieceMay piece) sink.old (replaced words.now) r sink.new) }
{
    replace_by::<SendsToSink, S, A>(sink, alloc, words)
}

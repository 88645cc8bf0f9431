//! Decoding of streams that come as an iterator of pieces.
ghost use Rattle.std.specs.Prelude.{◌≡◌, List, [], None, flat_map, All, IfOk, IfErr};
ghost use Rattle.std.specs.Iterator.{IsFiniteIterable, YieldsThen};
ghost use Rattle.tendril_text.specs.Texts.{Text};
ghost use Rattle.tendril_lossy.specs.Lossy.{due};
ghost use Rattle.tendril_stream.specs.Compositions.{IsSentOfOne, PiecesStop};
ghost use Rattle.tendril_stream.specs.Decodings.{utf8};
ghost use Rattle.tendril_stream.specs.Events.{sent};
ghost use Rattle.tendril_stream.specs.Sinks.{Feeds, told};

use crate::accumulate::{Accumulate, Event};
use crate::decoder::Utf8LossyDecoder;
use crate::sink::TendrilSink;
use crate::tracks::Tracks;
use std::alloc::Global;
use tendril_errors::Refusal;
use tendril_text::fmt::{Bytes, UTF8};
use tendril_text::{Atomicity, Tendril};

/// Decodes pieces of bytes, and returns the list of texts and errors.
///
/// The list is the lossy decoding of the joined bytes, however they are cut. Returns `SinkRefused` if an allocation
/// fails, or `Count` if a piece's block has as many references as it can have. Copies no text of more than 8 bytes.
///
/// ```
/// let pieces = [ByteTendril::from_slice(alloc, b"a\xC3")?, ByteTendril::from_slice(alloc, b"\xA9")?];
/// let events = decode_pieces(alloc, pieces)?; // "a" and "é"
/// assert_eq!(rt; events.len(), 2);
/// ```
pub fn decode_pieces<A: Atomicity, I: IntoIterator<Item = Tendril<Bytes, A>>>(
    alloc: Global,
    pieces: I,
) -> Result<Vec<Event<A>>, Refusal>
    requires { IsFiniteIterable I.into_iter_gives I.IntoIter.can_next I.IntoIter.remaining pieces }
    ensures ok { IfOk result (λ events. (it : I.IntoIter) × (end : I.IntoIter) × (read : List Text)
        × I.into_iter_gives pieces it × YieldsThen I.IntoIter.next_gives it read None end
        × (told (sent events.items) ≡ due (flat_map (λ p. p.bytes) read))) }
    ensures shares { IfOk result (λ events. (it : I.IntoIter) × (end : I.IntoIter) × (read : List Text)
        × I.into_iter_gives pieces it × YieldsThen I.IntoIter.next_gives it read None end
        × All (IsSentOfOne utf8 read) (sent events.items)) }
    ensures refusal { IfErr result (λ r. PiecesStop utf8 I.into_iter_gives I.IntoIter.next_gives
        ⟦<Accumulate<A> as TendrilSink<Tendril<UTF8, A>>>⟧.takes
        ⟦<Accumulate<A> as TendrilSink<Tendril<UTF8, A>>>⟧.refuses
        ⟦<Accumulate<A> as TendrilSink<Tendril<UTF8, A>>>⟧.ends ⟦<Accumulate<A> as Tracks<Tendril<UTF8, A>>>⟧.after
        pieces r) }
{
    decode_pieces_into(alloc, Accumulate::new(alloc), pieces)
}

/// Decodes pieces of bytes into a sink, ends the stream, and returns what the sink's `finish` returns.
///
/// Returns `SinkRefused` if the sink returns an error, or `Count` if a piece's block has as many references as it can
/// have.
///
/// ```
/// let pieces = [ByteTendril::from_slice(alloc, b"a\xFF")?];
/// let events = decode_pieces_into(alloc, Accumulate::new(alloc), pieces)?; // "a", an error and U+FFFD
/// assert_eq!(rt; events.len(), 3);
/// ```
pub fn decode_pieces_into<
    A: Atomicity,
    S: Tracks<Tendril<UTF8, A>>,
    I: IntoIterator<Item = Tendril<Bytes, A>>,
>(alloc: Global, sink: S, pieces: I) -> Result<S::Output, Refusal>
    requires new { S.after sink [] }
    requires finite { IsFiniteIterable I.into_iter_gives I.IntoIter.can_next I.IntoIter.remaining pieces }
    ensures ok { IfOk result (λ out. (it : I.IntoIter) × (end : I.IntoIter) × (read : List Text)
        × I.into_iter_gives pieces it × YieldsThen I.IntoIter.next_gives it read None end
        × ((last : S) × S.after last (due (flat_map (λ p. p.bytes) read)) × S.finishes last out)) }
    ensures shares { IfOk result (λ out. (it : I.IntoIter) × (end : I.IntoIter) × (read : List Text)
        × I.into_iter_gives pieces it × YieldsThen I.IntoIter.next_gives it read None end
        × ((last : S) × Feeds S.takes (IsSentOfOne utf8 read) sink (due (flat_map (λ p. p.bytes) read)) last
        × S.finishes last out)) }
    ensures refusal { IfErr result (λ r.
        PiecesStop utf8 I.into_iter_gives I.IntoIter.next_gives S.takes S.refuses S.ends S.after pieces r) }
{
    Utf8LossyDecoder::new(alloc, sink).from_iter(pieces)
}

//! Decoding of streams in an encoding that come as an iterator of pieces.
ghost use Rattle.std.specs.Prelude.{◌≡◌, List, [], None, false, flat_map, IfErr, IfOk};
ghost use Rattle.std.specs.Iterator.{IsFiniteIterable, YieldsThen};
ghost use Rattle.tendril_encoding.specs.Choices.{start_encoding};
ghost use Rattle.tendril_encoding.specs.StateLaws.{IsStreamStart};
ghost use Rattle.tendril_encoding.specs.States.{decoding_from};
ghost use Rattle.tendril_stream.specs.Compositions.{PiecesStop};
ghost use Rattle.tendril_stream.specs.Events.{sent};
ghost use Rattle.tendril_stream.specs.Sinks.{told};
ghost use Rattle.tendril_text.specs.Texts.{Text};

use crate::lossy::LossyDecoder;
use std::alloc::Global;
use tendril_errors::Refusal;
use tendril_labels::Encoding;
use tendril_stream::{Accumulate, Event, TendrilSink, Tracks};
use tendril_text::fmt::{Bytes, UTF8};
use tendril_text::{Atomicity, Tendril};

/// Decodes pieces of bytes, and returns the list of texts and errors. A byte order mark decides the encoding, as in
/// `LossyDecoder::new_encoding`.
///
/// The list is the decoding of the joined bytes, however they are cut. Returns `Memory` or `SinkRefused` if an
/// allocation fails, or `Count` if a piece's block has as many references as it can have.
///
/// ```
/// let pieces = [ByteTendril::from_slice(alloc, b"caf")?, ByteTendril::from_slice(alloc, b"\xE9")?];
/// let events = decode_pieces(alloc, Encoding::WINDOWS_1252, pieces)?; // "caf" and "é"
/// assert_eq!(rt; events.len(), 2);
/// ```
pub fn decode_pieces<A: Atomicity, I: IntoIterator<Item = Tendril<Bytes, A>>>(
    alloc: Global,
    encoding: Encoding,
    pieces: I,
) -> Result<Vec<Event<A>>, Refusal>
    requires { IsFiniteIterable I.into_iter_gives I.IntoIter.can_next I.IntoIter.remaining pieces }
    ensures ok { IfOk result (λ events. (it : I.IntoIter) × (end : I.IntoIter) × (read : List Text)
        × I.into_iter_gives pieces it × YieldsThen I.IntoIter.next_gives it read None end
        × (told (sent events.items) ≡ (decoding_from (start_encoding encoding)).decoded
        (flat_map (λ p. p.bytes) read))) }
    ensures refusal { IfErr result (λ r. PiecesStop (decoding_from (start_encoding encoding))
        I.into_iter_gives I.IntoIter.next_gives
        ⟦<Accumulate<A> as TendrilSink<Tendril<UTF8, A>>>⟧.takes
        ⟦<Accumulate<A> as TendrilSink<Tendril<UTF8, A>>>⟧.refuses
        ⟦<Accumulate<A> as TendrilSink<Tendril<UTF8, A>>>⟧.ends ⟦<Accumulate<A> as Tracks<Tendril<UTF8, A>>>⟧.after
        pieces r) }
{
    decode_all(
        LossyDecoder::new_encoding(alloc, encoding, Accumulate::new(alloc)),
        pieces,
    )
}

// Decodes all pieces by a new decoder.
fn decode_all<A: Atomicity, S: Tracks<Tendril<UTF8, A>>, I: IntoIterator<Item = Tendril<Bytes, A>>>(
    decoder: LossyDecoder<S, A>,
    pieces: I,
) -> Result<S::Output, Refusal>
    requires start { IsStreamStart decoder.decoder.kept }
    requires new { S.after decoder.decoder.inner_sink [] }
    requires failed { decoder.decoder.failed ≡ false }
    requires finite { IsFiniteIterable I.into_iter_gives I.IntoIter.can_next I.IntoIter.remaining pieces }
    ensures ok { IfOk result (λ out. (it : I.IntoIter) × (end : I.IntoIter) × (read : List Text)
        × I.into_iter_gives pieces it × YieldsThen I.IntoIter.next_gives it read None end
        × ((last : S) × S.after last ((decoding_from decoder.decoder.kept).decoded (flat_map (λ p. p.bytes) read))
        × S.finishes last out)) }
    ensures refusal { IfErr result (λ r. PiecesStop (decoding_from decoder.decoder.kept)
        I.into_iter_gives I.IntoIter.next_gives S.takes S.refuses S.ends S.after pieces r) }
{
    decoder.from_iter(pieces)
}

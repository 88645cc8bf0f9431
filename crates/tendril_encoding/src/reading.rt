//! Decoding of streams in an encoding that are read.
ghost use Rattle.std.specs.Prelude.{◌≡◌, ◌≤◌, List, length, IfErr, IfOk};
ghost use Rattle.std.specs.Io.KnownBytes.{IsAtEnd};
ghost use Rattle.tendril_encoding.specs.Choices.{start_encoding};
ghost use Rattle.tendril_encoding.specs.StateLaws.{IsStreamStart};
ghost use Rattle.tendril_encoding.specs.States.{decoding_from};
ghost use Rattle.tendril_encoding.specs.Stopping.{ReadingStops};
ghost use Rattle.tendril_stream.specs.Events.{sent};
ghost use Rattle.tendril_stream.specs.Readings.{MakesReads};
ghost use Rattle.tendril_stream.specs.Reads.{CameToEnd, OneRead, StopsWith, given};
ghost use Rattle.tendril_stream.specs.Sinks.{told};

use crate::kept::Kept;
use std::alloc::Global;
use tendril_labels::Encoding;
use tendril_stream::{
    Accumulate, CountedRead, Decoder, Event, Stopped, TendrilSink, Tracks, read_decoded,
};
use tendril_text::fmt::UTF8;
use tendril_text::{Atomicity, Tendril};

/// Reads to the end, decodes the bytes, and returns the list of texts and errors. A byte order mark decides the
/// encoding, as in `LossyDecoder::new_encoding`.
///
/// Makes at most `max_reads` reads, and returns the errors of `read_from` and those of `decode_pieces`. If reading
/// stops between two reads, the decoder is returned: it has decoded all that was read, and can be passed to
/// `read_decoded` to continue. If the decoder returns an error for a piece, it is returned and has failed; if it
/// returns one at the end, it is dropped.
///
/// ```
/// let mut reader = stream::Counted::new(b"caf\xE9".as_slice());
/// let events = decode_reader::<NonAtomic, _>(alloc, Encoding::WINDOWS_1252, &mut reader, 10)?;
/// assert_eq!(rt; events.len(), 1); // "café"
/// ```
pub fn decode_reader<A: Atomicity, R: CountedRead>(
    alloc: Global,
    encoding: Encoding,
    reader: &mut R,
    max_reads: u64,
) -> Result<Vec<Event<A>>, Stopped<Decoder<Kept, Accumulate<A>, A>>>
    ensures ok { IfOk result (λ events. (these : List OneRead)
        × MakesReads R.history R.remaining reader.old these reader.new × IsAtEnd (R.remaining reader.new)
        × (told (sent events.items) ≡ (decoding_from (start_encoding encoding)).decoded (given these))
        × StopsWith CameToEnd these × (length these ≤ max_reads)) }
    ensures stopped { IfErr result (λ s. (these : List OneRead)
        × MakesReads R.history R.remaining reader.old these reader.new
        × ReadingStops (decoding_from (start_encoding encoding))
        ⟦<Accumulate<A> as TendrilSink<Tendril<UTF8, A>>>⟧.takes
        ⟦<Accumulate<A> as TendrilSink<Tendril<UTF8, A>>>⟧.refuses
        ⟦<Accumulate<A> as TendrilSink<Tendril<UTF8, A>>>⟧.ends ⟦<Accumulate<A> as Tracks<Tendril<UTF8, A>>>⟧.after
        (λ d. d.inner_sink) (λ d. d.kept) (λ d. d.failed) max_reads these s.refusal s.sink) }
{
    read_all(
        alloc,
        Kept::new_encoding(alloc, encoding),
        reader,
        max_reads,
    )
}

// Reads to the end through a new decoder.
fn read_all<A: Atomicity, R: CountedRead>(
    alloc: Global,
    kept: Kept,
    reader: &mut R,
    max_reads: u64,
) -> Result<Vec<Event<A>>, Stopped<Decoder<Kept, Accumulate<A>, A>>>
    requires { IsStreamStart kept }
    ensures ok { IfOk result (λ events. (these : List OneRead)
        × MakesReads R.history R.remaining reader.old these reader.new × IsAtEnd (R.remaining reader.new)
        × (told (sent events.items) ≡ (decoding_from kept).decoded (given these))
        × StopsWith CameToEnd these × (length these ≤ max_reads)) }
    ensures stopped { IfErr result (λ s. (these : List OneRead)
        × MakesReads R.history R.remaining reader.old these reader.new × ReadingStops (decoding_from kept)
        ⟦<Accumulate<A> as TendrilSink<Tendril<UTF8, A>>>⟧.takes
        ⟦<Accumulate<A> as TendrilSink<Tendril<UTF8, A>>>⟧.refuses
        ⟦<Accumulate<A> as TendrilSink<Tendril<UTF8, A>>>⟧.ends ⟦<Accumulate<A> as Tracks<Tendril<UTF8, A>>>⟧.after
        (λ d. d.inner_sink) (λ d. d.kept) (λ d. d.failed) max_reads these s.refusal s.sink) }
{
    let decoder = Decoder::over(alloc, kept, Accumulate::new(alloc));
    read_decoded(alloc, decoder, reader, max_reads)
}

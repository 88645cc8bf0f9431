//! Decoding of streams into ropes.
ghost use Rattle.std.specs.Prelude.{◌≡◌, ◌≤◌, ◌⊎◌, List, [], None, Some, false, flat_map, length, chars, All, IfOk};
ghost use Rattle.std.specs.Prelude.{IfErr};
ghost use Rattle.std.specs.Io.KnownBytes.{IsAtEnd};
ghost use Rattle.std.specs.Iterator.{IsFiniteIterable, YieldsThen};
ghost use Rattle.rope_text.specs.Sink.{HasCharacters};
ghost use Rattle.tendril_text.specs.Texts.{Text};
ghost use Rattle.tendril_lossy.specs.Lossy.{characters, due};
ghost use Rattle.tendril_stream.specs.Compositions.{IsSentOfOne, PiecesStop, StandsAt, StreamStops};
ghost use Rattle.tendril_stream.specs.Decodings.{utf8};
ghost use Rattle.tendril_stream.specs.Readings.{AreReadPieces, IsOfReading, MakesReads, StopsBetween};
ghost use Rattle.tendril_stream.specs.Reads.{OneRead, CameToEnd, StopsWith, given};
ghost use Rattle.tendril_stream.specs.Sinks.{Piece};

use crate::rope::Rope;
use std::alloc::Global;
use std::fs::{self, Files};
use tendril_stream::{
    Counted, CountedRead, Stopped, TendrilSink, Tracks, Utf8LossyDecoder, decode_pieces_into,
    read_decoded,
};
use tendril_text::block::Refusal;
use tendril_text::fmt::{Bytes, UTF8};
use tendril_text::{Atomicity, Tendril};

/// Decodes pieces of bytes to a rope that shares them, with U+FFFD for each broken sequence.
///
/// Each maximal subpart, as Unicode defines it, is one broken sequence; characters cut between two pieces are
/// completed. Returns `SinkRefused` if an allocation fails or the rope would have more than 18446744073709551615 bytes,
/// or `Count` if a piece's block has as many references as it can have.
///
/// ```
/// let pieces = [ByteTendril::from_slice(alloc, b"caf\xC3")?, ByteTendril::from_slice(alloc, b"\xA9\xFF")?];
/// assert_eq!(rt; decode_rope(alloc, pieces)?.to_tendril()?.as_str(), "café\u{FFFD}");
/// ```
pub fn decode_rope<A: Atomicity, I: IntoIterator<Item = Tendril<Bytes, A>>>(
    alloc: Global,
    pieces: I,
) -> Result<Rope<A>, Refusal>
    requires { IsFiniteIterable I.into_iter_gives I.IntoIter.can_next I.IntoIter.remaining pieces }
    ensures ok { IfOk result (λ rope. (it : I.IntoIter) × (end : I.IntoIter) × (read : List Text)
        × I.into_iter_gives pieces it × YieldsThen I.IntoIter.next_gives it read None end
        × (chars rope.bytes ≡ characters (due (flat_map (λ p. p.bytes) read)))) }
    ensures shares { IfOk result (λ rope. (it : I.IntoIter) × (end : I.IntoIter) × (read : List Text)
        × I.into_iter_gives pieces it × YieldsThen I.IntoIter.next_gives it read None end
        × All (λ t. IsSentOfOne utf8 read (Piece t)) rope.pieces) }
    ensures refusal { IfErr result (λ r. PiecesStop utf8 I.into_iter_gives I.IntoIter.next_gives
        ⟦<Rope<A> as TendrilSink<Tendril<UTF8, A>>>⟧.takes ⟦<Rope<A> as TendrilSink<Tendril<UTF8, A>>>⟧.refuses
        ⟦<Rope<A> as TendrilSink<Tendril<UTF8, A>>>⟧.ends ⟦<Rope<A> as Tracks<Tendril<UTF8, A>>>⟧.after pieces r) }
{
    decode_pieces_into(alloc, Rope::new(alloc), pieces)
}

/// Reads to the end, and decodes the bytes to a rope, with U+FFFD for each broken sequence.
///
/// Makes at most `max_reads` reads of at most 4096 bytes. Returns `Io` if a read fails, `TooManyReads` if the end
/// wasn't reached within `max_reads` reads, `Memory` if a piece can't be allocated, or the errors of `decode_rope`. If
/// reading stops between two reads, the decoder is returned: it has decoded all that was read, and can be passed to
/// `read_decoded` to continue. If the decoder returns an error for a piece, it is returned and has failed; if it
/// returns one at the end, it is dropped.
///
/// ```
/// let rope = read_rope::<NonAtomic, _>(alloc, &mut Counted::new(b"a\xFFb".as_slice()), 10)?;
/// assert_eq!(rt; rope.to_tendril()?.as_str(), "a\u{FFFD}b");
/// ```
pub fn read_rope<A: Atomicity, R: CountedRead>(
    alloc: Global,
    reader: &mut R,
    max_reads: u64,
) -> Result<Rope<A>, Stopped<Utf8LossyDecoder<Rope<A>, A>>>
    ensures ok { IfOk result (λ rope. (these : List OneRead)
        × MakesReads R.history R.remaining reader.old these reader.new
        × IsAtEnd (R.remaining reader.new) × (chars rope.bytes ≡ characters (due (given these)))
        × StopsWith CameToEnd these × (length these ≤ max_reads)
        × ((pieces : List Text) × AreReadPieces these pieces
        × All (λ t. IsSentOfOne utf8 pieces (Piece t)) rope.pieces)) }
    ensures stopped { IfErr result (λ s. (these : List OneRead)
        × MakesReads R.history R.remaining reader.old these reader.new
        × (IsOfReading s.refusal → StopsBetween max_reads these s.refusal
        × ((d : _) × (s.sink ≡ Some d) × (d.failed ≡ false)
        × StandsAt utf8 HasCharacters d.inner_sink d.kept (given these)))
        × (IsOfReading s.refusal ⊎ StreamStops utf8 ⟦<Rope<A> as TendrilSink<Tendril<UTF8, A>>>⟧.takes
        ⟦<Rope<A> as TendrilSink<Tendril<UTF8, A>>>⟧.refuses ⟦<Rope<A> as TendrilSink<Tendril<UTF8, A>>>⟧.ends
        HasCharacters (λ d. d.inner_sink) (λ d. d.failed) max_reads these s.refusal s.sink)) }
{
    let decoder = Utf8LossyDecoder::new(alloc, Rope::new(alloc));
    read_decoded(alloc, decoder, reader, max_reads)
}

/// Reads a file to its end, and decodes the bytes to a rope, with U+FFFD for each broken sequence.
///
/// Returns `Io` with a new decoder if the file can't be opened, or the errors of `read_rope`: also `Io` for a
/// directory, since no read of one succeeds.
///
/// ```
/// let stopped = rope_from_file::<NonAtomic, _>(&rt, alloc, "no/such/file", 10).err();
/// assert_eq!(rt; stopped.is_some_and(|stopped| stopped.refusal == Refusal::Io), true);
/// ```
pub fn rope_from_file<A: Atomicity, F: Files>(
    files: &F,
    alloc: Global,
    path: &str,
    max_reads: u64,
) -> Result<Rope<A>, Stopped<Utf8LossyDecoder<Rope<A>, A>>>
    ensures ok { IfOk result (λ rope. (these : List OneRead) × (chars rope.bytes ≡ characters (due (given these)))
        × StopsWith CameToEnd these × (length these ≤ max_reads)
        × ((pieces : List Text) × AreReadPieces these pieces
        × All (λ t. IsSentOfOne utf8 pieces (Piece t)) rope.pieces)) }
    ensures stopped { IfErr result (λ s. ((s.refusal ≡ Refusal.Io)
        × ((d : _) × (s.sink ≡ Some d) × (d.failed ≡ false) × StandsAt utf8 HasCharacters d.inner_sink d.kept []))
        ⊎ ((these : List OneRead) × (IsOfReading s.refusal → StopsBetween max_reads these s.refusal
        × ((d : _) × (s.sink ≡ Some d) × (d.failed ≡ false)
        × StandsAt utf8 HasCharacters d.inner_sink d.kept (given these)))
        × (IsOfReading s.refusal ⊎ StreamStops utf8 ⟦<Rope<A> as TendrilSink<Tendril<UTF8, A>>>⟧.takes
        ⟦<Rope<A> as TendrilSink<Tendril<UTF8, A>>>⟧.refuses ⟦<Rope<A> as TendrilSink<Tendril<UTF8, A>>>⟧.ends
        HasCharacters (λ d. d.inner_sink) (λ d. d.failed) max_reads these s.refusal s.sink))) }
{
    match fs::open(files, path) {
        Ok(file) => read_rope(alloc, &mut Counted::new(file), max_reads),
        Err(_) => Err(Stopped {
            refusal: Refusal::Io,
            sink: Some(Utf8LossyDecoder::new(alloc, Rope::new(alloc))),
        }),
    }
}

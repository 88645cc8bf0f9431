//! Reading into a sink.
ghost use Rattle.std.specs.Prelude.{◌≡◌, ◌≤◌, ◌+◌, ◌⊎◌, List, [], ◌∷◌, ◌++◌, length, take, drop, All, Some, false};
ghost use Rattle.std.specs.Prelude.{IfOk, IfErr, OnErr};
ghost use Rattle.std.specs.Io.KnownBytes.{IsAtEnd, Keeps, ReadConsumes};
ghost use Rattle.tendril_lossy.specs.Lossy.{due};
ghost use Rattle.tendril_stream.specs.Compositions.{IsSentOfOne, StandsAt, StreamStops};
ghost use Rattle.tendril_stream.specs.Decodings.{utf8};
ghost use Rattle.tendril_stream.specs.Events.{sent};
ghost use Rattle.tendril_stream.specs.Readings.{AreReadPieces, Halts, IsOfReading, IsReadPart, MakesReads, ReadStops};
ghost use Rattle.tendril_stream.specs.Readings.{ReadsAll, ReadsOnce, StopsBetween, read_for};
ghost use Rattle.tendril_stream.specs.Reads.{OneRead, CameToEnd, HasFailed, StopsWith, given, read_of};
ghost use Rattle.tendril_stream.specs.Sinks.{told};
ghost use Rattle.tendril_text.specs.Texts.{Text};

use crate::accumulate::{Accumulate, Event};
use crate::counted::Counted;
use crate::counted_read::{CountedRead, ReadFault};
use crate::decoder::{Decoder, Utf8LossyDecoder};
use crate::piece_decoding::PieceDecoding;
use crate::sink::TendrilSink;
use crate::tracks::Tracks;
use std::alloc::Global;
use std::error::Error;
use std::fmt;
use std::fs::{self, Files};
use tendril_errors::Refusal;
use tendril_text::fmt::{Bytes, UTF8};
use tendril_text::{Atomicity, ByteTendril, Tendril};

/// The buffer of each read, in bytes.
const PIECE: u32 = 4096;

/// Why reading into a sink stopped, with the sink if it wasn't asked to finish.
#[derive(Drop)]
pub struct Stopped<S> {
    /// Why reading stopped.
    pub refusal: Refusal,
    /// The sink, or `None` if its `finish` returned the error.
    pub sink: Option<S>,
}

/// Prints the number and the name of the error, as `9 Io`.
impl<S: Drop> fmt::Display for Stopped<S> {
    ghost use Rattle.std.specs.Prelude.{Some};
    ghost use Rattle.tendril_errors.specs.Refusals.{refusal_text};

    ghost output = { λ s. Some (refusal_text s.refusal) };

    fn fmt<W: fmt::Write>(&self, f: &mut fmt::Formatter<W>) -> fmt::Result {
        write!(f, "{}", self.refusal)
    }
}

/// Prints the error, whatever the sink is.
impl<S: Drop> fmt::Debug for Stopped<S> {
    fn fmt<W: fmt::Write>(&self, f: &mut fmt::Formatter<W>) -> fmt::Result {
        f.debug_tuple("Stopped").field(&self.refusal).finish()
    }
}

impl<S: Drop> Error for Stopped<S> {}

/// Returns why reading stopped, so that `?` passes it up. The sink is dropped.
impl<S: Drop> From<Stopped<S>> for Refusal {
    ghost from_gives = { λ stopped refusal. refusal ≡ stopped.refusal };

    fn from(stopped: Stopped<S>) -> Self {
        stopped.refusal
    }
}

// The number of reads is bounded since a reader may be interrupted without end, and every call has to return.
/// Reads to the end, sends the bytes to the sink in pieces of at most 4096, and returns what the sink's `finish`
/// returns.
///
/// Makes at most `max_reads` reads, interrupted ones included. Returns `Io` if a read fails, `TooManyReads` if the end
/// wasn't reached within `max_reads` reads, `Memory` if a piece can't be allocated, or the sink's own error. The sink
/// is returned with the error, unless that is from `finish`.
///
/// ```
/// let decoder: Utf8LossyDecoder<Rope> = Utf8LossyDecoder::new(alloc, Rope::new(alloc));
/// let rope = read_from(alloc, decoder, &mut Counted::new(b"abc".as_slice()), 10)?;
/// assert_eq!(rt; rope.len64(), 3);
/// ```
pub fn read_from<A: Atomicity, S: TendrilSink<Tendril<Bytes, A>>, R: CountedRead>(
    alloc: Global,
    mut sink: S,
    reader: &mut R,
    max_reads: u64,
) -> Result<S::Output, Stopped<S>>
    ensures ok { IfOk result (λ out. (these : List OneRead)
        × MakesReads R.history R.remaining reader.old these reader.new
        × IsAtEnd (R.remaining reader.new) × ReadsAll S.takes S.finishes max_reads sink these out) }
    ensures stopped { IfErr result (λ s. (these : List OneRead)
        × MakesReads R.history R.remaining reader.old these reader.new
        × Halts S.takes S.refuses S.ends max_reads sink these s.refusal s.sink) }
{
    let mut made = 0;
    while made < max_reads {
        made += 1;
        match read_once(alloc, &mut sink, reader) {
            Ok(true) => {
                return match sink.finish() {
                    Ok(out) => Ok(out),
                    Err(refusal) => Err(Stopped {
                        refusal,
                        sink: None,
                    }),
                };
            }
            Ok(false) => {}
            Err(refusal) => {
                return Err(Stopped {
                    refusal,
                    sink: Some(sink),
                });
            }
        }
    }
    Err(Stopped {
        refusal: Refusal::TooManyReads,
        sink: Some(sink),
    })
}

/// Reads once, sends the sink the bytes, at most 4096, and returns whether the reader is at its end.
///
/// At the end, or after an interrupted read, nothing is sent. Returns `Io` if the read fails, `Memory` if the piece
/// can't be allocated, or the sink's own error.
///
/// ```
/// let mut decoder: Utf8LossyDecoder<Accumulate> = Utf8LossyDecoder::new(alloc, Accumulate::new(alloc));
/// let mut reader = Counted::new(b"abc".as_slice());
/// assert_eq!(rt; read_once(alloc, &mut decoder, &mut reader)?, false);
/// assert_eq!(rt; read_once(alloc, &mut decoder, &mut reader)?, true);
/// ```
pub fn read_once<A: Atomicity, S: TendrilSink<Tendril<Bytes, A>>, R: CountedRead>(
    alloc: Global,
    sink: &mut S,
    reader: &mut R,
) -> Result<bool, Refusal>
    ensures ok { IfOk result (ReadsOnce R.history R.remaining reader.old reader.new sink.old sink.new S.takes) }
    ensures err { IfErr result (ReadStops R.history R.remaining reader.old reader.new sink.old sink.new S.refuses) }
{
    match read_part(alloc, reader) {
        Ok(Part::Bytes(piece)) => {
            sink.process(piece)?;
            Ok(false)
        }
        Ok(Part::Interrupted) => Ok(false),
        Ok(Part::End) => Ok(true),
        Err(refusal) => Err(refusal),
    }
}

/// Reads a file to its end, sends the bytes to the sink in pieces, and returns what the sink's `finish` returns.
///
/// Makes at most `max_reads` reads. Returns `Io` if the file can't be opened, or the errors of `read_from`: also `Io`
/// for a directory, since no read of one succeeds. The sink is returned with the error, unless that is from `finish`.
///
/// ```
/// let decoder: Utf8LossyDecoder<Rope> = Utf8LossyDecoder::new(alloc, Rope::new(alloc));
/// let stopped = from_file(&rt, alloc, decoder, "no/such/file", 10).err();
/// assert_eq!(rt; stopped.is_some_and(|stopped| stopped.refusal == Refusal::Io), true);
/// ```
pub fn from_file<A: Atomicity, S: TendrilSink<Tendril<Bytes, A>>, F: Files>(
    files: &F,
    alloc: Global,
    sink: S,
    path: &str,
    max_reads: u64,
) -> Result<S::Output, Stopped<S>>
    ensures ok { IfOk result (λ out. (these : List OneRead) × ReadsAll S.takes S.finishes max_reads sink these out) }
    ensures stopped { IfErr result (λ s. ((s.refusal ≡ Refusal.Io) × (s.sink ≡ Some sink))
        ⊎ ((these : List OneRead) × Halts S.takes S.refuses S.ends max_reads sink these s.refusal s.sink)) }
{
    match fs::open(files, path) {
        Ok(file) => read_from(alloc, sink, &mut Counted::new(file), max_reads),
        Err(_) => Err(Stopped {
            refusal: Refusal::Io,
            sink: Some(sink),
        }),
    }
}

/// Reads to the end, decodes the bytes, and returns the list of texts and errors.
///
/// Makes at most `max_reads` reads, and returns the errors of `read_from`. If reading stops between two reads, the
/// decoder is returned: it has decoded all that was read, and can be passed to `read_decoded` to continue. If the
/// decoder returns an error for a piece, it is returned and has failed; if it returns one at the end, it is dropped.
///
/// ```
/// let events = decode_reader::<NonAtomic, _>(alloc, &mut Counted::new(b"a\xFF".as_slice()), 10)?;
/// assert_eq!(rt; events.len(), 3); // "a", an error and U+FFFD
/// ```
pub fn decode_reader<A: Atomicity, R: CountedRead>(
    alloc: Global,
    reader: &mut R,
    max_reads: u64,
) -> Result<Vec<Event<A>>, Stopped<Utf8LossyDecoder<Accumulate<A>, A>>>
    ensures ok { IfOk result (λ events. (these : List OneRead)
        × MakesReads R.history R.remaining reader.old these reader.new
        × IsAtEnd (R.remaining reader.new) × (told (sent events.items) ≡ due (given these))
        × StopsWith CameToEnd these × (length these ≤ max_reads)
        × ((pieces : List Text) × AreReadPieces these pieces × All (IsSentOfOne utf8 pieces) (sent events.items))) }
    ensures stopped { IfErr result (λ s. (these : List OneRead)
        × MakesReads R.history R.remaining reader.old these reader.new
        × (IsOfReading s.refusal → StopsBetween max_reads these s.refusal
        × ((d : _) × (s.sink ≡ Some d) × (d.failed ≡ false)
        × StandsAt utf8 (λ a t. told (sent a.events.items) ≡ t) d.inner_sink d.kept (given these)))
        × (IsOfReading s.refusal ⊎ StreamStops utf8 ⟦<Accumulate<A> as TendrilSink<Tendril<UTF8, A>>>⟧.takes
        ⟦<Accumulate<A> as TendrilSink<Tendril<UTF8, A>>>⟧.refuses
        ⟦<Accumulate<A> as TendrilSink<Tendril<UTF8, A>>>⟧.ends
        ⟦<Accumulate<A> as Tracks<Tendril<UTF8, A>>>⟧.after (λ d. d.inner_sink) (λ d. d.failed)
        max_reads these s.refusal s.sink)) }
{
    let decoder = Utf8LossyDecoder::new(alloc, Accumulate::new(alloc));
    read_decoded(alloc, decoder, reader, max_reads)
}

/// Reads to the end through a decoder, as `read_from` does, and returns what its sink's `finish` returns.
///
/// For sinks whose type names a lifetime, as `Accumulate`'s does: the borrow checker rejects a decoder over such a sink
/// as an argument of `read_from`.
///
/// ```
/// let decoder: Utf8LossyDecoder<Accumulate> = Utf8LossyDecoder::new(alloc, Accumulate::new(alloc));
/// let events = read_decoded(alloc, decoder, &mut Counted::new(b"abc".as_slice()), 10)?;
/// assert_eq!(rt; events.len(), 1);
/// ```
pub fn read_decoded<
    A: Atomicity,
    K: PieceDecoding<Tendril<Bytes, A>, Tendril<UTF8, A>>,
    S: TendrilSink<Tendril<UTF8, A>>,
    R: CountedRead,
>(
    alloc: Global,
    decoder: Decoder<K, S, A>,
    reader: &mut R,
    max_reads: u64,
) -> Result<S::Output, Stopped<Decoder<K, S, A>>>
    ensures ok { IfOk result (λ out. (these : List OneRead)
        × MakesReads R.history R.remaining reader.old these reader.new
        × IsAtEnd (R.remaining reader.new)
        × ReadsAll ⟦<Decoder<K, S, A> as TendrilSink<Tendril<Bytes, A>>>⟧.takes
        ⟦<Decoder<K, S, A> as TendrilSink<Tendril<Bytes, A>>>⟧.finishes max_reads decoder these out) }
    ensures stopped { IfErr result (λ s. (these : List OneRead)
        × MakesReads R.history R.remaining reader.old these reader.new
        × Halts ⟦<Decoder<K, S, A> as TendrilSink<Tendril<Bytes, A>>>⟧.takes
        ⟦<Decoder<K, S, A> as TendrilSink<Tendril<Bytes, A>>>⟧.refuses
        ⟦<Decoder<K, S, A> as TendrilSink<Tendril<Bytes, A>>>⟧.ends max_reads decoder these s.refusal s.sink) }
{
    read_from(alloc, decoder, reader, max_reads)
}

// What a read returned.
#[derive(Drop)]
enum Part<A: Atomicity> {
    Bytes(Tendril<Bytes, A>),
    Interrupted,
    End,
}

// Reads once into a new text.
fn read_part<A: Atomicity, R: CountedRead>(
    alloc: Global,
    reader: &mut R,
) -> Result<Part<A>, Refusal>
    ensures reads { IfOk result (λ part. MakesReads R.history R.remaining reader.old (read_for part ∷ []) reader.new) }
    ensures part { IfOk result (λ part. IsReadPart part (R.remaining reader.new)) }
    ensures err { IfErr result (λ r.
        ((r ≡ Refusal.Memory) × (reader.new ≡ reader.old))
        ⊎ ((r ≡ Refusal.Io) × MakesReads R.history R.remaining reader.old (HasFailed ∷ []) reader.new)) }
{
    let mut piece = Tendril::<Bytes, A>::new(alloc);
    piece.push_uninitialized(PIECE)?;
    match read_into(reader, &mut piece, 0)? {
        Ok(0) => Ok(Part::End),
        Ok(count) => {
            piece.pop_back(PIECE - count as u32);
            Ok(Part::Bytes(piece))
        }
        Err(ReadFault::Interrupted) => Ok(Part::Interrupted),
        Err(ReadFault::Failed) => Err(Refusal::Io),
    }
}

// Reads once into the bytes of a text from `start` on. They are copied first if they are shared.
pub(crate) fn read_into<A: Atomicity, R: CountedRead>(
    reader: &mut R,
    text: &mut Tendril<Bytes, A>,
    start: usize,
) -> Result<Result<usize, ReadFault>, Refusal>
    requires { start ≤ length text.old.bytes }
    ensures len { length text.new.bytes ≡ length text.old.bytes }
    ensures front { take start text.new.bytes ≡ take start text.old.bytes }
    ensures within { IfOk result (λ answer. IfOk answer (λ n. start + n ≤ length text.new.bytes)) }
    ensures history { IfOk result (λ answer.
        R.history reader.new ≡ R.history reader.old ++ read_of answer (drop start text.new.bytes) ∷ []) }
    ensures consumes { IfOk result (λ answer.
        ReadConsumes (R.remaining reader.old) (R.remaining reader.new) answer (drop start text.new.bytes)) }
    ensures refusal { IfErr result (λ r. r ≡ Refusal.Memory) }
    ensures err { OnErr result ((text.new ≡ text.old) × (reader.new ≡ reader.old)) }
{
    let mut edit = |bytes: &mut [u8]| reader.read_some(&mut bytes[start..]);
    text.bytes_mut_with(&mut edit)
}

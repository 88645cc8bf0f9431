//! Decodes the input to the output.
ghost use Rattle.std.specs.Prelude.{◌≡◌, ◌<◌, true, false, List, [], ◌∷◌, ◌++◌, ℕ, Option, All, length, IfOk, IfErr};
ghost use Rattle.std.specs.Prelude.{OnOk};
ghost use Rattle.std.specs.Io.KnownBytes.{IsAtEnd};
ghost use Rattle.tendril_stream.specs.Readings.{MakesReads};
ghost use Rattle.tendril_stream.specs.Reads.{OneRead, CameToEnd, MayReadOn, given};
ghost use Rattle.tendril_transcode.specs.Transcodings.{BeginsStream, EndingStops, IsReady, TranscodeStops, Transcoded};
ghost use Rattle.tendril_transcode.specs.Transcodings.{WritesText, chars_of_all, most_reads};

use crate::joined::Joined;
use crate::text::write_text;
use std::alloc::Global;
use std::io::Write;
use tendril_stream::{CountedRead, Decoder, PieceDecoding, TendrilSink, read_once};
use tendril_text::block::Refusal;
use tendril_text::{ByteTendril, StrTendril};

/// The maximal number of reads: 4 TB, if each read gives 4096 bytes.
const MOST_READS: u64 = 1_000_000_000;

/// Decodes the whole input, which begins with what `kept` has of a stream, and writes the text of each read before the
/// next read. The memory that it takes doesn't depend on the input's length.
///
/// Errors: Memory (none for a read), Io (a failed read), SinkRefused (a failed write or flush, or no memory for the
/// text), TooManyReads if 1000000000 reads don't reach the end, and those that the decoding itself returns.
///
/// ```
/// let mut out = Vec::new(alloc);
/// transcode(alloc, KeptUtf8::new(), &mut Counted::new(b"a\xFF".as_slice()), &mut out)?;
/// assert_eq!(rt; out.as_slice(), b"a\xEF\xBF\xBD".as_slice()); // "a" and U+FFFD
/// ```
pub fn transcode<K: PieceDecoding<ByteTendril, StrTendril>, R: CountedRead, W: Write>(
    alloc: Global,
    kept: K,
    reader: &mut R,
    out: &mut W,
) -> Result<(), Refusal>
    requires begins { BeginsStream K.decoding kept }
    ensures ok { OnOk result ((these : List OneRead) × MakesReads R.history R.remaining reader.old these reader.new
        × IsAtEnd (R.remaining reader.new)
        × Transcoded K.decoding kept most_reads these (W.contents out.old) (W.contents out.new)) }
    ensures stops { IfErr result (λ r. (these : List OneRead)
        × MakesReads R.history R.remaining reader.old these reader.new
        × TranscodeStops K.decoding kept most_reads these (R.remaining reader.new)
        (W.contents out.old) (W.contents out.new) r) }
{
    let mut decoder: Decoder<K, Joined> = Decoder::over(alloc, kept, Joined::new(alloc));
    let mut made = 0;
    while made < MOST_READS {
        made += 1;
        if decode_read(alloc, &mut decoder, reader, out)? {
            return decode_end(decoder, out);
        }
    }
    Err(Refusal::TooManyReads)
}

// Makes one read, writes what is decoded from it, and returns whether the input is at its end.
fn decode_read<K: PieceDecoding<ByteTendril, StrTendril>, R: CountedRead, W: Write>(
    alloc: Global,
    decoder: &mut Decoder<K, Joined>,
    reader: &mut R,
    out: &mut W,
) -> Result<bool, Refusal>
    ensures read { (start : K) → (before : Option (List ℕ)) → (these : List OneRead)
        → IsReady K.decoding start these before (W.contents out.old)
        decoder.old.kept decoder.old.failed decoder.old.inner_sink
        → IfOk result (λ ended. ended ≡ false → (one : OneRead) × MayReadOn one
        × MakesReads R.history R.remaining reader.old (one ∷ []) reader.new
        × IsReady K.decoding start (these ++ one ∷ []) before (W.contents out.new)
        decoder.new.kept decoder.new.failed decoder.new.inner_sink) }
    ensures ended { IfOk result (λ ended. ended ≡ true
        → MakesReads R.history R.remaining reader.old (CameToEnd ∷ []) reader.new
        × IsAtEnd (R.remaining reader.new) × (decoder.new ≡ decoder.old) × (out.new ≡ out.old)) }
    ensures stops { (start : K) → (before : Option (List ℕ)) → (these : List OneRead)
        → All MayReadOn these → length these < most_reads
        → IsReady K.decoding start these before (W.contents out.old)
        decoder.old.kept decoder.old.failed decoder.old.inner_sink
        → IfErr result (λ r. (more : List OneRead) × MakesReads R.history R.remaining reader.old more reader.new
        × TranscodeStops K.decoding start most_reads (these ++ more) (R.remaining reader.new)
        before (W.contents out.new) r) }
{
    if read_once(alloc, decoder, reader)? {
        return Ok(true);
    }
    write_text(&decoder.inner_sink, out)?;
    decoder.inner_sink.clear();
    Ok(false)
}

// Ends the stream, and writes what its end adds to the text.
fn decode_end<K: PieceDecoding<ByteTendril, StrTendril>, W: Write>(
    decoder: Decoder<K, Joined>,
    out: &mut W,
) -> Result<(), Refusal>
    ensures ok { (start : K) → (before : Option (List ℕ)) → (these : List OneRead)
        → IsReady K.decoding start these before (W.contents out.old) decoder.kept decoder.failed decoder.inner_sink
        → OnOk result (WritesText (chars_of_all K.decoding start (given these)) before (W.contents out.new)) }
    ensures stops { (start : K) → (before : Option (List ℕ)) → (these : List OneRead)
        → IsReady K.decoding start these before (W.contents out.old) decoder.kept decoder.failed decoder.inner_sink
        → IfErr result (EndingStops K.decoding start these before (W.contents out.new)) }
{
    let text = decoder.finish()?;
    write_text(&text, out)
}

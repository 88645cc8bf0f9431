//! Reads all records of a reader.
ghost use Rattle.std.specs.Prelude.{◌≡◌, ◌≤◌, ◌++◌, List, length, encode_utf8_all, IfErr, IfOk, IfSome};
ghost use Rattle.std.specs.Io.KnownBytes.{IsAtEnd};
ghost use Rattle.tendril.specs.Fmt.Parts.{IsFrontOf};
ghost use Rattle.tendril.specs.Lossy.{characters, due};
ghost use Rattle.tendril.specs.Readings.{MakesReads};
ghost use Rattle.tendril.specs.Reads.{OneRead, CameToEnd, StopsWith, given};
ghost use Rattle.use_csv.specs.Spelled.{record_bytes, unmarked};

use crate::reader::CsvReader;
use crate::record::RecordSink;
use std::alloc::Global;
use tendril::stream::{CountedRead, Stopped, Utf8LossyDecoder, read_decoded};

/// Reads to the end in at most `max_reads` reads, decodes, sends the records to the sink, and returns the sink.
///
/// The fields of the records, joined with commas, are the decoded text in UTF-8, without quotes and line ends. After an
/// error they are a prefix of it, and the sink is in the decoder that is returned (`inner_sink`, and its `sink`). If
/// the sink returns an error at the input's end, both are dropped.
///
/// Returns `Io` if a read fails, `TooManyReads` if the end wasn't reached within `max_reads` reads, `Memory` if a piece
/// can't be allocated, or the decoder's error: `SinkRefused` if a field can't be stored or the sink returns an error.
pub fn read_records<K: RecordSink, R: CountedRead>(
    alloc: Global,
    sink: K,
    reader: &mut R,
    max_reads: u64,
) -> Result<K, Stopped<Utf8LossyDecoder<CsvReader<K>>>>
    ensures ok { IfOk result (λ out. (these : List OneRead)
        × MakesReads R.history R.remaining reader.old these reader.new
        × IsAtEnd (R.remaining reader.new)
        × (unmarked (record_bytes (K.records out))
        ≡ unmarked (record_bytes (K.records sink)) ++ unmarked (encode_utf8_all (characters (due (given these)))))
        × StopsWith CameToEnd these × (length these ≤ max_reads)) }
    ensures stopped { IfErr result (λ s. (these : List OneRead)
        × MakesReads R.history R.remaining reader.old these reader.new
        × IfSome s.sink (λ d. IsFrontOf (unmarked (record_bytes (K.records d.inner_sink.sink)))
        (unmarked (record_bytes (K.records sink)) ++ unmarked (encode_utf8_all (characters (due (given these))))))) }
{
    let decoder = Utf8LossyDecoder::new(alloc, CsvReader::new(alloc, sink));
    read_decoded(alloc, decoder, reader, max_reads)
}

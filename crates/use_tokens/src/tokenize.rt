//! Reads all tokens of a reader.
ghost use Rattle.std.specs.Prelude.{◌≡◌, ◌≤◌, ◌++◌, List, length, encode_utf8_all, IfErr, IfOk, IfSome};
ghost use Rattle.std.specs.Io.KnownBytes.{IsAtEnd};
ghost use Rattle.tendril.specs.Lossy.{characters, due};
ghost use Rattle.tendril.specs.Readings.{MakesReads};
ghost use Rattle.tendril.specs.Reads.{OneRead, CameToEnd, StopsWith, given};
ghost use Rattle.use_tokens.specs.Spelled.{TokensSpellPrefix, joined_sources};

use crate::token::TokenSink;
use crate::tokenizer::Tokenizer;
use std::alloc::Global;
use tendril::stream::{CountedRead, Stopped, Utf8LossyDecoder, read_decoded};

/// Reads to the end in at most `max_reads` reads, decodes, sends the tokens to the sink, and returns the sink.
///
/// The sources of the tokens, joined, are the decoded text in UTF-8. After an error they are a prefix of it, and the
/// sink is in the decoder that is returned (`inner_sink`, and its `sink`). If the sink returns an error at the input's
/// end, both are dropped.
pub fn tokenize<K: TokenSink, R: CountedRead>(
    alloc: Global,
    sink: K,
    reader: &mut R,
    max_reads: u64,
) -> Result<K, Stopped<Utf8LossyDecoder<Tokenizer<K>>>>
    ensures ok { IfOk result (λ out. (these : List OneRead)
        × MakesReads R.history R.remaining reader.old these reader.new
        × IsAtEnd (R.remaining reader.new)
        × (joined_sources (K.tokens out) ≡ joined_sources (K.tokens sink)
        ++ encode_utf8_all (characters (due (given these))))
        × StopsWith CameToEnd these × (length these ≤ max_reads)) }
    ensures stopped { IfErr result (λ s. (these : List OneRead)
        × MakesReads R.history R.remaining reader.old these reader.new
        × IfSome s.sink (λ d. TokensSpellPrefix (K.tokens sink) (encode_utf8_all (characters (due (given these))))
        (K.tokens d.inner_sink.sink))) }
{
    let decoder = Utf8LossyDecoder::new(alloc, Tokenizer::new(alloc, sink));
    read_decoded(alloc, decoder, reader, max_reads)
}

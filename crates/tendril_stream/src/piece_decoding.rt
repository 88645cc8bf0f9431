//! Decodings of a stream that comes in pieces.

use crate::sink::{StreamText, TendrilSink};
use std::alloc::Global;
use tendril_errors::Refusal;

// Over the types of pieces and texts for the reason that `TendrilSink` is.
/// What a decoder keeps of a stream between two pieces of type P, and how it decodes the next one to texts of type T.
///
/// `Decoder` is a sink of pieces over any of them. `KeptUtf8` is the one of UTF-8.
pub trait PieceDecoding<P: StreamText, T: StreamText>: Drop {
    ghost use Rattle.std.specs.Prelude.{◌≡◌, OnOk, IfErr};
    ghost use Rattle.tendril_stream.specs.Decoders.{FeedsEnd, FeedsPiece, StopsInEnd, StopsInPiece};
    ghost use Rattle.tendril_stream.specs.Decodings.{Decoding, IsDecoding};

    /// The decoding, whose state is what is kept.
    ghost decoding: { Decoding Self };

    /// Decodes a piece, and sends its texts and errors to the sink. `SinkRefused`: the sink returned an error.
    fn decode_piece<S: TendrilSink<T>>(
        &mut self,
        alloc: Global,
        sink: &mut S,
        piece: P,
    ) -> Result<(), Refusal>
        ensures ok { OnOk result (FeedsPiece decoding S.takes sink.old self.old (P.text piece) sink.new
            × (self.new ≡ (decoding).after self.old (P.text piece).bytes)) }
        ensures err { IfErr result (λ r. StopsInPiece decoding S.takes S.refuses sink.old self.old
            (P.text piece) r sink.new) };

    /// Sends what the end of the stream adds to the sink. `SinkRefused`: the sink returned an error.
    fn decode_end<S: TendrilSink<T>>(&mut self, alloc: Global, sink: &mut S) -> Result<(), Refusal>
        ensures ok { OnOk result (FeedsEnd decoding S.takes sink.old self.old sink.new) }
        ensures err { IfErr result (λ r. StopsInEnd decoding S.takes S.refuses sink.old self.old r sink.new) };

    /// It doesn't depend on where the stream is cut.
    ghost is_decoding: { IsDecoding decoding };
}

//! A decoder of a stream that comes in pieces.
ghost use Rattle.std.specs.Prelude.{◌≡◌, [], false};
ghost use Rattle.std.specs.Borrow.{Lends, sem};

use crate::piece_decoding::PieceDecoding;
use crate::sink::TendrilSink;
use crate::utf8::KeptUtf8;
use std::alloc::Global;
use std::borrow::CowStr;
use std::marker::PhantomData;
use tendril_errors::Refusal;
use tendril_text::fmt::{Bytes, UTF8};
use tendril_text::{Atomicity, NonAtomic, Tendril};

// All calls fail after an error, since the remainder of the piece is lost: decoding the next piece would leave a gap
// that no call reports.
/// Decodes pieces of bytes to texts for a sink, with an error and U+FFFD for each broken sequence.
///
/// A character that is cut by the end of a piece is completed from the next one; if the stream ends within it, it is
/// one broken sequence. A call returns `SinkRefused` if the sink returns any error, or an error of the decoding. All
/// calls after an error return `Failed`.
#[derive(Drop)]
pub struct Decoder<
    K: PieceDecoding<Tendril<Bytes, A>, Tendril<UTF8, A>>,
    S: TendrilSink<Tendril<UTF8, A>>,
    A: Atomicity = NonAtomic,
> {
    /// The sink that the texts are sent to.
    pub inner_sink: S,
    alloc: Global,
    kept: K,
    failed: bool,
    atomicity: PhantomData<A>,
}

/// A decoder of UTF-8.
///
/// Each maximal subpart is one broken sequence (Unicode, chapter 3, 'U+FFFD Substitution of Maximal Subparts'). The
/// decoder returns `Count` if the piece's block has as many references as it can have. Decoding allocates nothing:
/// texts of more than 8 bytes share the piece's block.
pub type Utf8LossyDecoder<S, A = NonAtomic> = Decoder<KeptUtf8, S, A>;

/// A decoder of any encoding that this crate supports, which is only UTF-8. `tendril_encoding` has one of all of them.
pub type LossyDecoder<S, A = NonAtomic> = Utf8LossyDecoder<S, A>;

impl<S: TendrilSink<Tendril<UTF8, A>>, A: Atomicity> Decoder<KeptUtf8, S, A> {
    /// Returns a decoder of UTF-8 that sends its texts to the sink. Allocates nothing.
    ///
    /// ```
    /// let mut decoder = Utf8LossyDecoder::new(alloc, Accumulate::new(alloc));
    /// decoder.process(ByteTendril::from_slice(alloc, b"a\xFF")?)?; // "a", an error, U+FFFD
    /// let events = decoder.finish()?;
    /// assert_eq!(rt; events.len(), 3);
    /// ```
    pub fn new(alloc: Global, inner_sink: S) -> Self
        ensures sink { result.inner_sink ≡ inner_sink }
        ensures kept { result.kept ≡ [] }
        ensures failed { result.failed ≡ false }
    {
        Self::over(alloc, KeptUtf8::new(), inner_sink)
    }

    /// Returns a decoder of UTF-8 that sends its texts to the sink, as `new` does.
    ///
    /// ```
    /// let decoder: LossyDecoder<Accumulate> = LossyDecoder::utf8(alloc, Accumulate::new(alloc));
    /// let events = decoder.one(ByteTendril::from_slice(alloc, b"abc")?)?;
    /// assert_eq!(rt; events.len(), 1);
    /// ```
    pub fn utf8(alloc: Global, inner_sink: S) -> Self
        ensures sink { result.inner_sink ≡ inner_sink }
        ensures kept { result.kept ≡ [] }
        ensures failed { result.failed ≡ false }
    {
        Self::new(alloc, inner_sink)
    }
}

impl<
    K: PieceDecoding<Tendril<Bytes, A>, Tendril<UTF8, A>>,
    S: TendrilSink<Tendril<UTF8, A>>,
    A: Atomicity,
> Decoder<K, S, A> {
    ghost use Rattle.tendril_stream.specs.contracts.decoder.Decoder.{the_row};

    /// Returns a decoder that sends its texts to the sink, and begins with what `kept` has of a stream. Allocates
    /// nothing.
    ///
    /// ```
    /// let decoder: Utf8LossyDecoder<Accumulate> = Decoder::over(alloc, KeptUtf8::new(), Accumulate::new(alloc));
    /// let events = decoder.one(ByteTendril::from_slice(alloc, b"abc")?)?;
    /// assert_eq!(rt; events.len(), 1);
    /// ```
    pub fn over(alloc: Global, kept: K, inner_sink: S) -> Self
        ensures sink { result.inner_sink ≡ inner_sink }
        ensures kept { result.kept ≡ kept }
        ensures failed { result.failed ≡ false }
    {
        Decoder {
            inner_sink,
            alloc,
            kept,
            failed: false,
            atomicity: PhantomData,
        }
    }

    /// Borrows what is kept of the stream.
    ///
    /// ```
    /// let mut decoder = Utf8LossyDecoder::new(alloc, Accumulate::new(alloc));
    /// decoder.process(ByteTendril::from_slice(alloc, b"a\xC3")?)?;
    /// assert_eq!(rt; decoder.kept().is_empty(), false);
    /// ```
    pub fn kept(&self) -> &K
        ensures { result.now ≡ self.now.kept }
    {
        &self.kept
    }

    /// Borrows the sink that the texts are sent to.
    ///
    /// ```
    /// let mut decoder = Utf8LossyDecoder::new(alloc, Accumulate::new(alloc));
    /// decoder.process(ByteTendril::from_slice(alloc, b"abc")?)?;
    /// assert_eq!(rt; decoder.inner_sink().events().len(), 1);
    /// ```
    pub fn inner_sink(&self) -> &S
        ensures { result.now ≡ self.now.inner_sink }
    {
        &self.inner_sink
    }

    /// Borrows the sink mutably. The next texts are sent to the sink as the caller leaves it.
    ///
    /// ```
    /// let mut decoder = Utf8LossyDecoder::new(alloc, Accumulate::new(alloc));
    /// decoder.inner_sink_mut().process(StrTendril::from_slice(alloc, "before the stream")?)?;
    /// assert_eq!(rt; decoder.inner_sink().events().len(), 1);
    /// ```
    pub fn inner_sink_mut(&mut self) -> &mut S
        ensures value { result.now ≡ self.old.inner_sink }
        ensures* writes_back { sem 𝓛 (Lends (the_row K.row S.row A.row S.Output.row A.Block.row) S.row self.entry result
            (λ w. record self.old { inner_sink = w })) }
    {
        &mut self.inner_sink
    }
}

impl<
    K: PieceDecoding<Tendril<Bytes, A>, Tendril<UTF8, A>>,
    S: TendrilSink<Tendril<UTF8, A>>,
    A: Atomicity,
> TendrilSink<Tendril<Bytes, A>> for Decoder<K, S, A> {
    ghost use Rattle.std.specs.Prelude.{◌≡◌, ◌⊎◌, true, false};
    ghost use Rattle.tendril_errors.specs.declared.refusal.Refusal.TheVariants.{Failed};
    ghost use Rattle.tendril_stream.specs.Decoders.{Decodes, DecodingStops, Ends, EndStops};

    type Output = S::Output;

    ghost takes = { λ d e n. (d.failed ≡ false) × (n.failed ≡ false)
        × Decodes K.decoding S.takes d.inner_sink d.kept e n.inner_sink n.kept };

    ghost refuses = { λ d e r n. (n.failed ≡ true)
        × (((d.failed ≡ true) × (r ≡ Failed) × (n.inner_sink ≡ d.inner_sink))
        ⊎ ((d.failed ≡ false) × DecodingStops K.decoding S.takes S.refuses d.inner_sink d.kept e r n.inner_sink)) };

    ghost finishes = { λ d out. (d.failed ≡ false) × Ends K.decoding S.takes S.finishes d.inner_sink d.kept out };

    ghost ends = { λ d r. ((d.failed ≡ true) × (r ≡ Failed))
        ⊎ ((d.failed ≡ false) × EndStops K.decoding S.takes S.refuses S.ends d.inner_sink d.kept r) };

    fn process(&mut self, piece: Tendril<Bytes, A>) -> Result<(), Refusal> {
        if self.failed {
            return Err(Refusal::Failed);
        }
        let sent = self
            .kept
            .decode_piece(self.alloc, &mut self.inner_sink, piece);
        self.failed = sent.is_err();
        sent
    }

    fn error(&mut self, words: CowStr<'static>) -> Result<(), Refusal> {
        if self.failed {
            return Err(Refusal::Failed);
        }
        let passed = self.inner_sink.error(words);
        self.failed = passed.is_err();
        passed.map_err(|_| Refusal::SinkRefused)
    }

    fn finish(self) -> Result<S::Output, Refusal> {
        let mut sink = self.inner_sink;
        let mut kept = self.kept;
        if self.failed {
            return Err(Refusal::Failed);
        }
        kept.decode_end(self.alloc, &mut sink)?;
        sink.finish().map_err(|_| Refusal::SinkRefused)
    }
}

//! A decoder of streams in any encoding.
ghost use Rattle.std.specs.Prelude.{◌≡◌, false};
ghost use Rattle.std.specs.Borrow.{Lends, sem};
ghost use Rattle.tendril_encoding.specs.Choices.{start_encoding, start_for};
ghost use Rattle.tendril_labels.specs.declared.encoding.Encoding.TheVariants.{Utf8};

use crate::kept::Kept;
use crate::mark::BomHandling;
use std::alloc::Global;
use std::borrow::CowStr;
use tendril_errors::Refusal;
use tendril_labels::Encoding;
use tendril_stream::{Decoder, TendrilSink};
use tendril_text::fmt::{Bytes, UTF8};
use tendril_text::{Atomicity, NonAtomic, Tendril};

/// Decodes pieces of bytes in an encoding to texts for a sink, with an error and U+FFFD for each malformed sequence.
///
/// A character that is cut by the end of a piece is completed from the next one. A piece of ASCII is passed on as it is
/// where the encoding decodes ASCII bytes to themselves; what else isn't UTF-8 is decoded to new texts: beside the
/// U+FFFD, at most one for each piece of up to 1 GiB and each malformed sequence in it.
///
/// A call returns `SinkRefused` if the sink returns any error, `Memory` if an allocation fails, and `Count` if a block
/// has as many references as it can have. All calls after an error return `Failed`.
#[derive(Drop)]
pub struct LossyDecoder<S: TendrilSink<Tendril<UTF8, A>>, A: Atomicity = NonAtomic> {
    decoder: Decoder<Kept, S, A>,
}

impl<S: TendrilSink<Tendril<UTF8, A>>, A: Atomicity> LossyDecoder<S, A> {
    ghost use Rattle.tendril_encoding.specs.contracts.lossy.LossyDecoder.{the_row};

    /// Returns a decoder of UTF-8. It keeps a byte order mark. Allocates nothing.
    ///
    /// ```
    /// let decoder: LossyDecoder<Accumulate> = LossyDecoder::utf8(alloc, Accumulate::new(alloc));
    /// let events = decoder.one(ByteTendril::from_slice(alloc, b"\xC3\xA9")?)?; // "é"
    /// assert_eq!(rt; events.len(), 1);
    /// ```
    pub fn utf8(alloc: Global, inner_sink: S) -> Self
        ensures sink { result.decoder.inner_sink ≡ inner_sink }
        ensures kept { result.decoder.kept ≡ start_for Utf8 BomHandling.Keep }
        ensures failed { result.decoder.failed ≡ false }
    {
        Self::new_with(alloc, Encoding::Utf8, BomHandling::Keep, inner_sink)
    }

    /// Returns a decoder of the encoding, or of the one that a byte order mark names (`BomHandling::Sniff`); UTF-8 is
    /// decoded as by `utf8`. Allocates nothing.
    ///
    /// ```
    /// let decoder = LossyDecoder::new_encoding(alloc, Encoding::WINDOWS_1252, Accumulate::new(alloc));
    /// let events = decoder.one(ByteTendril::from_slice(alloc, b"\xE9")?)?; // "é"
    /// assert_eq!(rt; events.len(), 1);
    /// ```
    pub fn new_encoding(alloc: Global, encoding: Encoding, inner_sink: S) -> Self
        ensures sink { result.decoder.inner_sink ≡ inner_sink }
        ensures kept { result.decoder.kept ≡ start_encoding encoding }
        ensures failed { result.decoder.failed ≡ false }
    {
        Self::over(alloc, Kept::new_encoding(alloc, encoding), inner_sink)
    }

    /// Returns a decoder of the encoding, with what becomes of a byte order mark. Allocates nothing.
    ///
    /// ```
    /// let sink = Accumulate::new(alloc);
    /// let decoder = LossyDecoder::new_with(alloc, Encoding::UTF_16LE, BomHandling::Remove, sink);
    /// let events = decoder.one(ByteTendril::from_slice(alloc, b"\xFF\xFEa\x00")?)?; // "a"
    /// assert_eq!(rt; events.len(), 1);
    /// ```
    pub fn new_with(alloc: Global, encoding: Encoding, bom: BomHandling, inner_sink: S) -> Self
        ensures sink { result.decoder.inner_sink ≡ inner_sink }
        ensures kept { result.decoder.kept ≡ start_for encoding bom }
        ensures failed { result.decoder.failed ≡ false }
    {
        Self::over(alloc, Kept::new(alloc, encoding, bom), inner_sink)
    }

    /// Returns a decoder that begins with what `kept` has of a stream. Allocates nothing.
    ///
    /// ```
    /// let kept = Kept::new(alloc, Encoding::KOI8_R, BomHandling::Keep);
    /// let decoder: LossyDecoder<Accumulate> = LossyDecoder::over(alloc, kept, Accumulate::new(alloc));
    /// assert_eq!(rt; decoder.finish()?.len(), 0);
    /// ```
    pub fn over(alloc: Global, kept: Kept, inner_sink: S) -> Self
        ensures sink { result.decoder.inner_sink ≡ inner_sink }
        ensures kept { result.decoder.kept ≡ kept }
        ensures failed { result.decoder.failed ≡ false }
    {
        LossyDecoder {
            decoder: Decoder::over(alloc, kept, inner_sink),
        }
    }

    /// Borrows what is kept of the stream.
    ///
    /// ```
    /// let decoder: LossyDecoder<Accumulate> = LossyDecoder::utf8(alloc, Accumulate::new(alloc));
    /// assert_eq!(rt; decoder.kept().keeps_nothing(), true);
    /// ```
    pub fn kept(&self) -> &Kept
        ensures { result.now ≡ self.now.decoder.kept }
    {
        self.decoder.kept()
    }

    /// The encoding of the stream. A byte order mark may change it once.
    ///
    /// ```
    /// let sink = Accumulate::new(alloc);
    /// let mut decoder: LossyDecoder<Accumulate> = LossyDecoder::new_encoding(alloc, Encoding::KOI8_R, sink);
    /// decoder.process(ByteTendril::from_slice(alloc, b"\xFE\xFF")?)?;
    /// assert_eq!(rt; decoder.encoding(), Encoding::UTF_16BE);
    /// ```
    pub fn encoding(&self) -> Encoding
        ensures { result ≡ self.now.decoder.kept.known.encoding }
    {
        self.decoder.kept().encoding()
    }

    /// Borrows the sink that the texts are sent to.
    ///
    /// ```
    /// let mut decoder: LossyDecoder<Accumulate> = LossyDecoder::utf8(alloc, Accumulate::new(alloc));
    /// decoder.process(ByteTendril::from_slice(alloc, b"abc")?)?;
    /// assert_eq!(rt; decoder.inner_sink().events().len(), 1);
    /// ```
    pub fn inner_sink(&self) -> &S
        ensures { result.now ≡ self.now.decoder.inner_sink }
    {
        self.decoder.inner_sink()
    }

    /// Borrows the sink mutably. The next texts are sent to the sink as the caller leaves it.
    ///
    /// ```
    /// let mut decoder: LossyDecoder<Accumulate> = LossyDecoder::utf8(alloc, Accumulate::new(alloc));
    /// decoder.inner_sink_mut().process(StrTendril::from_slice(alloc, "before the stream")?)?;
    /// assert_eq!(rt; decoder.inner_sink().events().len(), 1);
    /// ```
    pub fn inner_sink_mut(&mut self) -> &mut S
        ensures value { result.now ≡ self.old.decoder.inner_sink }
        ensures* writes_back { sem 𝓛 (Lends (the_row S.row A.row S.Output.row A.Block.row) S.row self.entry result
            (λ w. record self.old { decoder = record self.old.decoder { inner_sink = w } })) }
    {
        self.decoder.inner_sink_mut()
    }
}

impl<S: TendrilSink<Tendril<UTF8, A>>, A: Atomicity> TendrilSink<Tendril<Bytes, A>>
    for LossyDecoder<S, A> {
    type Output = S::Output;

    ghost takes = { λ d e n. ⟦<Decoder<Kept, S, A> as TendrilSink<Tendril<Bytes, A>>>⟧.takes d.decoder e n.decoder };

    ghost refuses = { λ d e r n.
        ⟦<Decoder<Kept, S, A> as TendrilSink<Tendril<Bytes, A>>>⟧.refuses d.decoder e r n.decoder };

    ghost finishes = { λ d out. ⟦<Decoder<Kept, S, A> as TendrilSink<Tendril<Bytes, A>>>⟧.finishes d.decoder out };

    ghost ends = { λ d r. ⟦<Decoder<Kept, S, A> as TendrilSink<Tendril<Bytes, A>>>⟧.ends d.decoder r };

    fn process(&mut self, piece: Tendril<Bytes, A>) -> Result<(), Refusal> {
        self.decoder.process(piece)
    }

    fn error(&mut self, words: CowStr<'static>) -> Result<(), Refusal> {
        self.decoder.error(words)
    }

    fn finish(self) -> Result<S::Output, Refusal> {
        self.decoder.finish()
    }
}

//! What a decoder of any encoding keeps of a stream between two pieces.
ghost use Rattle.std.specs.Prelude.{◌≡◌};

use crate::decode::{decode, end};
use crate::known::Known;
use crate::mark::{BomHandling, Marks, Seen};
use std::alloc::Global;
use std::marker::Model;
use tendril_errors::Refusal;
use tendril_labels::Encoding;
use tendril_stream::{PieceDecoding, TendrilSink};
use tendril_text::fmt::{Bytes, UTF8};
use tendril_text::{Atomicity, Tendril};

/// The search for a byte order mark at the start of a stream.
#[derive(Clone, Copy, Debug)]
pub struct Sniffing {
    pub marks: Marks,
    pub seen: Seen,
}

/// The encoding and what is kept of the stream in it; and the search for a mark, until that is over.
#[derive(Drop)]
pub struct State {
    pub known: Known,
    pub sniffing: Option<Sniffing>,
}

/// What a decoder of any encoding keeps of a stream between two pieces.
#[derive(Drop)]
pub struct Kept {
    state: State,
    // Slices are decoded to it, and their texts copied from it to blocks of their size: decoded in place, each text
    // would keep a block of three bytes for each byte of the slice.
    buffer: Vec<u8>,
}

impl Model for Kept {
    ghost use Rattle.std.specs.Prelude.{◌≤◌, length};
    ghost use Rattle.tendril_errors.specs.declared.limits.TheConstants.{MAX_LEN};
    ghost use Rattle.tendril_encoding.specs.declared.kept.State.{State};

    ghost Value = { State };

    ghost use Rattle.tendril_encoding.specs.States.{FitsState};

    ghost view = { λ k. k.state };

    ghost invariant = { λ k. FitsState k.state × (length k.buffer.items ≤ MAX_LEN) };
}

impl Kept {
    ghost use Rattle.tendril_encoding.specs.Choices.{start_encoding, start_for};
    ghost use Rattle.tendril_encoding.specs.States.{keeps_nothing};

    /// Returns what is kept at the start of a stream. Allocates nothing.
    ///
    /// ```
    /// let kept = Kept::new(alloc, Encoding::SHIFT_JIS, BomHandling::Sniff);
    /// assert_eq!(rt; kept.keeps_nothing(), true);
    /// ```
    pub fn new(alloc: Global, encoding: Encoding, bom: BomHandling) -> Self
        ensures { result ≡ start_for encoding bom }
    {
        let sniffing = Marks::of(encoding, bom).map(|marks| Sniffing {
            marks,
            seen: Seen::Nothing,
        });
        let known = Known::new(encoding);
        Kept {
            state: State { known, sniffing },
            buffer: Vec::new(alloc),
        }
    }

    /// Returns what `LossyDecoder::new_encoding` keeps at the start of a stream: a byte order mark decides the
    /// encoding, but for UTF-8, whose own mark is kept. Allocates nothing.
    ///
    /// ```
    /// let kept = Kept::new_encoding(alloc, Encoding::KOI8_R);
    /// assert_eq!(rt; kept.encoding(), Encoding::KOI8_R);
    /// ```
    pub fn new_encoding(alloc: Global, encoding: Encoding) -> Self
        ensures { result ≡ start_encoding encoding }
    {
        let bom = if encoding == Encoding::Utf8 {
            BomHandling::Keep
        } else {
            BomHandling::Sniff
        };
        Self::new(alloc, encoding, bom)
    }

    /// The encoding. A byte order mark may change it once, with the first bytes of the stream.
    ///
    /// ```
    /// let kept = Kept::new(alloc, Encoding::KOI8_R, BomHandling::Sniff);
    /// assert_eq!(rt; kept.encoding(), Encoding::KOI8_R);
    /// ```
    pub fn encoding(&self) -> Encoding
        ensures { result ≡ self.now.known.encoding }
    {
        self.state.known.encoding
    }

    /// Returns a copy, with which the same stream can be decoded again from here. Allocates nothing.
    ///
    /// ```
    /// let kept = Kept::new(alloc, Encoding::KOI8_R, BomHandling::Sniff);
    /// assert_eq!(rt; kept.copy(alloc).encoding(), Encoding::KOI8_R);
    /// ```
    pub fn copy(&self, alloc: Global) -> Self
        ensures { result ≡ self.now }
    {
        let known = Known {
            encoding: self.state.known.encoding,
            chosen: self.state.known.chosen.copy(),
        };
        Kept {
            state: State {
                known,
                sniffing: self.state.sniffing,
            },
            buffer: Vec::new(alloc),
        }
    }

    /// Whether no byte of an unfinished sequence or byte order mark is kept.
    ///
    /// ```
    /// let mut decoder: LossyDecoder<Accumulate> = LossyDecoder::utf8(alloc, Accumulate::new(alloc));
    /// decoder.process(ByteTendril::from_slice(alloc, b"\xC3")?)?;
    /// assert_eq!(rt; decoder.kept().keeps_nothing(), false);
    /// ```
    pub fn keeps_nothing(&self) -> bool
        ensures { result ≡ keeps_nothing self.now }
    {
        let seen = match self.state.sniffing {
            Some(sniffing) => sniffing.seen.is_nothing(),
            None => true,
        };
        seen && self.state.known.chosen.keeps_nothing()
    }
}

impl<A: Atomicity> PieceDecoding<Tendril<Bytes, A>, Tendril<UTF8, A>> for Kept {
    ghost use Rattle.std.specs.Prelude.{◌≡◌, OnOk, IfErr};
    ghost use Rattle.tendril_encoding.specs.StateLaws.{is_any};
    ghost use Rattle.tendril_encoding.specs.States.{after_state, any};
    ghost use Rattle.tendril_stream.specs.Decoders.{FeedsEnd, FeedsPiece, StopsInEnd, StopsInPiece};

    ghost decoding = { any };

    ghost is_decoding = { is_any };

    fn decode_piece<S: TendrilSink<Tendril<UTF8, A>>>(
        &mut self,
        alloc: Global,
        sink: &mut S,
        piece: Tendril<Bytes, A>,
    ) -> Result<(), Refusal>
        ensures ok { OnOk result (FeedsPiece any S.takes sink.old self.old piece sink.new
            × (self.new ≡ (any).after self.old piece.bytes)) }
        ensures err { IfErr result (λ r. StopsInPiece any S.takes S.refuses sink.old self.old piece r sink.new) }
    {
        decode(alloc, sink, &mut self.state, &mut self.buffer, piece)
    }

    fn decode_end<S: TendrilSink<Tendril<UTF8, A>>>(
        &mut self,
        alloc: Global,
        sink: &mut S,
    ) -> Result<(), Refusal>
        ensures ok { OnOk result (FeedsEnd any S.takes sink.old self.old sink.new) }
        ensures err { IfErr result (λ r. StopsInEnd any S.takes S.refuses sink.old self.old r sink.new) }
    {
        end::<S, A>(alloc, sink, &mut self.state, &mut self.buffer)
    }
}

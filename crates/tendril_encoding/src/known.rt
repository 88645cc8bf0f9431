//! Decoding of pieces in an encoding that is known.
ghost use Rattle.std.specs.Prelude.{◌≡◌, ◌+◌, ◌*◌, ◌≤◌, true, false, ℕ, length, IsAscii, OnOk, IfErr};
ghost use Rattle.tendril_errors.specs.declared.limits.TheConstants.{MAX_LEN};
ghost use Rattle.tendril_decode.specs.Any.{is_fit};
ghost use Rattle.tendril_encoding.specs.Known.{EndsKnown, FeedsKnown, FitsKnown, StopsInKnown, StopsInEndKnown};
ghost use Rattle.tendril_encoding.specs.Known.{after_known, keeps_nothing_known, passes_known, slices};
ghost use Rattle.tendril_encoding.specs.Sends.{FeedsNew, NewStops};
ghost use Rattle.tendril_decode.specs.Machines.{state_after, told_from};
ghost use Rattle.tendril_encoding.specs.First.{after_mark, first_chosen};
ghost use Rattle.tendril_labels.specs.declared.encoding.Encoding.{Encoding};

use crate::mark::Mark;
use crate::slices::{PART, end_slices, feed};
use std::alloc::Global;
use tendril_decode::{
    AnyDecoder, Big5, Decode, EucJp, EucKr, Gb18030, Iso2022Jp, Replacement, ShiftJis, SingleByte,
    Utf16Be, Utf16Le,
};
use tendril_errors::Refusal;
use tendril_labels::Encoding;
use tendril_stream::{KeptUtf8, PieceDecoding, TendrilSink, send};
use tendril_text::fmt::{Bytes, UTF8};
use tendril_text::{Atomicity, Tendril};

/// What is kept of a stream in UTF-8, or in an encoding that is decoded by slices.
#[derive(Drop)]
pub enum Chosen {
    Pieces(KeptUtf8),
    Slices(AnyDecoder),
}

/// What is kept of a stream in an encoding that is known.
#[derive(Drop)]
pub struct Known {
    pub encoding: Encoding,
    pub chosen: Chosen,
}

impl Known {
    /// Returns what is kept at the start of a stream.
    pub(crate) fn new(encoding: Encoding) -> Self
        ensures encoding { result.encoding ≡ encoding }
        ensures chosen { result.chosen ≡ first_chosen encoding }
    {
        Known {
            encoding,
            chosen: chosen_for(encoding),
        }
    }

    /// Returns what is kept after a byte order mark.
    pub(crate) fn marked(mark: Mark) -> Self
        ensures { result ≡ after_mark mark }
    {
        match mark {
            Mark::OfUtf8 => Known {
                encoding: Encoding::Utf8,
                chosen: Chosen::Pieces(KeptUtf8::new()),
            },
            Mark::OfUtf16Le => Known {
                encoding: Encoding::Utf16Le,
                chosen: Chosen::Slices(AnyDecoder::Utf16Le(Utf16Le::new())),
            },
            Mark::OfUtf16Be => Known {
                encoding: Encoding::Utf16Be,
                chosen: Chosen::Slices(AnyDecoder::Utf16Be(Utf16Be::new())),
            },
        }
    }
}

impl Chosen {
    /// Returns a copy.
    pub(crate) fn copy(&self) -> Self
        ensures { result ≡ self.now }
    {
        match self {
            Chosen::Pieces(kept) => Chosen::Pieces(kept.copy()),
            Chosen::Slices(decoder) => Chosen::Slices(*decoder),
        }
    }

    /// Whether no byte of an unfinished sequence is kept.
    pub(crate) fn keeps_nothing(&self) -> bool
        ensures { result ≡ keeps_nothing_known self.now }
    {
        match self {
            Chosen::Pieces(kept) => kept.is_empty(),
            Chosen::Slices(decoder) => decoder.is_complete(),
        }
    }

    // Whether the piece is passed on as it is: it is ASCII, and the encoding decodes ASCII bytes to themselves.
    fn passes(&self, piece: &[u8]) -> bool
        ensures whole { result ≡ true → (passes_known self.now ≡ true) × IsAscii piece.now }
        ensures other { result ≡ false → passes_known self.now ≡ true → IsAscii piece.now → ⊥ }
    {
        let alone = match self {
            Chosen::Pieces(kept) => kept.is_empty(),
            Chosen::Slices(
                AnyDecoder::Iso2022Jp(_)
                | AnyDecoder::Utf16Le(_)
                | AnyDecoder::Utf16Be(_)
                | AnyDecoder::Replacement(_),
            ) => false,
            Chosen::Slices(decoder) => decoder.is_complete(),
        };
        alone && piece.is_ascii()
    }

    /// Decodes a piece, and sends its texts and errors to the sink. The buffer is made longer if it has to be.
    pub(crate) fn decode<S: TendrilSink<Tendril<UTF8, A>>, A: Atomicity>(
        &mut self,
        alloc: Global,
        sink: &mut S,
        buffer: &mut Vec<u8>,
        piece: Tendril<Bytes, A>,
    ) -> Result<(), Refusal>
        requires fits { FitsKnown self.old }
        requires buffer { length buffer.old.items ≤ MAX_LEN }
        ensures fits { FitsKnown self.new }
        ensures buffer { length buffer.new.items ≤ MAX_LEN }
        ensures ok { OnOk result (FeedsKnown S.takes sink.old self.old piece sink.new
            × (self.new ≡ after_known self.old piece.bytes)) }
        ensures err { IfErr result (λ r. StopsInKnown S.takes S.refuses sink.old self.old piece r sink.new) }
    {
        if self.passes(piece.as_byte_slice()) {
            if piece.is_empty() {
                return Ok(());
            }
            return send(sink, piece.reinterpret_without_validating());
        }
        match self {
            Chosen::Pieces(kept) => kept.decode_piece(alloc, sink, piece),
            Chosen::Slices(decoder) => decode_slices(alloc, sink, buffer, decoder, &piece),
        }
    }

    /// Sends what the end of the stream adds to the sink.
    pub(crate) fn end<S: TendrilSink<Tendril<UTF8, A>>, A: Atomicity>(
        &mut self,
        alloc: Global,
        sink: &mut S,
    ) -> Result<(), Refusal>
        requires { FitsKnown self.old }
        ensures fits { FitsKnown self.new }
        ensures ok { OnOk result (EndsKnown S.takes sink.old self.old sink.new) }
        ensures err { IfErr result (λ r. StopsInEndKnown S.takes S.refuses sink.old self.old r sink.new) }
    {
        match self {
            Chosen::Pieces(kept) => kept.decode_end(alloc, sink),
            Chosen::Slices(decoder) => end_slices(alloc, sink, decoder),
        }
    }
}

// Decodes a piece by slices.
fn decode_slices<S: TendrilSink<Tendril<UTF8, A>>, A: Atomicity>(
    alloc: Global,
    sink: &mut S,
    buffer: &mut Vec<u8>,
    decoder: &mut AnyDecoder,
    piece: &Tendril<Bytes, A>,
) -> Result<(), Refusal>
    requires fits { is_fit decoder.old ≡ true }
    requires buffer { length buffer.old.items ≤ MAX_LEN }
    ensures fits { is_fit decoder.new ≡ true }
    ensures buffer { length buffer.new.items ≤ MAX_LEN }
    ensures ok { OnOk result (FeedsNew S.takes sink.old (told_from slices decoder.old piece.now.bytes) sink.new
        × (decoder.new ≡ state_after slices decoder.old piece.now.bytes)) }
    ensures err { IfErr result (λ r.
        NewStops S.takes S.refuses sink.old (told_from slices decoder.old piece.now.bytes) r sink.new) }
{
    let bytes = piece.as_byte_slice();
    let size = 3 * bytes.len().min(PART) + 4;
    if buffer.len() < size {
        *buffer = Vec::from_elem(alloc, 0, size)?;
    }
    feed(alloc, sink, decoder, buffer.as_mut_slice(), bytes)
}

// Returns what is kept at the start of a stream.
fn chosen_for(encoding: Encoding) -> Chosen
    ensures { result ≡ first_chosen encoding }
{
    let decoder = match encoding {
        Encoding::Utf8 => return Chosen::Pieces(KeptUtf8::new()),
        Encoding::Utf16Le => AnyDecoder::Utf16Le(Utf16Le::new()),
        Encoding::Utf16Be => AnyDecoder::Utf16Be(Utf16Be::new()),
        Encoding::Replacement => AnyDecoder::Replacement(Replacement::new()),
        Encoding::Big5 => AnyDecoder::Big5(Big5::new()),
        Encoding::EucJp => AnyDecoder::EucJp(EucJp::new()),
        Encoding::EucKr => AnyDecoder::EucKr(EucKr::new()),
        Encoding::Gb18030 | Encoding::Gbk => AnyDecoder::Gb18030(Gb18030::new()),
        Encoding::Iso2022Jp => AnyDecoder::Iso2022Jp(Iso2022Jp::new()),
        Encoding::ShiftJis => AnyDecoder::ShiftJis(ShiftJis::new()),
        Encoding::Ibm866 => AnyDecoder::Single(SingleByte::Ibm866),
        Encoding::Iso8859_2 => AnyDecoder::Single(SingleByte::Iso8859_2),
        Encoding::Iso8859_3 => AnyDecoder::Single(SingleByte::Iso8859_3),
        Encoding::Iso8859_4 => AnyDecoder::Single(SingleByte::Iso8859_4),
        Encoding::Iso8859_5 => AnyDecoder::Single(SingleByte::Iso8859_5),
        Encoding::Iso8859_6 => AnyDecoder::Single(SingleByte::Iso8859_6),
        Encoding::Iso8859_7 => AnyDecoder::Single(SingleByte::Iso8859_7),
        Encoding::Iso8859_8 => AnyDecoder::Single(SingleByte::Iso8859_8),
        Encoding::Iso8859_8I => AnyDecoder::Single(SingleByte::Iso8859_8I),
        Encoding::Iso8859_10 => AnyDecoder::Single(SingleByte::Iso8859_10),
        Encoding::Iso8859_13 => AnyDecoder::Single(SingleByte::Iso8859_13),
        Encoding::Iso8859_14 => AnyDecoder::Single(SingleByte::Iso8859_14),
        Encoding::Iso8859_15 => AnyDecoder::Single(SingleByte::Iso8859_15),
        Encoding::Iso8859_16 => AnyDecoder::Single(SingleByte::Iso8859_16),
        Encoding::Koi8R => AnyDecoder::Single(SingleByte::Koi8R),
        Encoding::Koi8U => AnyDecoder::Single(SingleByte::Koi8U),
        Encoding::Macintosh => AnyDecoder::Single(SingleByte::Macintosh),
        Encoding::Windows874 => AnyDecoder::Single(SingleByte::Windows874),
        Encoding::Windows1250 => AnyDecoder::Single(SingleByte::Windows1250),
        Encoding::Windows1251 => AnyDecoder::Single(SingleByte::Windows1251),
        Encoding::Windows1252 => AnyDecoder::Single(SingleByte::Windows1252),
        Encoding::Windows1253 => AnyDecoder::Single(SingleByte::Windows1253),
        Encoding::Windows1254 => AnyDecoder::Single(SingleByte::Windows1254),
        Encoding::Windows1255 => AnyDecoder::Single(SingleByte::Windows1255),
        Encoding::Windows1256 => AnyDecoder::Single(SingleByte::Windows1256),
        Encoding::Windows1257 => AnyDecoder::Single(SingleByte::Windows1257),
        Encoding::Windows1258 => AnyDecoder::Single(SingleByte::Windows1258),
        Encoding::XMacCyrillic => AnyDecoder::Single(SingleByte::XMacCyrillic),
        Encoding::XUserDefined => AnyDecoder::Single(SingleByte::XUserDefined),
    };
    Chosen::Slices(decoder)
}

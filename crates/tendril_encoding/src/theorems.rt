//! The theorems of decoding in any encoding.
ghost use Rattle.tendril_encoding.specs.Laws.{MarksDecide, StartsCompose};
ghost use Rattle.tendril_encoding.specs.Outputs.{DecodesToScalars, IsThreefold, DecodesAsciiToItself, UnitsSpellText};

use tendril_stream::Tracks;
use tendril_text::fmt::UTF8;
use tendril_text::{Atomicity, Tendril};

/// States laws for proofs; it does nothing at run time.
///
/// Decoding doesn't depend on where a stream is cut: if a `LossyDecoder`'s `finish` returns Ok, its sink was sent the
/// decoding of all pieces joined. A stream that begins with a byte order mark that is looked for is decoded in the
/// mark's encoding, without the mark, and any other stream in the encoding that the decoder was made for.
///
/// ASCII bytes are decoded to themselves where `is_ascii_compatible` holds. Each character is a scalar value. The units
/// of a text, as UTF-16LE, are decoded to the text. In an encoding of one byte, if no mark is looked for, the text has
/// at most three bytes for each byte of the stream.
pub fn laws<S: Tracks<Tendril<UTF8, A>>, A: Atomicity>()
    ensures composes { StartsCompose S.takes S.finishes S.after }
    ensures marks { MarksDecide }
    ensures ascii { DecodesAsciiToItself }
    ensures scalars { DecodesToScalars }
    ensures units { UnitsSpellText }
    ensures short { IsThreefold }
{}

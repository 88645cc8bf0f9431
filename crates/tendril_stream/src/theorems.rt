//! The theorem that decoding doesn't depend on where a stream is cut.
ghost use Rattle.tendril_stream.specs.Compositions.{Composes};

use crate::piece_decoding::PieceDecoding;
use crate::tracks::Tracks;
use tendril_text::fmt::{Bytes, UTF8};
use tendril_text::{Atomicity, Tendril};

/// States for proofs that decoding doesn't depend on where a stream is cut; it does nothing at run time.
///
/// If `finish` returns Ok, the sink was sent the decoding of all pieces joined (of `KeptUtf8`, the lossy decoding
/// `due`), with one error before each U+FFFD that replaces broken bytes, and `after` holds of the sink and that list.
pub fn laws<
    K: PieceDecoding<Tendril<Bytes, A>, Tendril<UTF8, A>>,
    S: Tracks<Tendril<UTF8, A>>,
    A: Atomicity,
>()
    ensures { Composes K.decoding S.takes S.finishes S.after }
{}

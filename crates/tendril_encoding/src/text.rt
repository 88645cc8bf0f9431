//! Decoding of a whole input at once.
ghost use Rattle.std.specs.Prelude.{◌≡◌, false, IfErr, IfOk};
ghost use Rattle.tendril_encoding.specs.Choices.{start_encoding};
ghost use Rattle.tendril_encoding.specs.StateLaws.{IsStreamStart};
ghost use Rattle.tendril_encoding.specs.Wholes.{DecodesInput, InputMay, IsNewWhole};

use crate::lossy::LossyDecoder;
use crate::whole::Whole;
use std::alloc::Global;
use tendril_errors::Refusal;
use tendril_labels::Encoding;
use tendril_stream::TendrilSink;
use tendril_text::{ByteTendril, StrTendril};

/// How many bytes are decoded at once.
const PIECE: usize = 1 << 16;

/// Decodes a whole input, and returns the text and whether something in it was malformed. A byte order mark decides the
/// encoding, as in `LossyDecoder::new_encoding`.
///
/// Returns `Memory` if an allocation fails; `SinkRefused` if one for the text fails, which then has more than 8 bytes,
/// or if the text would have more than 4294967295 bytes; or `Count` if a block has as many references as it can have.
///
/// ```
/// let (text, malformed) = decode_to_text(alloc, Encoding::WINDOWS_1252, b"caf\xE9")?;
/// assert_eq!(rt; text.as_str(), "café");
/// assert_eq!(rt; malformed, false);
/// ```
pub fn decode_to_text(
    alloc: Global,
    encoding: Encoding,
    bytes: &[u8],
) -> Result<(StrTendril, bool), Refusal>
    ensures ok { IfOk result (λ t. DecodesInput (start_encoding encoding) bytes.now t.0.bytes t.1) }
    ensures err { IfErr result (λ e. InputMay (start_encoding encoding) bytes.now e) }
{
    let decoder = LossyDecoder::new_encoding(alloc, encoding, Whole::new(alloc));
    decode_whole(alloc, decoder, bytes)
}

// Decodes a whole input by a new decoder.
fn decode_whole(
    alloc: Global,
    mut decoder: LossyDecoder<Whole>,
    bytes: &[u8],
) -> Result<(StrTendril, bool), Refusal>
    requires start { IsStreamStart decoder.decoder.kept }
    requires sink { IsNewWhole decoder.decoder.inner_sink }
    requires failed { decoder.decoder.failed ≡ false }
    ensures ok { IfOk result (λ t. DecodesInput decoder.decoder.kept bytes.now t.0.bytes t.1) }
    ensures err { IfErr result (λ e. InputMay decoder.decoder.kept bytes.now e) }
{
    let mut at = 0;
    while at < bytes.len() {
        let end = at + (bytes.len() - at).min(PIECE);
        let piece = ByteTendril::from_slice(alloc, &bytes[at..end])?;
        decoder.process(piece)?;
        at = end;
    }
    decoder.finish()
}

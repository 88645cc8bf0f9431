//! Writes of decoded text.
ghost use Rattle.std.specs.Prelude.{◌≡◌, IsUtf8, IfErr, OnOk, OnErr};
ghost use Rattle.std.specs.Io.KnownBytes.{Appends};
ghost use Rattle.tendril_script.specs.Writing.{AppendsFront};

use crate::joined::Joined;
use std::io::Write;
use tendril_script::{flush, write_bytes};
use tendril_text::block::Refusal;

/// Writes a text and flushes. The only error is SinkRefused; the writer then has a prefix of the text.
///
/// ```
/// let mut out = Vec::new(alloc);
/// write_text(&Joined::new(alloc), &mut out)?;
/// assert_eq!(rt; out.len(), 0);
/// ```
pub fn write_text<W: Write>(text: &Joined, out: &mut W) -> Result<(), Refusal>
    ensures utf8 { IsUtf8 text.now }
    ensures ok { OnOk result (Appends (W.contents out.old) (W.contents out.new) text.now) }
    ensures err { OnErr result (AppendsFront (W.contents out.old) (W.contents out.new) text.now) }
    ensures refusal { IfErr result (λ r. r ≡ Refusal.SinkRefused) }
{
    if let Err(_) = write_bytes(out, text.as_bytes()) {
        return Err(Refusal::SinkRefused);
    }
    if let Err(_) = flush(out) {
        return Err(Refusal::SinkRefused);
    }
    Ok(())
}
